// Makes what a history is worked on: the storage that its file names, and the work buffer that its steps are lent.
ghost use Rattle.std.specs.Prelude.{◌≡◌, ◌+◌, replicate, vec_items, IfOk};
ghost use Rattle.program.specs.Making.{MadePages, MadeSlots};

use anyhow::anyhow;
use item::Item;
use std::alloc::{AllocError, Global};
use storage::{Pages, Slots};

fn no_memory() -> anyhow::Error {
    anyhow!("there is not enough memory for the storage")
}

// Slots use no more of an area than this, so a larger one that a file asks for is not made.
pub fn slots(heap: Global, area: u64, wish: u64) -> anyhow::Result<Slots>
    ensures { IfOk result (λ x. MadeSlots area wish x) }
{
    let area = vec![in heap; 0u8; area.min(4_194_304) as usize]?;
    Slots::new(heap, area, wish).map_err(|_| no_memory())
}

// 4,096 pages of 256 bytes, at most.
pub fn pages(heap: Global, area: u64) -> anyhow::Result<Pages>
    ensures { IfOk result (λ x. MadePages area x) }
{
    let area = vec![in heap; 0u8; area.min(1_048_576) as usize]?;
    Pages::new(heap, area).map_err(|_| no_memory())
}

// No call looks at more than this, so a longer buffer that a file asks for is not made.
pub fn work_buffer<V: Item>(heap: Global) -> Result<Vec<u8>, AllocError>
    ensures { IfOk result (λ buffer. vec_items buffer ≡ replicate (V.greatest + 5) 0) }
{
    vec![in heap; 0u8; V::greatest_len() + 5]
}
