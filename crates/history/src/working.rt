// Working a history: every step by its call, on one new storage.
ghost use Rattle.std.specs.Prelude.{◌≡◌};
ghost use Rattle.history.specs.Logs.{state_of};
ghost use Rattle.history.specs.Runs.{ready, Worked, Works};

use crate::log::{Advance, Log, end, work_step};
use crate::steps::{Note, Step};
use item::Item;
use journal::Journal;
use storage::Storage;

// Works the steps as far as there are places for what is noted of them.
fn work_steps<V: Item + Drop, S: Storage>(
    mut log: Log<V, S>,
    steps: &[Step],
    buffer: &mut [u8],
    notes: &mut [Option<Note<V>>],
) -> Log<V, S>
    ensures { Worked V.Item.bytes V.Item.decoded V.Item.greatest (state_of S.Storage.standing (log)) steps.now buffer.old notes.old (state_of S.Storage.standing result) buffer.new notes.new }
{
    let mut rest = steps;
    for place in notes.iter_mut() {
        let Some((step, later)) = rest.split_first() else {
            break;
        };
        let Advance { log: next, note } = work_step(log, step, buffer);
        log = next;
        *place = Some(note);
        rest = later;
    }
    log
}

// Whether a storage is new and the work buffer long enough for the items.
fn is_ready<V: Item, S: Storage>(storage: &S, buffer: &[u8]) -> bool
    ensures { result ≡ ready V.Item.bytes V.Item.decoded V.Item.greatest (S.Storage.standing storage.now) buffer.now }
{
    storage.next_section(0).is_none() && buffer.len() >= V::greatest_len() + 5
}

// Works a history on a new storage and gives the journal: a running replay is finished at the end, a closed log opened. A
// storage that is not new comes back untouched, and so does one where the work buffer is too short for the items.
pub fn work<V: Item + Drop, S: Storage>(
    storage: S,
    steps: &[Step],
    buffer: &mut [u8],
    notes: &mut [Option<Note<V>>],
) -> Result<Journal<V, S>, S>
    ensures { Works V.Item.bytes V.Item.decoded V.Item.greatest S.Storage.standing storage steps.now buffer.old notes.old result buffer.new notes.new }
{
    if !is_ready::<V, S>(&storage, buffer) {
        return Err(storage);
    }
    let log = work_steps(Log::Closed(storage), steps, buffer, notes);
    Ok(end(log))
}
