// The rows of read-outs: their items' bytes, how many sections they are of, and whether two read-outs are equal.
ghost use Rattle.std.specs.Prelude.{◌≡◌, ◌≤◌, None};
ghost use Rattle.houses.specs.Rows.{begun, same_rows, sections_behind};

use item::Item;
use journal::Row;
use std::alloc::{AllocError, Global};

// An item's bytes.
pub(crate) fn bytes_of<V: Item>(heap: Global, item: &V) -> Result<Vec<u8>, AllocError> {
    let mut bytes = vec![in heap; 0u8; item.encoded_len()]?;
    let _ = item.encode(&mut bytes);
    Ok(bytes)
}

// 1 for a row that begins a section, behind a row of the last one.
fn begun(last: Option<u64>, section: u64) -> usize
    ensures value { result ≡ begun last section }
    ensures few { result ≤ 1 }
{
    usize::from(last != Some(section))
}

// How many sections the rows are of; rows of one section stand together.
pub(crate) fn sections<V>(rows: &[Row<V>]) -> usize
    ensures { result ≡ sections_behind None rows.now }
{
    let mut sections: usize = 0;
    let mut last = None;
    for row in rows {
        let section = row.handed.section;
        sections += begun(last, section);
        last = Some(section);
    }
    sections
}

// Whether two read-outs are equal: row by row the same section, offset, size and item.
pub(crate) fn same_rows<V: PartialEq>(one: &[Row<V>], other: &[Row<V>]) -> bool
    ensures { result ≡ same_rows V.PartialEq.eq one.now other.now }
{
    one == other
}
