// What is told of two files of different kinds, and when two read-outs are equal.
use super::*;
use journal::{Handed, Row};
use std::test::Fail;

#[test]
fn other_messages(rt: HostRuntime) -> Result<(), Fail> {
    let heap = rt.alloc();
    let told = files::other_kind(heap, "b.history", "a.history")?;
    assert_eq!(rt;
        told.as_str(),
        "b.history: its kind is not that of a.history"
    );
    Ok(())
}

fn row(section: u64, offset: u64, text: &[u8]) -> Result<Row<ImprintLine>, Fail> {
    let size = text.len();
    match ImprintLine::decode(text) {
        Ok(item) => Ok(Row {
            handed: Handed {
                section,
                offset,
                size,
            },
            item,
        }),
        Err(_) => Err(Fail::new("no line")),
    }
}

// Whether a read-out of Anna at the front of section 3 equals another of one row.
fn as_anna(section: u64, offset: u64, text: &[u8]) -> Result<bool, Fail> {
    let one = [row(3, 0, b"Anna")?];
    let other = [row(section, offset, text)?];
    Ok(rows::same_rows(&one, &other))
}

#[test]
fn equal_read_outs(rt: HostRuntime) -> Result<(), Fail> {
    assert!(rt; as_anna(3, 0, b"Anna")?);
    assert!(rt; !as_anna(4, 0, b"Anna")?);
    assert!(rt; !as_anna(3, 5, b"Anna")?);
    assert!(rt; !as_anna(3, 0, b"Annas")?);
    assert!(rt; !as_anna(3, 0, b"Anne")?);
    let one = [row(3, 0, b"Anna")?];
    assert!(rt; !rows::same_rows(&one, &[]));
    Ok(())
}
