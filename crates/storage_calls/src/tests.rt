// The calls on each storage, and each storage's own limits.
use super::*;
use std::alloc::Global;
use storage::{Pages, Slots};

fn slots(heap: Global, area: usize, wish: u64) -> Result<Slots, Fail> {
    let area = vec![in heap; 0xaau8; area]?;
    match Slots::new(heap, area, wish) {
        Ok(slots) => Ok(slots),
        Err(_) => Err(Fail::new("no memory")),
    }
}

#[test]
fn calls_on_slots(rt: HostRuntime) -> Result<(), Fail> {
    boundary_calls(&mut slots(rt.alloc(), 4096, 4)?)
}

fn pages(heap: Global, area: usize) -> Result<Pages, Fail> {
    let area = vec![in heap; 0xaau8; area]?;
    match Pages::new(heap, area) {
        Ok(pages) => Ok(pages),
        Err(_) => Err(Fail::new("no memory")),
    }
}

#[test]
fn calls_on_pages(rt: HostRuntime) -> Result<(), Fail> {
    boundary_calls(&mut pages(rt.alloc(), 4096)?)
}

#[test]
fn room_in_pages(rt: HostRuntime) -> Result<(), Fail> {
    let heap = rt.alloc();
    let mut storage = pages(heap, 3 * 256 + 255)?;
    assert_eq!(rt; storage.most_sections(), 64);
    assert_eq!(rt; storage.most_bytes(), 0);
    let block = [7u8; 257];
    assert_eq!(rt; storage.append(1, &block), Ok(0));
    assert_eq!(rt;
        storage.append(2, &block),
        Err(Fault::NoRoom {
            section: 2,
            size: 0,
        })
    );
    assert_eq!(rt; storage.append(2, b"abc"), Ok(0));
    assert_eq!(rt; storage.append(3, b""), Ok(0));
    assert_eq!(rt;
        storage.append(3, b"x"),
        Err(Fault::NoRoom {
            section: 3,
            size: 0,
        })
    );
    storage.truncate(1, 256);
    assert_eq!(rt; storage.append(3, b"x"), Ok(0));
    let mut buffer = [0u8; 3];
    assert_eq!(rt; storage.read(2, 0, &mut buffer), Ok(()));
    assert_eq!(rt; buffer, *b"abc");
    assert_eq!(rt; pages(heap, 65 * 256)?.most_bytes(), 256);
    Ok(())
}

#[test]
fn wishes_and_areas(rt: HostRuntime) -> Result<(), Fail> {
    let heap = rt.alloc();
    let rows = [
        (0usize, 0u64, 1usize, 0u64),
        (1, 1, 1, 1),
        (63, 64, 64, 0),
        (64, 64, 64, 1),
        (100, 7, 7, 14),
        (640, u64::MAX, 64, 10),
    ];
    for (area, wish, sections, bytes) in rows {
        let storage = slots(heap, area, wish)?;
        assert_eq!(rt; storage.most_sections(), sections);
        assert_eq!(rt; storage.most_bytes(), bytes);
        assert_eq!(rt; storage.next_section(0), None);
    }
    let largest = slots(heap, 4_194_305, 1)?;
    assert_eq!(rt; largest.most_bytes(), 4_194_304);
    Ok(())
}

#[test]
fn room_in_slots(rt: HostRuntime) -> Result<(), Fail> {
    let mut storage = slots(rt.alloc(), 10, 2)?;
    assert_eq!(rt;
        storage.append(1, b"123456"),
        Err(Fault::NoRoom {
            section: 1,
            size: 0,
        })
    );
    assert_eq!(rt; storage.append(1, b"12345"), Ok(0));
    assert_eq!(rt; storage.append(1, b""), Ok(5));
    assert_eq!(rt;
        storage.append(1, b"6"),
        Err(Fault::NoRoom {
            section: 1,
            size: 5,
        })
    );
    assert_eq!(rt; storage.append(2, b"abc"), Ok(0));
    assert_eq!(rt;
        storage.append(3, b""),
        Err(Fault::NoRoom {
            section: 3,
            size: 0,
        })
    );
    storage.remove(1);
    assert_eq!(rt; storage.append(3, b"xyz"), Ok(0));
    let mut buffer = [0u8; 3];
    assert_eq!(rt; storage.read(2, 0, &mut buffer), Ok(()));
    assert_eq!(rt; buffer, *b"abc");
    Ok(())
}
