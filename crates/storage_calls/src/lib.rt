// Calls at the boundaries of every storage, run: what a storage of any kind answers, step by step.
#![tactic(auto)]

ghost use Rattle.std.specs.Prelude.{◌≡◌, is_ok};

use fault::Fault;
use std::fmt::Debug;
use std::test::Fail;
use storage::Storage;

// An `Err` that tells both where they differ.
fn check_eq<T: PartialEq + Debug + Drop>(found: T, wanted: T) -> Result<(), Fail>
    ensures { is_ok result ≡ T.eq found wanted }
{
    if found == wanted {
        Ok(())
    } else {
        Err(Fail::new(format_args!("{found:?} is not {wanted:?}")))
    }
}

// Sections of no bytes, of some, and of the greatest number.
pub fn sections<S: Storage>(storage: &mut S) -> Result<(), Fail> {
    check_eq(storage.next_section(0), None)?;
    check_eq(storage.append(7, b"abc"), Ok(0))?;
    check_eq(storage.append(u64::MAX, b""), Ok(0))?;
    check_eq(storage.append(0, b"z"), Ok(0))?;
    check_eq(storage.append(7, b"de"), Ok(3))?;
    check_eq(storage.size(7), 5)?;
    check_eq(storage.size(8), 0)?;
    check_eq(storage.settled(7), 0)?;
    check_eq(storage.next_section(0), Some(0))?;
    check_eq(storage.next_section(1), Some(7))?;
    check_eq(storage.next_section(8), Some(u64::MAX))?;
    storage.remove(u64::MAX);
    check_eq(storage.next_section(8), None)?;
    Ok(())
}

// Reads within, at and past the end, and of nothing.
pub fn reads<S: Storage>(storage: &mut S) -> Result<(), Fail> {
    let mut buffer = [0xaau8; 3];
    check_eq(storage.read(7, 2, &mut buffer), Ok(()))?;
    check_eq(buffer, *b"cde")?;
    check_eq(
        storage.read(7, 3, &mut buffer),
        Err(Fault::PastEnd {
            section: 7,
            offset: 3,
        }),
    )?;
    check_eq(
        storage.read(7, u64::MAX, &mut buffer),
        Err(Fault::PastEnd {
            section: 7,
            offset: u64::MAX,
        }),
    )?;
    check_eq(
        storage.read(8, 0, &mut []),
        Err(Fault::PastEnd {
            section: 8,
            offset: 0,
        }),
    )?;
    check_eq(storage.read(7, 5, &mut []), Ok(()))?;
    check_eq(
        storage.read(7, 6, &mut []),
        Err(Fault::PastEnd {
            section: 7,
            offset: 6,
        }),
    )?;
    check_eq(buffer, *b"cde")?;
    Ok(())
}

// What is settled cannot be lost, and what is cut is settled.
pub fn losses<S: Storage>(storage: &mut S) -> Result<(), Fail> {
    storage.sync(7);
    storage.sync(8);
    check_eq(storage.settled(7), 5)?;
    check_eq(storage.append(7, b"fgh"), Ok(5))?;
    check_eq(
        storage.lose(7, 4),
        Err(Fault::Settled {
            section: 7,
            settled: 5,
        }),
    )?;
    check_eq(
        storage.lose(7, 9),
        Err(Fault::Settled {
            section: 7,
            settled: 5,
        }),
    )?;
    check_eq(
        storage.lose(8, 0),
        Err(Fault::Settled {
            section: 8,
            settled: 0,
        }),
    )?;
    check_eq(storage.lose(7, 6), Ok(()))?;
    check_eq(storage.size(7), 6)?;
    check_eq(storage.settled(7), 6)?;
    check_eq(storage.append(7, b"!"), Ok(6))?;
    storage.truncate(7, 7);
    check_eq(storage.settled(7), 6)?;
    storage.truncate(7, 2);
    storage.truncate(8, 0);
    check_eq(storage.size(7), 2)?;
    check_eq(storage.settled(7), 2)?;
    check_eq(storage.size(0), 1)?;
    check_eq(storage.settled(0), 0)?;
    Ok(())
}

pub fn boundary_calls<S: Storage>(storage: &mut S) -> Result<(), Fail> {
    sections(storage)?;
    reads(storage)?;
    losses(storage)
}

#[cfg(test)]
mod tests;
