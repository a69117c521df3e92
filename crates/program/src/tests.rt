// What is told of files that are refused, digits, and that storages are made.
use super::*;
use item::{DateMark, ImprintLine};
use script::Failure;
use std::alloc::Global;
use std::process::Abort;
use std::test::Fail;

// What `parse` says of a text that is written out would be computed in each test's proof, which is slow.
fn told(heap: Global, name: &str, text: &[u8]) -> Result<String, Fail> {
    match script::parse(heap, text) {
        Ok(_) => Err(Fail::new("a history")),
        Err(failure) => Ok(files::no_history(heap, name, failure)?),
    }
}

fn refused(rt: &impl Abort, heap: Global, text: &[u8], message: &str) -> Result<(), Fail> {
    assert_eq!(rt; told(heap, "a.history", text)?.as_str(), message);
    Ok(())
}

#[test]
fn refused_files(rt: HostRuntime) -> Result<(), Fail> {
    let heap = rt.alloc();
    refused(
        &rt,
        heap,
        b"open\nappend 3 \"Anna\n",
        "a.history: line 2: the quoted text is not closed",
    )?;
    refused(
        &rt,
        heap,
        b"\n# Friday\nopens",
        "a.history: line 3: this is neither a setting nor a step",
    )?;
    refused(
        &rt,
        heap,
        b"size 18446744073709551616",
        "a.history: line 1: the number is larger than 18446744073709551615",
    )?;
    let told = files::no_history(heap, "-", Failure::Memory)?;
    assert_eq!(rt; told.as_str(), "-: there is not enough memory");
    Ok(())
}

#[test]
fn printed_bytes(rt: HostRuntime) -> Result<(), Fail> {
    let heap = rt.alloc();
    let none = Digits(b"");
    let some = Digits(b"\x00\x0aAz\xff");
    assert_eq!(rt; format!(in heap; "{none}")?.as_str(), "-");
    assert_eq!(rt; format!(in heap; "{some}")?.as_str(), "000a417aff");
    Ok(())
}

#[test]
fn there_is_memory(rt: HostRuntime) -> Result<(), Fail> {
    let heap = rt.alloc();
    assert!(rt; slots(heap, u64::MAX, 64).is_ok());
    assert!(rt; pages(heap, u64::MAX).is_ok());
    assert!(rt; work_buffer::<DateMark>(heap)?.len() == 10);
    assert!(rt; work_buffer::<ImprintLine>(heap)?.len() == 205);
    Ok(())
}
