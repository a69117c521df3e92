// Examples of both item kinds, run: good bytes there and back, and the first reason against bad ones.
use super::*;
use std::process::Abort;
use std::test::Fail;

fn no_mark(rt: &impl Abort, stored: &[u8], why: Reason) {
    assert_eq!(rt; DateMark::decode(stored), Err(why));
}

#[test]
fn marks(rt: HostRuntime) -> Result<(), Fail> {
    let mark = DateMark::new(3, 9, DayKind::Birthday, 260)?;
    let mut buffer = [0xaau8; 6];
    assert_eq!(rt; mark.encode(&mut buffer), Some(5));
    assert_eq!(rt; buffer, [0x03, 0x09, 0x01, 0x01, 0x04, 0xaa]);
    assert_eq!(rt; DateMark::decode(&buffer[0..5]), Ok(mark));
    assert_eq!(rt; mark.encode(&mut buffer[0..4]), None);
    assert_eq!(rt;
        DateMark::decode(&[12, 31, 3, 0xff, 0xff]),
        DateMark::new(12, 31, DayKind::Remembrance, 65_535)
    );
    Ok(())
}

#[test]
fn bytes_that_are_no_mark(rt: HostRuntime) {
    no_mark(&rt, &[], Reason::Length);
    no_mark(&rt, &[0, 0, 0, 0], Reason::Length);
    no_mark(&rt, &[1, 1, 1, 0, 0, 0], Reason::Length);
    no_mark(&rt, &[0, 0, 0, 0, 0], Reason::Month);
    no_mark(&rt, &[13, 0, 0, 0, 0], Reason::Month);
    no_mark(&rt, &[1, 0, 0, 0, 0], Reason::Day);
    no_mark(&rt, &[1, 32, 0, 0, 0], Reason::Day);
    no_mark(&rt, &[1, 31, 0, 0, 0], Reason::Kind);
    no_mark(&rt, &[1, 31, 4, 0, 0], Reason::Kind);
}

#[test]
fn lines(rt: HostRuntime) -> Result<(), Fail> {
    let line = ImprintLine::decode(b" Anna & Bo ~")?;
    assert!(rt; line.text() == b" Anna & Bo ~".as_slice());
    assert_eq!(rt; line.encoded_len(), 12);
    let mut buffer = [0xaau8; 13];
    assert_eq!(rt; line.encode(&mut buffer), Some(12));
    assert_eq!(rt; buffer[12], 0xaa);
    assert!(rt; ImprintLine::decode(&buffer[0..12])? == line);
    assert!(rt; ImprintLine::decode(b" Anna & Bo")? != line);
    assert_eq!(rt; line.encode(&mut buffer[0..11]), None);
    Ok(())
}

#[test]
fn bytes_that_are_no_line(rt: HostRuntime) {
    assert!(rt; ImprintLine::decode(&[0x7e; 200]).is_ok());
    assert!(rt; matches!(ImprintLine::decode(&[0x20; 201]), Err(Reason::Length)));
    assert!(rt; matches!(ImprintLine::decode(&[0x00; 201]), Err(Reason::Length)));
    assert!(rt; matches!(ImprintLine::decode(&[0x41, 0x1f]), Err(Reason::Byte)));
    assert!(rt; matches!(ImprintLine::decode(&[0x7f]), Err(Reason::Byte)));
}

#[test]
fn framed_examples(rt: HostRuntime) -> Result<(), Fail> {
    let examples = worked_examples()?;
    let mut item = [0u8; 5];
    let mut buffer = [0xaau8; 7];
    assert_eq!(rt; examples.mark.encode(&mut item), Some(5));
    assert_eq!(rt; frame::put(&item, &mut buffer), Ok(6));
    assert_eq!(rt; buffer, [0x05, 0x03, 0x09, 0x01, 0x01, 0x04, 0xaa]);
    assert_eq!(rt; frame::put(examples.line.text(), &mut buffer), Ok(1));
    assert_eq!(rt; buffer[0], 0x00);
    Ok(())
}
