// Whole files, read line by line: what each gives, and what is wrong with damaged ones.
use super::*;
use std::test::Fail;

const WHOLE: &[u8] = b"# a history\r\n\
kind mark # as is\n\
storage slots 4096\t16\n\
\n\
work 00000000000000000000000000007\r\n\
open\n\
init_at_most 1 18446744073709551615\n\
append 3 \"Anna # 1\" with 10 # the end\n\
  append 3 4aFf\n\
append 3 -#none\n\
append 3 \"\"\n\
sync\n\
sync 1 2 with 7\n\
get 3 0\n\
size 3\n\
sections_from 0\n\
prune 2\n\
replay 0 0\n\
next\n\
finish with 0\n\
lose 3 5\n\
close";

const TOLD: &str = "Mark Slots { area: 4096, wish: 16 } Some(7)\n\
6 Open None\n\
7 InitAtMost { section: 1, end: 18446744073709551615 } None\n\
8 Append { section: 3, item: [65, 110, 110, 97, 32, 35, 32, 49] } Some(10)\n\
9 Append { section: 3, item: [74, 255] } None\n\
10 Append { section: 3, item: [] } None\n\
11 Append { section: 3, item: [] } None\n\
12 Sync { sections: [] } None\n\
13 Sync { sections: [1, 2] } Some(7)\n\
14 Get { section: 3, offset: 0 } None\n\
15 Size { section: 3 } None\n\
16 SectionsFrom { section: 0 } None\n\
17 Prune { min: 2 } None\n\
18 Replay { section: 0, offset: 0 } None\n\
19 Next None\n\
20 Finish Some(0)\n\
21 Lose { section: 3, length: 5 } None\n\
22 Close None\n";

// What `parse` says of a text that is written out would be computed in each test's proof, which is slow.
fn read(heap: Global, text: &[u8]) -> Result<Script, Fail> {
    Ok(parse(heap, text)?)
}

fn told(heap: Global, text: &[u8]) -> Result<String, Fail> {
    let script = read(heap, text)?;
    let kind = script.kind;
    let medium = script.medium;
    let work = script.work;
    let mut out = format!(in heap; "{kind:?} {medium:?} {work:?}\n")?;
    for step in script.steps.iter() {
        let line = step.line;
        let call = &step.call;
        let work = step.work;
        let row = format!(in heap; "{line} {call:?} {work:?}\n")?;
        out.push_str(row.as_str())?;
    }
    Ok(out)
}

#[test]
fn a_whole_file(rt: HostRuntime) -> Result<(), Fail> {
    let out = told(rt.alloc(), WHOLE)?;
    assert_eq!(rt; out.as_str(), TOLD);
    Ok(())
}

const DAMAGED: [(&[u8], u64, Problem); 26] = [
    (b"opens", 1, Problem::UnknownWord),
    (b"\n\r\n\xff\xfe 1", 3, Problem::UnknownWord),
    (b"size", 1, Problem::NumberMissing),
    (b"get 1 # 2", 1, Problem::NumberMissing),
    (b"open\nlose 1 x", 2, Problem::NotANumber),
    (b"sync 1 -2", 1, Problem::NotANumber),
    (b"size 99999999999999999999z", 1, Problem::NotANumber),
    (b"prune 18446744073709551616", 1, Problem::NumberTooLarge),
    (b"open with", 1, Problem::NumberMissing),
    (b"append 1", 1, Problem::ItemMissing),
    (b"append 1 abc", 1, Problem::OddDigits),
    (b"append 1 0g", 1, Problem::NotHex),
    (b"append 1 \"a", 1, Problem::QuoteNotClosed),
    (b"append 1 \"a\tb\"", 1, Problem::Unprintable),
    (b"append 1 \"a\x7f\"", 1, Problem::Unprintable),
    (b"append 1 \"a\"b", 1, Problem::GluedToQuote),
    (b"open 1", 1, Problem::WordTooMany),
    (b"next with 1 2", 1, Problem::WordTooMany),
    (b"kind mark line", 1, Problem::WordTooMany),
    (b"work 1\nwork 1", 2, Problem::SettingTwice),
    (b"open\nkind mark", 2, Problem::SettingAfterStep),
    (b"kind", 1, Problem::KindMissing),
    (b"kind lines", 1, Problem::UnknownKind),
    (b"storage", 1, Problem::StorageMissing),
    (b"storage disk 1", 1, Problem::UnknownStorage),
    (b"storage slots 1", 1, Problem::NumberMissing),
];

fn mistake_in(heap: Global, text: &[u8]) -> Result<Mistake, Fail> {
    match parse(heap, text) {
        Ok(_) => Err(Fail::new("a damaged file was read")),
        Err(Failure::Memory) => Err(Fail::new("there is no memory")),
        Err(Failure::Mistake(mistake)) => Ok(mistake),
    }
}

#[test]
fn damaged_files(rt: HostRuntime) -> Result<(), Fail> {
    for (text, line, problem) in DAMAGED {
        let mistake = mistake_in(rt.alloc(), text)?;
        assert_eq!(rt; mistake, Mistake { line, problem });
    }
    Ok(())
}

const NUMBERS: [(&[u8], &str); 4] = [
    (
        b"size 0",
        "Line Slots { area: 4194304, wish: 64 } None\n1 Size { section: 0 } None\n",
    ),
    (
        b"size 000",
        "Line Slots { area: 4194304, wish: 64 } None\n1 Size { section: 0 } None\n",
    ),
    (
        b"storage pages 00000000000000000000000000007\n",
        "Line Pages { area: 7 } None\n",
    ),
    (
        b"work 18446744073709551615",
        "Line Slots { area: 4194304, wish: 64 } Some(18446744073709551615)\n",
    ),
];

#[test]
fn numbers(rt: HostRuntime) -> Result<(), Fail> {
    for (text, expected) in NUMBERS {
        let out = told(rt.alloc(), text)?;
        assert_eq!(rt; out.as_str(), expected);
    }
    Ok(())
}

#[test]
fn a_mistake_is_told_with_its_line(rt: HostRuntime) -> Result<(), Fail> {
    let heap = rt.alloc();
    let mistake = mistake_in(heap, b"open\n\nsize x")?;
    let out = format!(in heap; "{mistake}")?;
    assert_eq!(rt; out.as_str(), "line 3: this is not a decimal number");
    Ok(())
}

#[test]
fn a_step_has_the_word_of_its_line(rt: HostRuntime) -> Result<(), Fail> {
    let script = read(rt.alloc(), b"init_at_most 0 1\nsections_from 2")?;
    assert!(rt; script.steps.len() == 2);
    assert_eq!(rt; script.steps[0].call.word(), "init_at_most");
    assert_eq!(rt; script.steps[1].call.word(), "sections_from");
    Ok(())
}
