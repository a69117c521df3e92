// What the program prints: a line for each step, and the read-out.
use crate::rows::{bytes_of, sections};
use anyhow::anyhow;
use fault::Fault;
use history::Note;
use item::Item;
use journal::{Handed, Placed, Row};
use program::Digits;
use std::alloc::{AllocError, Global};

fn refusal(heap: Global, fault: Fault) -> Result<String, AllocError> {
    let row = fault.row();
    format!(in heap; "refused {row}")
}

// Where an item stands, and the item.
fn standing<V: Item>(heap: Global, handed: Handed, item: &V) -> Result<String, AllocError> {
    let Handed {
        section,
        offset,
        size,
    } = handed;
    let bytes = bytes_of(heap, item)?;
    let item = Digits(&bytes);
    format!(in heap; "section {section} offset {offset} size {size} item {item}")
}

fn found(heap: Global, section: Option<u64>) -> Result<String, AllocError> {
    match section {
        Some(section) => format!(in heap; "ok section {section}"),
        None => String::from_str(heap, "ok none"),
    }
}

// What is printed for a note; none for one that no step leaves.
fn answer<V: Item>(heap: Global, note: &Note<V>) -> Result<Option<String>, AllocError> {
    let text = match note {
        Note::PassedOver => String::from_str(heap, "passed over")?,
        Note::Refused(fault) => refusal(heap, *fault)?,
        Note::Done => String::from_str(heap, "ok")?,
        Note::Appended(Placed { offset, size }) => format!(in heap;
            "ok offset {offset} size {size}"
        )?,
        Note::Got {
            size,
            item: Some(item),
        } => {
            let bytes = bytes_of(heap, item)?;
            let item = Digits(&bytes);
            format!(in heap; "ok size {size} item {item}")?
        }
        Note::Sized(size) => format!(in heap; "ok size {size}")?,
        Note::Found(section) => found(heap, *section)?,
        Note::Pruned(true) => String::from_str(heap, "ok removed")?,
        Note::Pruned(false) => String::from_str(heap, "ok nothing")?,
        Note::Handed {
            handed,
            item: Some(item),
        } => {
            let row = standing(heap, *handed, item)?;
            format!(in heap; "ok {row}")?
        }
        Note::Drained => String::from_str(heap, "ok none")?,
        Note::Got { .. } | Note::Handed { .. } => return Ok(None),
    };
    Ok(Some(text))
}

pub(crate) fn print_notes<V: Item>(
    rt: &HostRuntime,
    words: &[&'static str],
    notes: &[Option<Note<V>>],
) -> anyhow::Result<()> {
    for ((word, note), number) in words.iter().zip(notes.iter()).zip(1u64..u64::MAX) {
        let answer = match note {
            Some(note) => answer(rt.alloc(), note)?,
            None => None,
        };
        let Some(answer) = answer else {
            return Err(anyhow!("a step has no answer"));
        };
        println!(rt; "{number} {word} {answer}")?;
    }
    Ok(())
}

pub(crate) fn print_rows<V: Item>(rt: &HostRuntime, rows: &[Row<V>]) -> anyhow::Result<()> {
    rt.println("read-out")?;
    for row in rows {
        let text = standing(rt.alloc(), row.handed, &row.item)?;
        rt.println(text.as_str())?;
    }
    let items = rows.len();
    let sections = sections(rows);
    println!(rt; "{items} items in {sections} sections")?;
    Ok(())
}
