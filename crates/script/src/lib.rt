// Reads a history file: settings first, then one step to a line. A file may hold any bytes; what is no history is refused
// with the number of its first wrong line and what is wrong there.
#![tactic(auto)]

ghost use Rattle.script.specs.Parsed.{Parses, script_of};

use std::alloc::Global;

mod bytes;
mod items;
mod lines;
mod numbers;
mod problems;
mod reading;
mod settings;
mod steps;
mod words;

use lines::Lines;
pub use problems::{Failure, Mistake, Problem};
use settings::Draft;
pub use steps::{Call, Kind, Medium, Script, Step};

pub fn parse(heap: Global, text: &[u8]) -> Result<Script, Failure>
    ensures { Parses result (script_of text.now) }
{
    let mut draft = Draft::new(heap);
    for (i, line) in Lines::new(text).enumerate() {
        let number = i as u64 + 1;
        draft
            .take(heap, number, line)
            .map_err(|failure| failure.at_line(number))?;
    }
    Ok(draft.finish())
}

#[cfg(test)]
mod tests;
