// The worked examples of the format: a mark and a line, with what they look like in their frames.
ghost use Rattle.item.specs.Strips.{Shown};

use crate::{DateMark, DayKind, ImprintLine, Item};
use fault::Reason;

#[derive(Clone, Copy)]
pub struct Specimens {
    pub mark: DateMark,
    pub line: ImprintLine,
}

// The birthday on 9 March, on sheet 260, and the empty line.
pub fn worked_examples() -> Result<Specimens, Reason>
    ensures { Shown result }
{
    let mark = DateMark::new(3, 9, DayKind::Birthday, 260)?;
    let line = ImprintLine::decode(&[])?;
    Ok(Specimens { mark, line })
}
