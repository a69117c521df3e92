// Reads one step from what follows its first word on the line.
ghost use Rattle.std.specs.Prelude.{◌≡◌};
ghost use Rattle.script.specs.Asked.{asked, turn};
ghost use Rattle.script.specs.Calls.{call_at, more_sections, sections_at, step_at, work_at};
ghost use Rattle.script.specs.Told.{Tells};
ghost use Rattle.script.specs.Words.{left};

use crate::problems::{Failure, Problem};
use crate::steps::{Call, Step, Verb};
use crate::words::Line;
use std::alloc::Global;

// Whether a section comes next, and not the end or the work buffer.
fn section_next(line: &Line) -> bool
    ensures { result ≡ more_sections (left line.now) }
{
    let mut ahead = *line;
    !matches!(ahead.word(), b"" | b"with")
}

fn sections(heap: Global, line: &mut Line) -> Result<Vec<u64>, Failure<Problem>>
    ensures { Tells (λ v. (v.items, left line.new)) result (sections_at (left line.old)) }
{
    let mut sections = Vec::new(heap);
    while section_next(line) {
        let section = line.number()?;
        sections.push(section)?;
    }
    Ok(sections)
}

fn call(heap: Global, verb: Verb, line: &mut Line) -> Result<Call, Failure<Problem>>
    ensures { Tells (λ c. (asked c, left line.new)) result (call_at verb (left line.old)) }
{
    match verb {
        Verb::Open => Ok(Call::Open),
        Verb::InitAtMost => {
            let (section, end) = line.pair()?;
            Ok(Call::InitAtMost { section, end })
        }
        Verb::Close => Ok(Call::Close),
        Verb::Lose => {
            let (section, length) = line.pair()?;
            Ok(Call::Lose { section, length })
        }
        Verb::Append => {
            let section = line.number()?;
            let item = line.item(heap)?;
            Ok(Call::Append { section, item })
        }
        Verb::Sync => {
            let sections = sections(heap, line)?;
            Ok(Call::Sync { sections })
        }
        Verb::Get => {
            let (section, offset) = line.pair()?;
            Ok(Call::Get { section, offset })
        }
        Verb::Size => {
            let section = line.number()?;
            Ok(Call::Size { section })
        }
        Verb::SectionsFrom => {
            let section = line.number()?;
            Ok(Call::SectionsFrom { section })
        }
        Verb::Prune => {
            let min = line.number()?;
            Ok(Call::Prune { min })
        }
        Verb::Replay => {
            let (section, offset) = line.pair()?;
            Ok(Call::Replay { section, offset })
        }
        Verb::Next => Ok(Call::Next),
        Verb::Finish => Ok(Call::Finish),
    }
}

// The work buffer that a step is lent alone; nothing else may be left on the line.
fn work(line: &mut Line) -> Result<Option<u64>, Problem>
    ensures { result ≡ work_at (left line.old) }
{
    match line.word() {
        b"" => Ok(None),
        b"with" => line.last(Line::number).map(Some),
        _ => Err(Problem::WordTooMany),
    }
}

pub(crate) fn step(
    heap: Global,
    number: u64,
    word: &[u8],
    line: &mut Line,
) -> Result<Step, Failure<Problem>>
    ensures { Tells turn result (step_at number word.now (left line.old)) }
{
    let verb = Verb::try_from(word)?;
    let call = call(heap, verb, line)?;
    let work = work(line)?;
    Ok(Step {
        call,
        work,
        line: number,
    })
}
