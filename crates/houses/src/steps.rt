// The steps of a history file as the steps of a history.
ghost use Rattle.std.specs.Prelude.{◌≡◌};
ghost use Rattle.houses.specs.Steps.{step_of, work_of};

use history::{Note, Step};
use script::Call;
use std::alloc::{AllocError, Global};

// The length of the work buffer that a step is lent: its own, else the file's, else the one that every call takes.
fn work_len(own: Option<u64>, file: Option<u64>, most: u64) -> u64
    ensures { result ≡ work_of own file most }
{
    own.or(file).unwrap_or(most)
}

// The step of a history that a line of the file asks for.
fn step_of(call: Call, work: u64) -> Step
    ensures { result ≡ step_of call work }
{
    match call {
        Call::Open => Step::Open,
        Call::InitAtMost { section, end } => Step::InitAtMost { section, end, work },
        Call::Close => Step::Close,
        Call::Lose { section, length } => Step::Lose {
            section,
            keep: length,
        },
        Call::Append { section, item } => Step::Append {
            section,
            item,
            work,
        },
        Call::Sync { sections } => Step::Sync { sections },
        Call::Get { section, offset } => Step::Get {
            section,
            offset,
            work,
        },
        Call::Size { section } => Step::Size { section },
        Call::SectionsFrom { section } => Step::SectionsFrom { section },
        Call::Prune { min } => Step::Prune { min },
        Call::Replay { section, offset } => Step::Replay { section, offset },
        Call::Next => Step::Next { work },
        Call::Finish => Step::Finish,
    }
}

// A file's steps with the word of each, and a place for what is noted of it.
#[derive(Drop)]
pub struct Plan<V> {
    pub words: Vec<&'static str>,
    pub steps: Vec<Step>,
    pub notes: Vec<Option<Note<V>>>,
}

pub(crate) fn planned<V: Drop>(
    heap: Global,
    lines: Vec<script::Step>,
    file: Option<u64>,
    most: u64,
) -> Result<Plan<V>, AllocError> {
    let mut plan = Plan {
        words: Vec::new(heap),
        steps: Vec::new(heap),
        notes: Vec::new(heap),
    };
    for line in lines {
        let script::Step {
            call,
            work,
            line: _,
        } = line;
        plan.words.push(call.word())?;
        plan.steps.push(step_of(call, work_len(work, file, most)))?;
        plan.notes.push(None)?;
    }
    Ok(plan)
}
