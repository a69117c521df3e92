// What has been read of a history file so far, and how a line adds to it.
ghost use Rattle.std.specs.Prelude.{◌≡◌, Some};
ghost use Rattle.script.specs.Draft.{drafted, finished, kind_at, kind_of, line_taken, may_set, medium_at, start, where_allowed, whole};
ghost use Rattle.script.specs.Told.{Tells, told};
ghost use Rattle.script.specs.Words.{left};

use crate::problems::{Failure, Problem};
use crate::reading::step;
use crate::steps::{Kind, Medium, Script, Step};
use crate::words::Line;
use std::alloc::Global;

fn kind_named(word: &[u8]) -> Result<Kind, Problem>
    ensures { result ≡ kind_of word.now }
{
    match word {
        b"mark" => Ok(Kind::Mark),
        b"line" => Ok(Kind::Line),
        b"" => Err(Problem::KindMissing),
        _ => Err(Problem::UnknownKind),
    }
}

fn read_kind(line: &mut Line) -> Result<Kind, Problem>
    ensures { result ≡ kind_at (left line.old) }
{
    line.last(|line| kind_named(line.word()))
}

fn read_medium(line: &mut Line) -> Result<Medium, Problem>
    ensures { result ≡ medium_at (left line.old) }
{
    match line.word() {
        b"slots" => line
            .last(Line::pair)
            .map(|(area, wish)| Medium::Slots { area, wish }),
        b"pages" => line.last(Line::number).map(|area| Medium::Pages { area }),
        b"" => Err(Problem::StorageMissing),
        _ => Err(Problem::UnknownStorage),
    }
}

#[derive(Drop)]
pub(crate) struct Draft {
    kind: Option<Kind>,
    medium: Option<Medium>,
    work: Option<u64>,
    steps: Vec<Step>,
}

impl Draft {
    pub(crate) fn new(heap: Global) -> Draft
        ensures { drafted result ≡ start }
    {
        Draft {
            kind: None,
            medium: None,
            work: None,
            steps: Vec::new(heap),
        }
    }

    // A setting with what its line gives it; `before` is what it has been given.
    fn setting<T: Drop>(
        &self,
        before: Option<T>,
        read: Result<T, Problem>,
    ) -> Result<Option<T>, Problem>
        ensures { result ≡ where_allowed (may_set (drafted self.now) before) (told Some read) }
    {
        if !self.steps.is_empty() {
            Err(Problem::SettingAfterStep)
        } else if before.is_some() {
            Err(Problem::SettingTwice)
        } else {
            read.map(Some)
        }
    }

    // Takes the line with this number.
    pub(crate) fn take(
        &mut self,
        heap: Global,
        number: u64,
        bytes: &[u8],
    ) -> Result<(), Failure<Problem>>
        ensures { Tells (λ _. drafted self.new) result (line_taken (drafted self.old) number bytes.now) }
    {
        let mut line = Line::new(bytes);
        let word = line.word();
        if word.is_empty() {
            return Ok(());
        }
        match word {
            b"kind" => self.kind = self.setting(self.kind, read_kind(&mut line))?,
            b"storage" => self.medium = self.setting(self.medium, read_medium(&mut line))?,
            b"work" => self.work = self.setting(self.work, line.last(Line::number))?,
            _ => self.steps.push(step(heap, number, word, &mut line)?)?,
        }
        Ok(())
    }

    pub(crate) fn finish(self) -> Script
        ensures { whole result ≡ finished (drafted self) }
    {
        Script {
            kind: self.kind.unwrap_or(Kind::Line),
            medium: self.medium.unwrap_or(Medium::Slots {
                area: 4_194_304,
                wish: 64,
            }),
            work: self.work,
            steps: self.steps,
        }
    }
}
