// What a history file says: the settings, and the steps with what each is asked to do.
ghost use Rattle.std.specs.Prelude.{◌≡◌};
ghost use Rattle.std.specs.Str.{bytes_eq};
ghost use Rattle.script.specs.Asked.{verb_in};
ghost use Rattle.script.specs.Verbs.{verb_named, verb_word};

use crate::problems::Problem;

#[derive(Clone, Copy, PartialEq, Eq, Debug)]
pub enum Kind {
    Mark,
    Line,
}

#[derive(Clone, Copy, PartialEq, Eq, Debug)]
pub enum Medium {
    Slots { area: u64, wish: u64 },
    Pages { area: u64 },
}

// The names of the steps.
#[derive(Clone, Copy)]
pub(crate) enum Verb {
    Open,
    InitAtMost,
    Close,
    Lose,
    Append,
    Sync,
    Get,
    Size,
    SectionsFrom,
    Prune,
    Replay,
    Next,
    Finish,
}

impl Verb {
    const ALL: [Verb; 13] = [
        Verb::Open,
        Verb::InitAtMost,
        Verb::Close,
        Verb::Lose,
        Verb::Append,
        Verb::Sync,
        Verb::Get,
        Verb::Size,
        Verb::SectionsFrom,
        Verb::Prune,
        Verb::Replay,
        Verb::Next,
        Verb::Finish,
    ];

    pub(crate) fn word(self) -> &'static str
        ensures { result.now ≡ verb_word self }
    {
        match self {
            Verb::Open => "open",
            Verb::InitAtMost => "init_at_most",
            Verb::Close => "close",
            Verb::Lose => "lose",
            Verb::Append => "append",
            Verb::Sync => "sync",
            Verb::Get => "get",
            Verb::Size => "size",
            Verb::SectionsFrom => "sections_from",
            Verb::Prune => "prune",
            Verb::Replay => "replay",
            Verb::Next => "next",
            Verb::Finish => "finish",
        }
    }

    // Whether a word of the file names this verb.
    fn is_named(self, word: &[u8]) -> bool
        ensures { result ≡ bytes_eq word.now (verb_word self) }
    {
        word == self.word().as_bytes()
    }
}

// The verb that a word of the file names.
impl TryFrom<&[u8]> for Verb {
    type Error = Problem;

    ghost try_from_gives = { λ word r. r ≡ verb_named word.now };

    fn try_from(word: &[u8]) -> Result<Verb, Problem> {
        Verb::ALL
            .iter()
            .find(|verb| verb.is_named(word))
            .copied()
            .ok_or(Problem::UnknownWord)
    }
}

#[derive(Debug, Drop)]
pub enum Call {
    Open,
    InitAtMost { section: u64, end: u64 },
    Close,
    Lose { section: u64, length: u64 },
    Append { section: u64, item: Vec<u8> },
    Sync { sections: Vec<u64> },
    Get { section: u64, offset: u64 },
    Size { section: u64 },
    SectionsFrom { section: u64 },
    Prune { min: u64 },
    Replay { section: u64, offset: u64 },
    Next,
    Finish,
}

impl Call {
    fn verb(&self) -> Verb
        ensures { result ≡ verb_in self.now }
    {
        match self {
            Call::Open => Verb::Open,
            Call::InitAtMost { .. } => Verb::InitAtMost,
            Call::Close => Verb::Close,
            Call::Lose { .. } => Verb::Lose,
            Call::Append { .. } => Verb::Append,
            Call::Sync { .. } => Verb::Sync,
            Call::Get { .. } => Verb::Get,
            Call::Size { .. } => Verb::Size,
            Call::SectionsFrom { .. } => Verb::SectionsFrom,
            Call::Prune { .. } => Verb::Prune,
            Call::Replay { .. } => Verb::Replay,
            Call::Next => Verb::Next,
            Call::Finish => Verb::Finish,
        }
    }

    // The word that the step begins with in a history file.
    pub fn word(&self) -> &'static str
        ensures { result.now ≡ verb_word (verb_in self.now) }
    {
        self.verb().word()
    }
}

// One step, the length of the work buffer that it alone is lent, and the line that it stands on.
#[derive(Drop)]
pub struct Step {
    pub call: Call,
    pub work: Option<u64>,
    pub line: u64,
}

#[derive(Drop)]
pub struct Script {
    pub kind: Kind,
    pub medium: Medium,
    pub work: Option<u64>,
    pub steps: Vec<Step>,
}
