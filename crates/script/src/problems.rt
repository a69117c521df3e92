// What can be wrong with a history file, and how it is told.
ghost use Rattle.std.specs.Prelude.{◌≡◌};
ghost use Rattle.script.specs.Told.{failure_at};
ghost use Rattle.script.specs.declared.problems.Failure.TheVariants.{Memory, Mistake};

use std::alloc::{AllocError, AllocFailed};
use std::fmt;

// One thing that is wrong with a line.
#[derive(Clone, Copy, PartialEq, Eq, Debug)]
pub enum Problem {
    UnknownWord,
    NumberMissing,
    NotANumber,
    NumberTooLarge,
    ItemMissing,
    OddDigits,
    NotHex,
    QuoteNotClosed,
    Unprintable,
    GluedToQuote,
    WordTooMany,
    SettingTwice,
    SettingAfterStep,
    KindMissing,
    UnknownKind,
    StorageMissing,
    UnknownStorage,
}

impl fmt::Display for Problem {
    fn fmt<W: fmt::Write>(&self, f: &mut fmt::Formatter<W>) -> fmt::Result {
        match self {
            Problem::UnknownWord => f.write_str("this is neither a setting nor a step"),
            Problem::NumberMissing => f.write_str("a number is missing"),
            Problem::NotANumber => f.write_str("this is not a decimal number"),
            Problem::NumberTooLarge => f.write_str(
                "the number is larger than 18446744073709551615",
            ),
            Problem::ItemMissing => f.write_str("the item is missing"),
            Problem::OddDigits => f.write_str("the item has an odd number of hexadecimal digits"),
            Problem::NotHex => f.write_str("the item has something else than hexadecimal digits"),
            Problem::QuoteNotClosed => f.write_str("the quoted text is not closed"),
            Problem::Unprintable => f.write_str(
                "the quoted text has a byte that is not printable ASCII",
            ),
            Problem::GluedToQuote => f.write_str(
                "something follows the closing quote without a blank",
            ),
            Problem::WordTooMany => f.write_str("there is a word too many"),
            Problem::SettingTwice => f.write_str("this setting is given twice"),
            Problem::SettingAfterStep => f.write_str("settings come before the first step"),
            Problem::KindMissing => f.write_str("the kind is missing: mark or line"),
            Problem::UnknownKind => f.write_str("the kind is neither mark nor line"),
            Problem::StorageMissing => f.write_str("the storage is missing: slots or pages"),
            Problem::UnknownStorage => f.write_str("the storage is neither slots nor pages"),
        }
    }
}

// A problem and the line that has it, counted from 1.
#[derive(Clone, Copy, PartialEq, Eq, Debug)]
pub struct Mistake {
    pub line: u64,
    pub problem: Problem,
}

impl fmt::Display for Mistake {
    fn fmt<W: fmt::Write>(&self, f: &mut fmt::Formatter<W>) -> fmt::Result {
        let line = self.line;
        let problem = self.problem;
        write!(f, "line {line}: {problem}")
    }
}

// Why a history file gives no script; what is wrong is told with its line, or alone by what does not know the line.
#[derive(Clone, Copy, PartialEq, Eq, Debug)]
pub enum Failure<M = Mistake> {
    Mistake(M),
    Memory,
}

impl Failure<Problem> {
    pub(crate) fn at_line(self, line: u64) -> Failure
        ensures { result ≡ failure_at line self }
    {
        match self {
            Failure::Mistake(problem) => Failure::Mistake(Mistake { line, problem }),
            Failure::Memory => Failure::Memory,
        }
    }
}

impl fmt::Display for Failure {
    fn fmt<W: fmt::Write>(&self, f: &mut fmt::Formatter<W>) -> fmt::Result {
        match *self {
            Failure::Mistake(mistake) => write!(f, "{mistake}"),
            Failure::Memory => f.write_str("there is not enough memory"),
        }
    }
}

impl From<Problem> for Failure<Problem> {
    ghost from_gives = { λ p r. r ≡ Mistake p };

    fn from(p: Problem) -> Failure<Problem> {
        Failure::Mistake(p)
    }
}

impl<M> From<AllocError> for Failure<M> {
    ghost from_gives = { λ _ r. r ≡ Memory };

    fn from(_e: AllocError) -> Failure<M> {
        Failure::Memory
    }
}

impl<M, T: Drop> From<AllocFailed<T>> for Failure<M> {
    ghost from_gives = { λ _ r. r ≡ Memory };

    fn from(_e: AllocFailed<T>) -> Failure<M> {
        Failure::Memory
    }
}
