// The steps of a history, and what is noted of each.
ghost use Rattle.std.specs.Prelude.{◌≡◌};

use fault::Fault;
use journal::{Handed, Placed};

// One call, with its numbers and its item as bytes. A call that takes a work buffer is lent one of `work` bytes.
#[derive(Drop)]
pub enum Step {
    Open,
    InitAtMost {
        section: u64,
        end: u64,
        work: u64,
    },
    Close,
    Lose {
        section: u64,
        keep: u64,
    },
    Append {
        section: u64,
        item: Vec<u8>,
        work: u64,
    },
    Sync {
        sections: Vec<u64>,
    },
    Get {
        section: u64,
        offset: u64,
        work: u64,
    },
    Size {
        section: u64,
    },
    SectionsFrom {
        section: u64,
    },
    Prune {
        min: u64,
    },
    Replay {
        section: u64,
        offset: u64,
    },
    Next {
        work: u64,
    },
    Finish,
}

// The full answer of a step.
#[derive(Drop)]
pub enum Note<V> {
    // The step was out of turn, or an append whose bytes are no item; nothing changed.
    PassedOver,
    Refused(Fault),
    Done,
    Appended(Placed),
    Got { size: usize, item: Option<V> },
    Sized(u64),
    Found(Option<u64>),
    Pruned(bool),
    Handed { handed: Handed, item: Option<V> },
    Drained,
}

// An answer that is no more than accepted or refused.
impl<V> From<Result<(), Fault>> for Note<V> {
    ghost use Rattle.history.specs.Turns.{plain};

    ghost from_gives = { λ x r. r ≡ plain x };

    fn from(answer: Result<(), Fault>) -> Note<V> {
        match answer {
            Ok(()) => Note::Done,
            Err(refusal) => Note::Refused(refusal),
        }
    }
}
