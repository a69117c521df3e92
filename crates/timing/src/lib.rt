// What the benchmarks share: the time that a call takes, and how it is printed.
#![tactic(auto)]

ghost use Rattle.std.specs.Prelude.{◌≡◌, Some};
ghost use Rattle.timing.specs.Times.{hundredths_text, part_of, percent};

use std::fmt;

// Hundredths of a nanosecond.
#[derive(Clone, Copy, PartialEq, Eq, PartialOrd, Ord, Debug)]
pub struct Hundredths(pub u64);

impl Hundredths {
    // What each of so many calls takes, of the nanoseconds that all took.
    pub fn each(nanos: u128, calls: u64) -> Hundredths
        ensures { result.0 ≡ part_of nanos calls }
    {
        let hundredths = nanos.saturating_mul(100) / u128::from(calls.max(1));
        Hundredths(hundredths.min(u128::from(u64::MAX)) as u64)
    }

    // How many percent of another time this is.
    pub fn percent_of(self, other: Hundredths) -> u64
        ensures { result ≡ percent self.0 other.0 }
    {
        self.0.saturating_mul(100) / other.0.max(1)
    }
}

// With a point and two digits behind it.
impl fmt::Display for Hundredths {
    ghost output = { λ x. Some (hundredths_text x.0) };

    fn fmt<W: fmt::Write>(&self, f: &mut fmt::Formatter<W>) -> fmt::Result {
        let whole = self.0 / 100;
        let tens = self.0 / 10 % 10;
        let ones = self.0 % 10;
        write!(f, "{whole}.{tens}{ones}")
    }
}

#[cfg(test)]
mod tests;
