// Reads a decimal number of any length, and says whether it fits 64 bits.
ghost use Rattle.std.specs.Prelude.{◌≡◌};
ghost use Rattle.script.specs.Decimal.{number_of, numeral};

use crate::bytes::{all, is_digit};
use crate::problems::Problem;
use std::str::from_utf8;

fn is_numeral(word: &[u8]) -> bool
    ensures { result ≡ numeral word.now }
{
    !word.is_empty() && all(word, is_digit)
}

pub(crate) fn number(word: &[u8]) -> Result<u64, Problem>
    ensures { result ≡ number_of word.now }
{
    if !is_numeral(word) {
        return Err(Problem::NotANumber);
    }
    let digits = from_utf8(word).unwrap();
    digits.parse().map_err(|_| Problem::NumberTooLarge)
}
