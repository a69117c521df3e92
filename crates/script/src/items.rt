// Reads the bytes of an item, which a history file writes as pairs of hexadecimal digits or as a quoted text.
ghost use Rattle.std.specs.Prelude.{◌≡◌, vec_items};
ghost use Rattle.script.specs.Bytes.{first_is, of_word};
ghost use Rattle.script.specs.Hex.{hex_byte, hex_digit, hex_of};
ghost use Rattle.script.specs.Quotes.{parts, quoted_of};
ghost use Rattle.script.specs.Told.{Tells, told};

use crate::bytes::{all, is_printable, of_quote, of_word, run};
use crate::problems::{Failure, Problem};
use std::alloc::Global;

fn hex_digit(b: u8) -> Option<u8>
    ensures { result ≡ hex_digit b }
{
    char::from(b).to_digit(16).map(|digit| digit as u8)
}

fn hex_byte(high: u8, low: u8) -> Option<u8>
    ensures { result ≡ hex_byte high low }
{
    let sixteens = hex_digit(high)?;
    let ones = hex_digit(low)?;
    Some(sixteens * 16 + ones)
}

pub(crate) fn from_hex(heap: Global, word: &[u8]) -> Result<Vec<u8>, Failure<Problem>>
    ensures { Tells vec_items result (hex_of word.now) }
{
    let (pairs, odd) = word.as_chunks::<2>();
    let mut bytes = Vec::new(heap);
    for [high, low] in pairs {
        let byte = hex_byte(*high, *low).ok_or(Problem::NotHex)?;
        bytes.push(byte)?;
    }
    if odd.is_empty() {
        Ok(bytes)
    } else {
        Err(Failure::Mistake(Problem::OddDigits))
    }
}

// Whether a word goes on here.
fn goes_on(bytes: &[u8]) -> bool
    ensures { result ≡ first_is of_word bytes.now }
{
    bytes.first().is_some_and(|b| of_word(*b))
}

// The text up to the closing quote, and what follows that quote; `bytes` begins after the opening one.
pub(crate) fn quoted(bytes: &[u8]) -> Result<(&[u8], &[u8]), Problem>
    ensures { told parts result ≡ quoted_of bytes.now }
{
    let (text, [_, after @ ..]) = bytes.split_at(run(bytes, of_quote)) else {
        return Err(Problem::QuoteNotClosed);
    };
    if !all(text, is_printable) {
        return Err(Problem::Unprintable);
    }
    if goes_on(after) {
        return Err(Problem::GluedToQuote);
    }
    Ok((text, after))
}
