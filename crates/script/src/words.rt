// What is left of one line, from which words, numbers and items are cut off at the front.
ghost use Rattle.std.specs.Prelude.{◌≡◌, vec_items, OnOk, Result};
ghost use Rattle.std.specs.Fn.{FnOnceReturnsAtMut};
ghost use Rattle.script.specs.declared.problems.Problem.{Problem};
ghost use Rattle.script.specs.declared.words.Line.{Line};
ghost use Rattle.script.specs.Told.{Tells};
ghost use Rattle.script.specs.Words.{after_word, ended, item_at, left, number_at, pair_at, plain_of, skip, then_end, word_at};

use crate::bytes::{is_blank, of_word, run};
use crate::items::{from_hex, quoted};
use crate::numbers::number;
use crate::problems::{Failure, Problem};
use std::alloc::Global;

#[derive(Clone, Copy)]
pub(crate) struct Line<'a> {
    rest: &'a [u8],
}

fn without_blanks(bytes: &[u8]) -> &[u8]
    ensures { result.now ≡ skip bytes.now }
{
    &bytes[run(bytes, is_blank)..]
}

// The bytes of an item that is not quoted.
fn plain(heap: Global, word: &[u8]) -> Result<Vec<u8>, Failure<Problem>>
    ensures { Tells vec_items result (plain_of word.now) }
{
    match word {
        b"" => Err(Failure::Mistake(Problem::ItemMissing)),
        b"-" => Ok(Vec::new(heap)),
        _ => from_hex(heap, word),
    }
}

impl<'a> Line<'a> {
    pub(crate) fn new(bytes: &'a [u8]) -> Line<'a>
        ensures { left result ≡ bytes.now }
    {
        Line { rest: bytes }
    }

    // The next word, which is empty where the line or a comment ends it.
    pub(crate) fn word(&mut self) -> &'a [u8]
        ensures value { result.now ≡ word_at (left self.old) }
        ensures after { left self.new ≡ after_word (left self.old) }
    {
        let tail = without_blanks(self.rest);
        let (word, rest) = tail.split_at(run(tail, of_word));
        self.rest = rest;
        word
    }

    pub(crate) fn number(&mut self) -> Result<u64, Problem>
        ensures value { result ≡ number_at (left self.old) }
        ensures after { left self.new ≡ after_word (left self.old) }
    {
        let word = self.word();
        if word.is_empty() {
            return Err(Problem::NumberMissing);
        }
        number(word)
    }

    pub(crate) fn pair(&mut self) -> Result<(u64, u64), Problem>
        ensures value { result ≡ pair_at (left self.old) }
        ensures after { OnOk result (left self.new ≡ after_word (after_word (left self.old))) }
    {
        let first = self.number()?;
        let second = self.number()?;
        Ok((first, second))
    }

    pub(crate) fn item(&mut self, heap: Global) -> Result<Vec<u8>, Failure<Problem>>
        ensures { Tells (λ v. (v.items, left self.new)) result (item_at (left self.old)) }
    {
        match without_blanks(self.rest) {
            [b'"', tail @ ..] => {
                let (text, after) = quoted(tail)?;
                self.rest = after;
                Ok(Vec::from_slice(heap, text)?)
            }
            _ => plain(heap, self.word()),
        }
    }

    pub(crate) fn end(&mut self) -> Result<(), Problem>
        ensures { result ≡ ended (left self.old) }
    {
        if self.word().is_empty() {
            Ok(())
        } else {
            Err(Problem::WordTooMany)
        }
    }

    // What `read` reads, with nothing but blanks and a comment after it.
    pub(crate) fn last<T: Drop, F: FnOnce(&mut Line<'a>) -> Result<T, Problem>>(
        &mut self,
        read: F,
    ) -> Result<T, Problem>
        requires { F.IsAlwaysCallable read }
        ensures { (r : Result T Problem) × (after : Line) × FnOnceReturnsAtMut F.FnOnce read self.old r after × (result ≡ then_end r (ended (left after))) }
    {
        let value = read(self)?;
        self.end()?;
        Ok(value)
    }
}
