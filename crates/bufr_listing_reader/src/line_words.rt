//! Reads the words of a line, which one space separates.

ghost use Rattle.std.specs.Prelude.{◌≡◌, ◌==◌, ◌^◌, ◌∷◌, [], length, drop, nat_le, IfOk, IfNone};
ghost use Rattle.std.specs.Prelude.{IfSome, option_map};
ghost use Rattle.std.specs.List.{position};
ghost use Rattle.std.specs.Str.{bytes_eq};
ghost use Rattle.bufr_listing_reader.specs.Lines.{first_word, words_of};
ghost use Rattle.bufr_listing_reader.specs.Words.{words_left, below, number_below, numbers_of};
ghost use Rattle.bufr_listing_reader.specs.Words.{descriptors_of};

use bufr_base::OutOfMemory;
use bufr_fields::Decimal;
use bufr_tables::Fxy;
use std::alloc::Global;

/// A cursor over the words of a line.
#[derive(Clone, Copy)]
pub(crate) struct Words<'a> {
    rest: Option<&'a [u8]>,
}

impl<'a> Words<'a> {
    #[tactic(auto, unfolding(crate::specs::Words::words_left))]
    pub(crate) fn of(text: &'a [u8]) -> Words<'a>
        ensures { words_left result ≡ words_of text.now }
    {
        Words { rest: Some(text) }
    }

    #[tactic(auto, unfolding(crate::specs::Words::words_left))]
    pub(crate) fn next(&mut self) -> Option<&'a [u8]>
        ensures none { IfNone result (words_left self.old ≡ []) }
        ensures some { IfSome result (λ w. words_left self.old ≡ w.now ∷ words_left self.new) }
    {
        let text = self.rest?;
        match space_in(text) {
            None => {
                self.rest = None;
                Some(text)
            }
            Some(end) => {
                self.rest = Some(&text[end + 1..]);
                Some(&text[..end])
            }
        }
    }

    pub(crate) fn after_first(line: &'a [u8]) -> Words<'a>
        ensures { words_left result ≡ drop 1 (words_of line.now) }
    {
        let mut words = Words::of(line);
        match words.next() {
            None => words,
            Some(_) => words,
        }
    }

    /// Returns the word left, if it is the only one.
    pub(crate) fn only(mut self) -> Option<&'a [u8]>
        ensures none { IfNone result (length (words_left self.entry) ≡ 1 → ⊥) }
        ensures some { IfSome result (λ w. words_left self.entry ≡ w.now ∷ []) }
    {
        let word = self.next()?;
        match self.next() {
            None => Some(word),
            Some(_) => None,
        }
    }

    /// Whether `count` words are left.
    pub(crate) fn has_count(mut self, count: usize) -> bool
        ensures { result ≡ (length (words_left self.entry) == count) }
    {
        for _i in 0..count {
            if self.next().is_none() {
                return false;
            }
        }
        self.next().is_none()
    }

    /// Whether at most `count` words are left.
    pub(crate) fn has_at_most(mut self, count: usize) -> bool
        ensures { result ≡ nat_le (length (words_left self.entry)) count }
    {
        for _i in 0..count {
            if self.next().is_none() {
                return true;
            }
        }
        self.next().is_none()
    }

    /// Reads the words left as numbers, one below each limit.
    pub(crate) fn numbers(
        mut self,
        alloc: Global,
        limits: &[u64],
    ) -> Result<Option<Vec<u64>>, OutOfMemory>
        ensures { IfOk result (λ o. option_map (λ ns. ns.items) o
            ≡ numbers_of limits.now (words_left self.entry)) }
    {
        let mut numbers = Vec::with_capacity(alloc, limits.len())?;
        for limit in limits {
            let Some(word) = self.next() else {
                return Ok(None);
            };
            let Some(number) = number_below(*limit, word) else {
                return Ok(None);
            };
            numbers.push(number)?;
        }
        Ok(if self.next().is_none() {
            Some(numbers)
        } else {
            None
        })
    }

    pub(crate) fn descriptors(mut self, alloc: Global) -> Result<Option<Vec<Fxy>>, OutOfMemory>
        ensures { IfOk result (λ o. option_map (λ ds. ds.items) o
            ≡ descriptors_of (words_left self.entry)) }
    {
        let mut descriptors = Vec::new(alloc);
        while let Some(word) = self.next() {
            match Fxy::from_text(word) {
                None => return Ok(None),
                Some(fxy) => descriptors.push(fxy)?,
            }
        }
        Ok(Some(descriptors))
    }
}

/// Whether a line begins with this word.
pub(crate) fn begins(line: &[u8], word: &[u8]) -> bool
    ensures { result ≡ bytes_eq (first_word line.now) word.now }
{
    match Words::of(line).next() {
        None => false,
        Some(first) => first == word,
    }
}

/// Reads the digits of a number below a limit, without leading zeros.
fn number_below(limit: u64, word: &[u8]) -> Option<u64>
    ensures { result ≡ number_below limit word.now }
{
    let value = Decimal::parse(word, 0)?;
    let number = natural(value.units)?;
    if number < limit { Some(number) } else { None }
}

/// Converts units to 64 bits without a sign, if they fit.
pub(crate) fn natural(units: i128) -> Option<u64>
    ensures { result ≡ below (2 ^ 64) units }
{
    u64::try_from(units).ok()
}

fn space_in(text: &[u8]) -> Option<usize>
    ensures { result ≡ position (λ c. c == 32) text.now }
{
    text.iter().position(|c| *c == b' ')
}
