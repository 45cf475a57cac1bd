//! The head of the last message: its octets before the data bits.

ghost use Rattle.std.specs.Prelude.{◌≡◌, ◌+◌, ◌-◌, ◌≤◌, true, Ok, codes, drop, length, take};
ghost use Rattle.bufr_sections.specs.Sections.{envelope_of};
ghost use Rattle.bufr_ls_engine.specs.RowSteps.{HasHead, SaysAgain, fields_after_length};

use bufr_sections::SectionsInPlace;
use bufr_sections::laws::sections_are_spelt;

/// The octets before the data bits, if they are 32 to 64: the first 32, and the last 32.
#[derive(Drop)]
pub(crate) struct LastHead {
    /// The number of octets of the message, or 0.
    total: usize,
    first: [u8; 32],
    /// The index of the last 32.
    at: usize,
    last: [u8; 32],
    /// The number of octets of the last message, also if its head is not kept.
    seen: usize,
}

impl LastHead {
    /// Starts with a head that no message has.
    pub(crate) fn none() -> LastHead
        ensures { result.total ≡ 0 }
    {
        LastHead {
            total: 0,
            first: [0; 32],
            at: 0,
            last: [0; 32],
            seen: 0,
        }
    }

    /// Returns whether octets have this head, and the end of a message.
    #[inline(always)]
    pub(crate) fn is_of(&self, octets: &[u8]) -> bool
        ensures { result ≡ true → HasHead self.now octets.now }
    {
        if octets.len() != self.total || !starts_with(octets, &self.first) {
            return false;
        }
        let Some(rest) = octets.get(self.at..) else {
            return false;
        };
        starts_with(rest, &self.last) && is_ended(octets)
    }

    /// Keeps the head of a message, if the message before had as many octets.
    #[inline(always)]
    pub(crate) fn keep(&mut self, octets: &[u8], said: &SectionsInPlace<'_>)
        requires { envelope_of octets.now ≡ Ok said.now }
        ensures { SaysAgain self.new said.now.head.master_version
            (fields_after_length octets.now said.now) }
    {
        sections_are_spelt();
        self.total = 0;
        if self.seen != octets.len() {
            self.seen = octets.len();
            return;
        }
        let end = octets.len() - 4 - said.contents.len();
        if end > 64 {
            return;
        }
        let before = &octets[..end];
        if let (Some(first), Some(last)) = (before.first_chunk(), before.last_chunk()) {
            self.first = *first;
            self.last = *last;
            self.at = end - 32;
            self.total = octets.len();
        }
    }

    pub(crate) fn forget(&mut self)
        ensures { self.new ≡ record self.old { total = 0 } }
    {
        self.total = 0;
    }
}

/// Returns whether octets start with a part.
#[inline(always)]
fn starts_with(octets: &[u8], part: &[u8; 32]) -> bool
    ensures { result ≡ true → take 32 octets.now ≡ part.now }
{
    match octets.first_chunk::<32>() {
        Some(first) => are_same(first, part),
        None => false,
    }
}

// A comparison of the arrays would be a call.
#[inline(always)]
#[tactic(auto, using(crate::proofs::SameHeads::by_words))]
fn are_same(octets: &[u8; 32], others: &[u8; 32]) -> bool
    ensures { result ≡ true → octets.now ≡ others.now }
{
    have_same_word(octets, others, 0)
        && have_same_word(octets, others, 8)
        && have_same_word(octets, others, 16)
        && have_same_word(octets, others, 24)
}

/// Returns whether the eight octets from an index on are the same.
#[inline(always)]
fn have_same_word(octets: &[u8], others: &[u8], at: usize) -> bool
    requires octets { at ≤ length octets.now }
    requires others { at ≤ length others.now }
    ensures { result ≡ true → take 8 (drop at octets.now) ≡ take 8 (drop at others.now) }
{
    let Some(eight) = octets[at..].first_chunk() else {
        return false;
    };
    let Some(other) = others[at..].first_chunk() else {
        return false;
    };
    u64::from_le_bytes(*eight) == u64::from_le_bytes(*other)
}

/// Returns whether octets end as a message does.
#[inline(always)]
fn is_ended(octets: &[u8]) -> bool
    ensures { result ≡ true → drop (length octets.now - 4) octets.now ≡ codes "7777" }
{
    match octets.last_chunk::<4>() {
        Some(last) => *last == *b"7777",
        None => false,
    }
}
