//! The end of the last row, kept for a message with the same sections 1 and 3.

ghost use Rattle.std.specs.Prelude.{◌≡◌, [], true, Ok, IfOk, OnOk};
ghost use Rattle.bufr_sections.specs.Sections.{Envelope, envelope_of};
ghost use Rattle.bufr_ls_engine.specs.RowSteps.{fields_after_length};

use crate::last_head::LastHead;
use crate::row::edition_of;
use crate::whole_row::push_fields;
use bufr_base::OutOfMemory;
use bufr_sections::{SectionsInPlace, find_sections};
use std::alloc::Global;
use std::marker::Model;

/// The index of the edition's octet.
const EDITION: usize = 7;

/// The end of section 1 of edition 4 without octets for local use.
const HEAD_END: usize = 30;

/// The fields of the last row after the length. Contracts see their text.
#[derive(Drop)]
pub(crate) struct LastFields {
    text: Vec<u8>,
    /// The octets of the message from the edition to the second.
    head: [u8; 23],
    count: u16,
    observed: bool,
    compressed: bool,
    listed: Vec<u8>,
    /// The head of the last message.
    whole: LastHead,
    /// Whether a message of edition 4 with these octets has this text.
    is_kept: bool,
}

impl Model for LastFields {
    ghost use Rattle.std.specs.Prelude.{◌≡◌, ℕ, List, true};
    ghost use Rattle.bufr_ls_engine.specs.RowSteps.{AreFieldsOf, SaysAgain};

    ghost Value = { List ℕ };

    ghost view = { λ l. l.text.items };

    ghost invariant = { λ l. (l.is_kept ≡ true
        → AreFieldsOf l.head l.count l.observed l.compressed l.listed.items l.text.items)
        × (version : ℕ) × SaysAgain l.whole version l.text.items };
}

impl LastFields {
    /// Starts without a message.
    pub(crate) fn new(alloc: Global) -> LastFields
        ensures { result ≡ [] }
    {
        LastFields {
            text: Vec::new(alloc),
            head: [0; 23],
            count: 0,
            observed: false,
            compressed: false,
            listed: Vec::new(alloc),
            whole: LastHead::none(),
            is_kept: false,
        }
    }

    #[inline(always)]
    pub(crate) fn as_slice(&self) -> &[u8]
        ensures { result.now ≡ self.now }
    {
        &self.text
    }

    /// Makes the text the fields of a frame. Returns false if the frame has a refusal.
    #[inline(always)]
    pub(crate) fn set(&mut self, octets: &[u8]) -> Result<bool, OutOfMemory>
        ensures { IfOk result (λ set. set ≡ true → (e : Envelope)
            × (envelope_of octets.now ≡ Ok e) × (self.new ≡ fields_after_length octets.now e)) }
    {
        if self.whole.is_of(octets) {
            return Ok(true);
        }
        self.set_next(octets)
    }

    /// Does what `set` does, for a frame with another head.
    #[inline(never)]
    fn set_next(&mut self, octets: &[u8]) -> Result<bool, OutOfMemory>
        ensures { IfOk result (λ set. set ≡ true → (e : Envelope)
            × (envelope_of octets.now ≡ Ok e) × (self.new ≡ fields_after_length octets.now e)) }
    {
        let Ok(said) = find_sections(octets) else {
            return Ok(false);
        };
        self.set_to(octets, &said)?;
        Ok(true)
    }

    /// Makes the text the fields of a message. Writes nothing if the last message had the same.
    #[inline(always)]
    fn set_to(&mut self, octets: &[u8], said: &SectionsInPlace<'_>) -> Result<(), OutOfMemory>
        requires { envelope_of octets.now ≡ Ok said.now }
        ensures { OnOk result (self.new ≡ fields_after_length octets.now said.now) }
    {
        if self.is_of(octets, said) {
            self.whole.keep(octets, said);
            return Ok(());
        }
        self.write(octets, said)
    }

    /// Returns whether the text is the fields of a message.
    #[inline(always)]
    fn is_of(&self, octets: &[u8], said: &SectionsInPlace<'_>) -> bool
        requires { envelope_of octets.now ≡ Ok said.now }
        ensures { result ≡ true → self.now ≡ fields_after_length octets.now said.now }
    {
        if !self.is_kept || octets.len() < HEAD_END {
            return false;
        }
        if self.observed != said.observed || self.compressed != said.compressed {
            return false;
        }
        if self.count != said.count {
            return false;
        }
        if !are_same(&self.head, &octets[EDITION..HEAD_END]) {
            return false;
        }
        are_same(&self.listed, said.listed)
    }

    /// Writes the fields of a message, and keeps them if it is of edition 4.
    // A call would write all of the sections into memory.
    #[inline(always)]
    fn write(&mut self, octets: &[u8], said: &SectionsInPlace<'_>) -> Result<(), OutOfMemory>
        requires { envelope_of octets.now ≡ Ok said.now }
        ensures { OnOk result (self.new ≡ fields_after_length octets.now said.now) }
    {
        self.is_kept = false;
        self.whole.forget();
        self.text.clear();
        push_fields(&mut self.text, octets, said)?;
        self.whole.keep(octets, said);
        if edition_of(octets) != 4 || octets.len() < HEAD_END {
            return Ok(());
        }
        self.listed.clear();
        self.listed.extend_from_slice(said.listed)?;
        self.head.copy_from_slice(&octets[EDITION..HEAD_END]);
        self.count = said.count;
        self.observed = said.observed;
        self.compressed = said.compressed;
        self.is_kept = true;
        Ok(())
    }
}

#[inline(always)]
fn are_same(octets: &[u8], others: &[u8]) -> bool
    ensures { result ≡ true → octets.now ≡ others.now }
{
    octets == others
}
