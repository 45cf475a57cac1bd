//! Lines of a heading, kept from one message to the next.

ghost use Rattle.std.specs.Prelude.{◌≡◌, [], true, OnOk};
ghost use Rattle.bufr_listing.specs.KeptHeadings.{lines_after_time, lines_before_time};

use crate::heading::{push_descriptors, push_flags, push_numbers};
use bufr_base::OutOfMemory;
use bufr_sections::LentSections;
use bufr_tables::Fxy;
use std::alloc::Global;
use std::marker::Model;

/// A copy of the lines before the time of the last message. Contracts see their text.
#[derive(Drop)]
pub(crate) struct LinesBeforeTime {
    text: Vec<u8>,
    section1: [u16; 8],
    /// Whether a message with these numbers has this text.
    is_kept: bool,
}

impl Model for LinesBeforeTime {
    ghost use Rattle.std.specs.Prelude.{◌≡◌, ℕ, List, true};
    ghost use Rattle.bufr_listing.specs.KeptHeadings.{lines_before_time};

    ghost Value = { List ℕ };

    ghost view = { λ l. l.text.items };

    ghost invariant = { λ l. l.is_kept ≡ true → l.text.items ≡ lines_before_time l.section1 };
}

impl LinesBeforeTime {
    /// Starts without a message.
    pub(crate) fn new(alloc: Global) -> LinesBeforeTime
        ensures { result ≡ [] }
    {
        LinesBeforeTime {
            text: Vec::new(alloc),
            section1: [0; 8],
            is_kept: false,
        }
    }

    pub(crate) fn as_slice(&self) -> &[u8]
        ensures { result.now ≡ self.now }
    {
        &self.text
    }

    /// Makes the lines those of a message with these numbers of section 1.
    pub(crate) fn set(&mut self, section1: &[u16; 8]) -> Result<(), OutOfMemory>
        ensures { OnOk result (self.new ≡ lines_before_time section1.now) }
    {
        if self.are_of(section1) {
            return Ok(());
        }
        self.is_kept = false;
        self.text.clear();
        self.text.extend_from_slice(b"message\n")?;
        push_numbers(&mut self.text, b"section1", section1)?;
        self.section1 = *section1;
        self.is_kept = true;
        Ok(())
    }

    /// Whether the lines are those of a message with these numbers of section 1.
    pub(crate) fn are_of(&self, section1: &[u16; 8]) -> bool
        ensures { result ≡ true → self.now ≡ lines_before_time section1.now }
    {
        if !self.is_kept {
            return false;
        }
        are_same(&self.section1, section1)
    }
}

/// A copy of the lines after the time of the last message, which had no octets for local use.
/// Contracts see their text.
#[derive(Drop)]
pub(crate) struct LinesAfterTime {
    text: Vec<u8>,
    observed: bool,
    compressed: bool,
    descriptors: Vec<Fxy>,
    /// Whether a message with these flags and descriptors has this text.
    is_kept: bool,
}

impl Model for LinesAfterTime {
    ghost use Rattle.std.specs.Prelude.{◌≡◌, ℕ, List, true};
    ghost use Rattle.bufr_listing.specs.KeptHeadings.{lines_after_time};

    ghost Value = { List ℕ };

    ghost view = { λ l. l.text.items };

    ghost invariant = { λ l. l.is_kept ≡ true
        → l.text.items ≡ lines_after_time l.observed l.compressed l.descriptors.items };
}

impl LinesAfterTime {
    /// Starts without a message.
    pub(crate) fn new(alloc: Global) -> LinesAfterTime
        ensures { result ≡ [] }
    {
        LinesAfterTime {
            text: Vec::new(alloc),
            observed: false,
            compressed: false,
            descriptors: Vec::new(alloc),
            is_kept: false,
        }
    }

    pub(crate) fn as_slice(&self) -> &[u8]
        ensures { result.now ≡ self.now }
    {
        &self.text
    }

    /// Makes the lines those of a message with these flags and descriptors.
    pub(crate) fn set(&mut self, sections: &LentSections<'_>) -> Result<(), OutOfMemory>
        ensures { OnOk result (self.new ≡ lines_after_time sections.now.observed
            sections.now.compressed sections.now.descriptors.now) }
    {
        if self.are_of(sections) {
            return Ok(());
        }
        self.is_kept = false;
        self.text.clear();
        push_flags(&mut self.text, sections.observed, sections.compressed)?;
        push_descriptors(&mut self.text, sections.descriptors)?;
        self.descriptors.clear();
        self.descriptors.extend_from_slice(sections.descriptors)?;
        self.observed = sections.observed;
        self.compressed = sections.compressed;
        self.is_kept = true;
        Ok(())
    }

    /// Whether the lines are those of a message with these flags and descriptors.
    pub(crate) fn are_of(&self, sections: &LentSections<'_>) -> bool
        ensures { result ≡ true → self.now ≡ lines_after_time sections.now.observed
            sections.now.compressed sections.now.descriptors.now }
    {
        if !self.is_kept {
            return false;
        }
        if self.observed != sections.observed || self.compressed != sections.compressed {
            return false;
        }
        are_same_descriptors(&self.descriptors, sections.descriptors)
    }
}

fn are_same_descriptors(descriptors: &[Fxy], others: &[Fxy]) -> bool
    ensures { result ≡ true → descriptors.now ≡ others.now }
{
    descriptors == others
}

pub(crate) fn are_same(numbers: &[u16], others: &[u16]) -> bool
    ensures { result ≡ true → numbers.now ≡ others.now }
{
    numbers == others
}
