//! The lines of a listing before its first subset, kept from one message to the next.

ghost use Rattle.std.specs.Prelude.{◌≡◌, ◌++◌, [], List, true, OnOk};
ghost use Rattle.bufr_fields.specs.declared.field.Subset.{Subset};
ghost use Rattle.bufr_sections.specs.SectionsRead.{message_lent};
ghost use Rattle.bufr_listing.specs.Listings.{heading_lines, joined};
ghost use Rattle.bufr_listing.specs.Listings.{section1_numbers, time_numbers};
ghost use Rattle.bufr_listing.specs.KeptHeadings.{bare_heading_lines};

use crate::heading::{push_heading, push_numbers, section1_numbers, time_numbers};
use crate::last_lines::{LinesAfterTime, LinesBeforeTime, are_same};
use bufr_base::OutOfMemory;
use bufr_sections::LentSections;
use std::alloc::Global;
use std::marker::Model;

/// A copy of the lines before the first subset of the last message. Contracts see their text.
#[derive(Drop)]
pub struct LastHeading {
    text: Vec<u8>,
    before: LinesBeforeTime,
    time: [u16; 6],
    after: LinesAfterTime,
    /// Whether the text has these lines and this time.
    is_kept: bool,
}

impl Model for LastHeading {
    ghost use Rattle.std.specs.Prelude.{◌≡◌, ◌++◌, ℕ, List, true, codes};
    ghost use Rattle.bufr_listing.specs.Listings.{line, numbers_line};

    ghost Value = { List ℕ };

    ghost view = { λ h. h.text.items };

    ghost invariant = { λ h. h.is_kept ≡ true
        → h.text.items ≡ h.before ++ line (numbers_line (codes "time") h.time) ++ h.after };
}

impl LastHeading {
    /// Starts without a message.
    pub fn new(alloc: Global) -> LastHeading
        ensures { result ≡ [] }
    {
        LastHeading {
            text: Vec::new(alloc),
            before: LinesBeforeTime::new(alloc),
            time: [0; 6],
            after: LinesAfterTime::new(alloc),
            is_kept: false,
        }
    }

    /// Returns the text.
    pub fn as_slice(&self) -> &[u8]
        ensures { result.now ≡ self.now }
    {
        &self.text
    }

    /// Makes the lines those of a message with these sections, whatever its subsets. Writes only
    /// what differs from the last message. If memory runs out, holds a part of the lines.
    pub fn set(&mut self, alloc: Global, sections: &LentSections<'_>) -> Result<(), OutOfMemory>
        ensures { (subsets : List Subset) → OnOk result (self.new
            ≡ joined (heading_lines (message_lent sections.now subsets))) }
    {
        let section1 = section1_numbers(sections.head);
        let time = time_numbers(sections.head);
        if self.is_of(sections, &section1, &time) {
            return Ok(());
        }
        self.is_kept = false;
        self.text.clear();
        if !is_bare(sections) {
            return push_heading(alloc, &mut self.text, sections);
        }
        self.before.set(&section1)?;
        self.after.set(sections)?;
        self.text.extend_from_slice(self.before.as_slice())?;
        push_numbers(&mut self.text, b"time", &time)?;
        self.text.extend_from_slice(self.after.as_slice())?;
        self.time = time;
        self.is_kept = true;
        Ok(())
    }

    /// Whether the lines are those of a message with these sections.
    fn is_of(&self, sections: &LentSections<'_>, section1: &[u16; 8], time: &[u16; 6]) -> bool
        requires section1 { section1.now ≡ section1_numbers sections.now.head.now }
        requires time { time.now ≡ time_numbers sections.now.head.now }
        ensures { (subsets : List Subset) → result ≡ true
            → self.now ≡ joined (heading_lines (message_lent sections.now subsets)) }
    {
        if !self.is_kept || !is_bare(sections) {
            return false;
        }
        if !are_same(&self.time, time) || !self.before.are_of(section1) {
            return false;
        }
        self.after.are_of(sections)
    }
}

/// Whether there are no octets for local use.
fn is_bare(sections: &LentSections<'_>) -> bool
    ensures { (subsets : List Subset) → result ≡ true
        → heading_lines (message_lent sections.now subsets)
        ≡ bare_heading_lines (section1_numbers sections.now.head.now)
        (time_numbers sections.now.head.now) sections.now.observed sections.now.compressed
        sections.now.descriptors.now }
{
    if !sections.head.local.is_empty() {
        return false;
    }
    sections.section2.is_none()
}
