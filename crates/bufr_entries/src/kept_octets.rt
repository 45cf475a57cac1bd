//! The octets of kept entries, lent one entry at a time.
ghost use Rattle.std.specs.Prelude.{◌≡◌, ◌+◌, ◌≤◌, ◌++◌, [], drop, length, map, reverse, IfNone, IfOk};
ghost use Rattle.std.specs.Option.{option_map, option_to_list};
ghost use Rattle.bufr_entries.specs.Pages.{flat};

use crate::page::{Page, PageEntry};
use bufr_base::OutOfMemory;
use std::marker::Model;

/// Counts the entries of pages; a count above `usize` is `OutOfMemory`.
pub(crate) fn count_of(pages: &Vec<Page>) -> Result<usize, OutOfMemory>
    ensures { IfOk result (λ count. count ≡ length (flat pages.now.items)) }
{
    let mut count: usize = 0;
    for page in pages {
        let Some(more) = count.checked_add(page.entries.len()) else {
            return Err(OutOfMemory);
        };
        count = more;
    }
    Ok(count)
}

/// A list of the octets of kept entries, in order of slots.
#[derive(Drop)]
pub struct KeptOctets {
    pub(crate) pages: Vec<Page>,
    pub(crate) count: usize,
}

impl Model for KeptOctets {
    ghost use Rattle.std.specs.Prelude.{◌≡◌, ℕ, List, length, map};
    ghost use Rattle.bufr_entries.specs.Pages.{flat};

    ghost Value = { List (List ℕ) };

    ghost view = { λ a. map (λ e. e.bytes) (flat a.pages.items) };

    ghost invariant = { λ a. a.count ≡ length (flat a.pages.items) };
}

impl KeptOctets {
    /// Counts the entries.
    pub fn len(&self) -> usize
        ensures { result ≡ length self.now }
    {
        self.count
    }

    /// Starts an iteration over the octets.
    pub fn lent(&self) -> LentOctets
        ensures { result ≡ self.now }
    {
        LentOctets {
            entries: &[],
            octets: &[],
            pages: self.pages.as_slice(),
        }
    }
}

/// An iterator over the octets of kept entries. Contracts see the octets left.
#[derive(Drop)]
pub struct LentOctets<'a> {
    // The entries left of one page, in reverse.
    entries: &'a [PageEntry],
    octets: &'a [u8],
    pages: &'a [Page],
}

impl<'a> Model for LentOctets<'a> {
    ghost use Rattle.std.specs.Prelude.{◌≤◌, ◌++◌, ℕ, List, length, map, reverse};
    ghost use Rattle.bufr_entries.specs.Pages.{flat, paged, octets_of};

    ghost Value = { List (List ℕ) };

    ghost view = { λ a. map (λ e. e.bytes)
        (paged (reverse a.entries.now) a.octets.now ++ flat a.pages.now) };

    ghost invariant = { λ a. octets_of (reverse a.entries.now) ≤ length a.octets.now };
}

impl<'a> LentOctets<'a> {
    /// Returns the octets of the next entry.
    pub fn next(&mut self) -> Option<&'a [u8]>
        ensures taken { self.old ≡ option_to_list (option_map (λ s. s.now) result) ++ self.new }
        ensures none { IfNone result (self.old ≡ []) }
    {
        loop {
            if let Some((entry, entries)) = self.entries.split_last() {
                let (own, behind) = self.octets.split_at(entry.len);
                self.entries = entries;
                self.octets = behind;
                return Some(own);
            }
            let (page, pages) = self.pages.split_first()?;
            self.entries = page.entries.as_slice();
            self.octets = &page.octets[page.from..];
            self.pages = pages;
        }
    }
}
