//! Pages: sorted entries, with their octets in one vector.
ghost use Rattle.std.specs.Prelude.{◌≡◌, ◌+◌, ◌<◌, ◌≤◌, ◌++◌, ◌∷◌, [], true, false, drop, length, reverse, IfErr, OnOk, OnErr, vec_len};
ghost use Rattle.std.specs.Option.{option_map, option_to_list};
ghost use Rattle.bufr_entries.specs.Keeping.{first_of};
ghost use Rattle.bufr_entries.specs.Pages.{paged, octets_of, mark_of, seen, EndsBefore};

use crate::lent_entry::LentEntry;
use crate::packed_slot::PackedSlot;
use crate::pages_left::PagesLeft;
use crate::waiting::Waiting;
use bufr_base::OutOfMemory;
use std::alloc::Global;
use std::marker::Model;

/// The number of entries of a full page.
pub(crate) const MOST_ENTRIES: usize = 512;

/// The number of octets of a full page.
const MOST_OCTETS: usize = 32_768;

/// The octets that a new page reserves.
pub(crate) const ROOM_FOR_OCTETS: usize = 40_960;

/// An entry of a page: its mark, and the length of its octets.
#[derive(Drop)]
pub(crate) struct PageEntry {
    pub(crate) mark: PackedSlot,
    pub(crate) len: usize,
}

const _: () = prove!(size_of::<PageEntry>() == 32);

/// A page of entries in order. Contracts see the entries left.
#[derive(Drop)]
pub(crate) struct Page {
    // The entries, in reverse.
    pub(crate) entries: Vec<PageEntry>,
    pub(crate) octets: Vec<u8>,
    pub(crate) from: usize,
}

impl Model for Page {
    ghost use Rattle.std.specs.Prelude.{◌≡◌, List, ◌+◌, drop, length, reverse};
    ghost use Rattle.bufr_entries.specs.declared.entry.Entry.{Entry as AnEntry};
    ghost use Rattle.bufr_entries.specs.Pages.{paged, octets_of};

    ghost Value = { List AnEntry };

    ghost view = { λ a. paged (reverse a.entries.items) (drop a.from a.octets.items) };

    ghost invariant = { λ a. a.from + octets_of (reverse a.entries.items) ≡ length a.octets.items };
}

impl Page {
    pub(crate) fn new(alloc: Global) -> Page
        ensures { result ≡ [] }
    {
        Page {
            entries: Vec::new(alloc),
            octets: Vec::new(alloc),
            from: 0,
        }
    }

    pub(crate) fn first(&self) -> Option<LentEntry>
        ensures { option_map seen result ≡ first_of self.now }
    {
        let PageEntry { mark, len } = self.entries.last()?;
        let end = self.from + *len;
        Some(LentEntry {
            mark,
            octets: &self.octets[self.from..end],
        })
    }

    pub(crate) fn take_first(&mut self) -> Option<PackedSlot>
        ensures mark { result ≡ option_map mark_of (first_of self.old) }
        ensures rest { self.new ≡ drop 1 self.old }
    {
        let PageEntry { mark, len } = self.entries.pop()?;
        self.from += len;
        Some(mark)
    }

    /// Whether the page is untouched and ends before `next`, if there is one.
    pub(crate) fn is_whole_before(&self, next: Option<LentEntry>) -> bool
        ensures { result ≡ true → EndsBefore self.now (option_map seen next.entry) }
    {
        if self.from > 0 {
            return false;
        }
        let Some((PageEntry { mark, len }, _)) = self.entries.split_first() else {
            return false;
        };
        let from = self.octets.len() - *len;
        let last = LentEntry {
            mark,
            octets: &self.octets[from..],
        };
        match next {
            None => true,
            Some(next) => last.slot_cmp(next).is_lt(),
        }
    }
}

/// A page under construction. Contracts see its entries.
#[derive(Drop)]
pub(crate) struct PageRoom {
    pub(crate) entries: Vec<PageEntry>,
    pub(crate) octets: Vec<u8>,
}

impl Model for PageRoom {
    ghost use Rattle.std.specs.Prelude.{◌≡◌, List, length};
    ghost use Rattle.bufr_entries.specs.declared.entry.Entry.{Entry as AnEntry};
    ghost use Rattle.bufr_entries.specs.Pages.{paged, octets_of};

    ghost Value = { List AnEntry };

    ghost view = { λ a. paged a.entries.items a.octets.items };

    ghost invariant = { λ a. octets_of a.entries.items ≡ length a.octets.items };
}

impl PageRoom {
    pub(crate) fn is_full(&self) -> bool {
        self.entries.len() >= MOST_ENTRIES || self.octets.len() >= MOST_OCTETS
    }

    pub(crate) fn push_left(&mut self, left: &mut PagesLeft) -> Result<(), OutOfMemory>
        ensures ok { OnOk result (self.new ≡ self.old ++ option_to_list (first_of left.old)) }
        ensures rest { OnOk result (left.new ≡ drop 1 left.old) }
        ensures err { OnErr result ((self.new ≡ self.old) × (left.new ≡ left.old)) }
    {
        let Some(first) = left.first() else {
            return Ok(());
        };
        let len = first.octets.len();
        self.entries.reserve(1)?;
        self.octets.extend_from_slice(first.octets)?;
        if let Some(mark) = left.take_first() {
            self.entries.push_reserved(PageEntry { mark, len });
        }
        Ok(())
    }

    pub(crate) fn push_last(&mut self, waiting: &mut Waiting) -> Result<(), OutOfMemory>
        ensures ok { OnOk result
            (self.new ≡ self.old ++ option_to_list (first_of (reverse waiting.old))) }
        ensures rest { OnOk result (reverse waiting.new ≡ drop 1 (reverse waiting.old)) }
        ensures err { OnErr result
            ((self.new ≡ self.old) × (waiting.new ≡ waiting.old)) }
    {
        let Some(last) = waiting.last() else {
            return Ok(());
        };
        let len = last.octets.len();
        self.entries.reserve(1)?;
        self.octets.extend_from_slice(last.octets)?;
        if let Some(mark) = waiting.take_last() {
            self.entries.push_reserved(PageEntry { mark, len });
        }
        Ok(())
    }

    pub(crate) fn into_page(self) -> Page
        ensures { result ≡ self }
    {
        let PageRoom {
            mut entries,
            mut octets,
        } = self;
        entries.reverse();
        entries.shrink_to_fit();
        octets.shrink_to_fit();
        Page {
            entries,
            octets,
            from: 0,
        }
    }
}
