//! Entries looked at in place, without a copy.
ghost use Rattle.std.specs.Prelude.{◌≡◌, IfOk};
ghost use Rattle.bufr_entries.specs.KeyOrders.{octets_cmp};
ghost use Rattle.bufr_entries.specs.Entries.{slot_cmp, rank_cmp};
ghost use Rattle.bufr_entries.specs.Pages.{seen};

use crate::entry::Entry;
use crate::packed_slot::PackedSlot;
use bufr_base::{Items, OutOfMemory};
use std::alloc::Global;
use std::cmp::Ordering;

/// An entry lent from its place.
#[derive(Clone, Copy, Drop)]
pub struct LentEntry<'a> {
    pub(crate) mark: &'a PackedSlot,
    pub(crate) octets: &'a [u8],
}

impl LentEntry<'_> {
    pub(crate) fn slot_cmp(self, other: LentEntry) -> Ordering
        ensures { result ≡ slot_cmp (seen self.entry) (seen other.entry) }
    {
        self.mark.slot_order(self.octets, other.mark, other.octets)
    }

    pub(crate) fn rank_cmp(self, other: LentEntry) -> Ordering
        ensures { result ≡ rank_cmp (seen self.entry) (seen other.entry) }
    {
        match self.mark.update().cmp(&other.mark.update()) {
            Ordering::Equal => self.octets.cmp(other.octets),
            order => order,
        }
    }

    /// Copies the entry.
    pub fn copied(self, alloc: Global) -> Result<Entry, OutOfMemory>
        ensures { IfOk result (λ entry. entry ≡ seen self.entry) }
    {
        Ok(Entry {
            key: self.mark.key()?,
            update: self.mark.update(),
            bytes: Items::from_vec(Vec::from_slice(alloc, self.octets)?),
        })
    }
}
