ghost use Rattle.std.specs.Prelude.{◌≡◌, ◌<◌, ◌∷◌, [], if◌then◌else◌, get_or, length, List, Option, IfOk, OnOk, OnErr};
ghost use Rattle.bufr_entries.specs.declared.entry.Entry.{Entry as AnEntry};
ghost use Rattle.bufr_gather.specs.Archives.{IsKept, taken_in, entries_of};
ghost use Rattle.bufr_archive.specs.Adding.{AddsReports, AddsMessage, count_changes};
ghost use Rattle.bufr_base.specs.Answers.{Gives};
ghost use Rattle.bufr_message.specs.Messages.{message_of};
ghost use Rattle.bufr_message.specs.Reports.{reports_of};
ghost use Rattle.bufr_gather.specs.ReportEntries.{report_entries, spelt_entries};

use crate::archive::{Archive, archive_is_kept};
use bufr_base::{Failure, OutOfMemory};
use bufr_entries::Entry;
use bufr_gather::{AddFault, MessageReports, RanOut};
use bufr_message::Refused;
use bufr_shelves::Shelf;
use std::alloc::Global;

/// A count of the reports of a message.
#[derive(Clone, Copy, Debug, Drop, PartialEq, Eq)]
pub struct Added {
    /// The reports of the message.
    pub reports: u128,
    /// The reports that changed the archive.
    pub changed: u128,
}

/// A list of reports.
pub trait ReportList {
    /// The entry of each report, or none if it has no canonical message.
    ghost entries: { Self → List (Option AnEntry) };

    /// Counts the reports.
    fn count(&self) -> usize
        ensures { result ≡ length (entries self.now) };

    /// Makes the entry of a report, counted from 0.
    fn entry(&self, alloc: Global, index: usize) -> Result<Option<Entry>, OutOfMemory>
        requires { index < length (entries self.now) }
        ensures { IfOk result (λ found. found ≡ get_or (entries self.now) index None) };
}

// A report's entry is what its own fields spell: this asks no tables and builds no subset.
impl ReportList for MessageReports<'_> {
    ghost entries = { λ s. spelt_entries (reports_of s.view.message) };

    fn count(&self) -> usize {
        self.count()
    }

    fn entry(&self, alloc: Global, index: usize) -> Result<Option<Entry>, OutOfMemory> {
        self.entry_at(alloc, index)
    }
}

impl<'t, S: Shelf> Archive<'t, S> {
    /// Adds the reports of a message, one by one.
    pub fn add_message(&mut self, octets: &[u8]) -> Result<Added, AddFault>
        ensures { AddsMessage self.old self.new octets.now result }
    {
        let reports = match self.reports_in(octets) {
            Ok(reports) => reports,
            Err(Failure::Fault(why)) => return Err(AddFault::Refused(why)),
            Err(Failure::OutOfMemory) => {
                archive_is_kept(self);
                return Err(AddFault::OutOfMemory { done: 0 });
            }
        };
        match self.add_all(&reports) {
            Ok(added) => Ok(added),
            Err(RanOut { done }) => Err(AddFault::OutOfMemory { done }),
        }
    }

    fn reports_in<'m>(&mut self, octets: &'m [u8]) -> Result<MessageReports<'m>, Failure<Refused>>
        ensures same { self.new ≡ self.old }
        ensures is { Gives (λ s. s.view) result (message_of self.old.tables octets.now) }
        ensures entries { IfOk result (λ s. spelt_entries (reports_of s.view.message)
            ≡ report_entries self.old.tables (reports_of s.view.message)) }
    {
        MessageReports::of_octets(self.alloc, &mut self.message_reader, octets)
    }

    /// Adds reports one by one.
    pub fn add_all<L: ReportList>(&mut self, reports: &L) -> Result<Added, RanOut>
        ensures { AddsReports self.old self.new (L.entries reports.now) result }
    {
        let alloc = self.alloc;
        let count = reports.count();
        let mut changed: u128 = 0;
        for index in 0..count {
            let Ok(changes) = self.add_one(alloc, reports, index) else {
                let done = index as u128;
                return Err(RanOut { done });
            };
            changed += changes as u128;
        }
        let reports = count as u128;
        Ok(Added { reports, changed })
    }

    /// Adds a report, and returns whether the archive changed.
    fn add_one<L: ReportList>(
        &mut self,
        alloc: Global,
        reports: &L,
        index: usize,
    ) -> Result<bool, OutOfMemory>
        requires { index < length (L.entries reports.now) }
        ensures ok { OnOk result
            (self.new ≡ taken_in self.old (get_or (L.entries reports.now) index None ∷ [])) }
        ensures changed { IfOk result (λ b. (if b then 1 else 0) ≡ count_changes self.old.entries
            (entries_of (get_or (L.entries reports.now) index None ∷ []))) }
        ensures err { OnErr result (self.new ≡ self.old) }
    {
        let shelf = &mut self.shelf;
        match reports.entry(alloc, index)? {
            Some(Entry { key, update, bytes }) => shelf.put(key, update, bytes),
            None => Ok(false),
        }
    }
}
