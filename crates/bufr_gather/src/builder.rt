ghost use Rattle.std.specs.Prelude.{◌≡◌, ◌<◌, ◌∷◌, [], get_or, length, map, IfOk, OnOk, OnErr};
ghost use Rattle.bufr_entries.specs.Entries.{kept};
ghost use Rattle.bufr_gather.specs.Archives.{taken_in};
ghost use Rattle.bufr_gather.specs.Gathering.{AddsToBuilder};
ghost use Rattle.bufr_base.specs.Answers.{Gives};
ghost use Rattle.bufr_message.specs.Messages.{message_of};
ghost use Rattle.bufr_message.specs.Reports.{reports_of};
ghost use Rattle.bufr_gather.specs.ReportEntries.{report_entries, spelt_entries};

use crate::add_fault::AddFault;
use crate::report_entry::ReportOctets;
use bufr_base::{Failure, OutOfMemory};
use bufr_entries::{KeptOctets, ShelfBuilder};
use bufr_message::laws::{
    canonical_messages_are_own, reports_have_canonical_messages, written_messages_are_spelt,
};
use bufr_message::{MessageReader, Refused, ReportHead, View};
use bufr_report_keys::{key_elements, slot_in};
use bufr_tables::Tables;
use std::alloc::Global;
use std::marker::Model;

/// A builder that gathers messages for an archive, without look-ups, and sorts their reports in
/// batches.
#[derive(Drop)]
pub struct ArchiveBuilder<'t> {
    alloc: Global,
    message_reader: MessageReader<'t>,
    entries: ShelfBuilder,
}

impl<'t> Model for ArchiveBuilder<'t> {
    ghost use Rattle.bufr_entries.specs.Entries.{kept};
    ghost use Rattle.bufr_gather.specs.Archives.{ArchiveView};

    ghost Value = { ArchiveView };

    ghost view = { λ g. record { tables = g.message_reader; entries = kept g.entries } };
}

impl<'t> ArchiveBuilder<'t> {
    /// Makes an empty builder.
    pub fn new(alloc: Global, tables: &'t Tables) -> Self
        ensures { result ≡ record { tables = tables.now; entries = [] } }
    {
        ArchiveBuilder {
            alloc,
            message_reader: MessageReader::for_elements(alloc, tables, key_elements()),
            entries: ShelfBuilder::new(alloc),
        }
    }

    /// Adds the reports of a message, one by one; if memory runs out, the first `done`.
    pub fn add_message(&mut self, octets: &[u8]) -> Result<(), AddFault>
        ensures { AddsToBuilder self.old self.new octets.now result }
    {
        reports_have_canonical_messages();
        canonical_messages_are_own();
        written_messages_are_spelt();
        // Lends the view from the result, since moving it out would copy it.
        let read = self.message_reader.read(self.alloc, octets);
        let view = match &read {
            Ok(view) => view,
            Err(Failure::Fault(why)) => return Err(AddFault::Refused(*why)),
            Err(Failure::OutOfMemory) => return Err(AddFault::OutOfMemory { done: 0 }),
        };
        for index in 0..view.count() {
            let Ok(()) = self.add_one(view, index) else {
                let done = index as u128;
                return Err(AddFault::OutOfMemory { done });
            };
        }
        Ok(())
    }

    /// Adds one report, and writes its octets in place.
    fn add_one(&mut self, view: &View<'_>, index: usize) -> Result<(), OutOfMemory>
        requires { index < length view.now.message.subsets }
        ensures ok { OnOk result (self.new ≡ taken_in self.old
            (get_or (spelt_entries (reports_of view.now.message)) index None ∷ [])) }
        ensures err { OnErr result (self.new ≡ self.old) }
    {
        let head = ReportHead::of_head(view.head());
        let slot = slot_in(self.alloc, &head, view, index)?;
        self.entries.put_marked(slot, &ReportOctets { view, index })
    }

    /// Returns the reader of messages, and the entries of all reports.
    pub fn into_parts(self) -> (MessageReader<'t>, ShelfBuilder)
        ensures tables { result.0 ≡ self.entry.tables }
        ensures entries { kept result.1 ≡ self.entry.entries }
    {
        let ArchiveBuilder {
            message_reader,
            entries,
            ..
        } = self;
        (message_reader, entries)
    }

    /// Returns the canonical messages of the archive, in order of slots; joined they are its text.
    pub fn into_octets(self) -> Result<KeptOctets, OutOfMemory>
        ensures { IfOk result (λ left. left ≡ map (λ e. e.bytes) self.entry.entries) }
    {
        let ArchiveBuilder { entries, .. } = self;
        entries.into_octets()
    }
}
