ghost use Rattle.std.specs.Prelude.{◌≡◌, ◌-◌, ◌<◌, ◌≤◌, IfOk, IfSome, Ok, Some, get_or, length, slice_get};
ghost use Rattle.std.specs.Option.{option_map};
ghost use Rattle.bufr_base.specs.Answers.{Gives};
ghost use Rattle.bufr_gather.specs.ReportEntries.{key_of, entry_with, entry_of, spelt_entry, spelt_entries, spelt_at, entry_spelt, entry_in, report_entries};
ghost use Rattle.bufr_gather.specs.ReportEntries.{is_canonical};
ghost use Rattle.bufr_message.specs.Messages.{message_of, Spells};
ghost use Rattle.bufr_tables.specs.Entries.{Entries};
ghost use Rattle.bufr_message.specs.Reports.{reports_of};
ghost use Rattle.bufr_message.specs.OwnBits.{spelt_alone};
ghost use Rattle.bufr_gather.specs.Reading.{read};

use crate::reading::ReadEntry;
use bufr_base::{Failure, Items, OutOfMemory};
use bufr_entries::{Entry, EntryOctets, Key};
use bufr_message::laws::{
    canonical_messages_are_own, reports_have_canonical_messages, written_messages_are_spelt,
};
use bufr_message::{MessageReader, Refused, Report, ReportHead, View, canonical};
use bufr_report_keys::{key_in, key_of_fields, slot_in};
use bufr_tables::Tables;
use std::alloc::Global;

/// Makes the key of a report: originating centre, data category, international and local
/// sub-category, station, moment and originating sub-centre. Returns none if its subset has no
/// station or no moment.
pub fn key_of(alloc: Global, report: &Report) -> Result<Option<Key>, OutOfMemory>
    ensures { IfOk result (λ found. found ≡ key_of report.now) }
{
    key_in(alloc, &report.head, report.subset.fields.as_slice())
}

fn entry_with(alloc: Global, report: &Report, octets: Vec<u8>) -> Result<Entry, OutOfMemory>
    ensures { IfOk result (λ entry. entry ≡ entry_with report.now octets.items) }
{
    Ok(Entry {
        key: key_of(alloc, report)?,
        update: report.head.update,
        bytes: Items::from_vec(octets),
    })
}

/// Makes the entry of a report. Returns none if it has no canonical message; reports of decoded
/// messages have one.
pub fn entry_of(
    alloc: Global,
    tables: &Tables,
    report: &Report,
) -> Result<Option<Entry>, OutOfMemory>
    ensures { IfOk result (λ found. found ≡ entry_of tables.now report.now) }
{
    let octets = match canonical(alloc, tables, report) {
        Ok(octets) => octets,
        Err(Failure::Fault(_)) => return Ok(None),
        Err(Failure::OutOfMemory) => return Err(OutOfMemory),
    };
    Ok(Some(entry_with(alloc, report, octets)?))
}

/// Whether the octets are the canonical message of the view's one report. Makes this message only
/// if the view can't decide.
fn is_own(alloc: Global, view: &View<'_>, octets: &[u8]) -> Result<bool, OutOfMemory>
    requires { length view.now.message.subsets ≡ 1 }
    ensures { IfOk result (λ same. IfSome (slice_get (reports_of view.now.message) 0)
        (λ r. same ≡ is_canonical (spelt_alone r) octets.now)) }
{
    if let Some(own) = view.own() {
        return Ok(own == octets);
    }
    match view.canonical(alloc, 0)? {
        Some(own) => Ok(own.as_slice() == octets),
        None => Ok(false),
    }
}

/// Makes the entry of a view's one report, if its own fields spell these octets. Builds no subset.
fn own_entry<'a>(
    alloc: Global,
    view: &View<'_>,
    octets: &'a [u8],
) -> Result<Option<ReadEntry<'a>>, OutOfMemory>
    requires { length view.now.message.subsets ≡ 1 }
    ensures { (tables : Entries) → message_of tables octets.now ≡ Ok view.now
        → Spells tables view.now.message octets.now view.now.slack_octets
        → IfOk result (λ found. option_map read found ≡ entry_in tables octets.now) }
{
    reports_have_canonical_messages();
    canonical_messages_are_own();
    written_messages_are_spelt();
    if !is_own(alloc, view, octets)? {
        return Ok(None);
    }
    let head = ReportHead::of_head(view.head());
    let mark = slot_in(alloc, &head, view, 0)?;
    Ok(Some(ReadEntry {
        mark,
        bytes: octets,
    }))
}

/// Reads octets as an entry, if they are the canonical message of their one report.
pub(crate) fn entry_in<'a>(
    alloc: Global,
    message_reader: &mut MessageReader<'_>,
    octets: &'a [u8],
) -> Result<Option<ReadEntry<'a>>, OutOfMemory>
    ensures same { message_reader.new ≡ message_reader.old }
    ensures is { IfOk result (λ found.
        option_map read found ≡ entry_in message_reader.old octets.now) }
{
    let view = match message_reader.read(alloc, octets) {
        Ok(view) => view,
        Err(Failure::Fault(_)) => return Ok(None),
        Err(Failure::OutOfMemory) => return Err(OutOfMemory),
    };
    if view.count() != 1 {
        return Ok(None);
    }
    own_entry(alloc, &view, octets)
}

/// A list of the reports of a message that was read.
#[derive(Drop)]
pub struct MessageReports<'a> {
    /// The message.
    pub view: View<'a>,
}

impl<'a> MessageReports<'a> {
    /// Reads the reports of the message that octets spell.
    pub fn of_octets(
        alloc: Global,
        message_reader: &mut MessageReader<'_>,
        octets: &'a [u8],
    ) -> Result<Self, Failure<Refused>>
        ensures same { message_reader.new ≡ message_reader.old }
        ensures is { Gives (λ s. s.view) result (message_of message_reader.old octets.now) }
        ensures entries { IfOk result (λ s. spelt_entries (reports_of s.view.message)
            ≡ report_entries message_reader.old (reports_of s.view.message)) }
    {
        reports_have_canonical_messages();
        canonical_messages_are_own();
        written_messages_are_spelt();
        let view = message_reader.read(alloc, octets)?;
        Ok(MessageReports { view })
    }
}

impl<'a> MessageReports<'a> {
    fn key_at(&self, alloc: Global, index: usize) -> Result<Option<Key>, OutOfMemory>
        requires { index < length self.now.view.message.subsets }
        ensures { IfOk result (λ key. IfSome
            (slice_get (reports_of self.now.view.message) index) (λ r. key ≡ key_of r)) }
    {
        let _count = self.view.count();
        let head = ReportHead::of_head(self.view.head());
        let fields = self.view.fields(alloc, index)?;
        key_of_fields(alloc, &head, fields)
    }

    /// Returns the number of reports.
    pub fn count(&self) -> usize
        ensures { result ≡ length self.now.view.message.subsets }
    {
        self.view.count()
    }

    /// Makes the entry of the report at an index, if it has a canonical message. Builds no subset.
    pub fn entry_at(&self, alloc: Global, index: usize) -> Result<Option<Entry>, OutOfMemory>
        requires { index < length self.now.view.message.subsets }
        ensures { IfOk result (λ found.
            found ≡ get_or (spelt_entries (reports_of self.now.view.message)) index None) }
    {
        let _count = self.view.count();
        let Some(octets) = self.view.canonical(alloc, index)? else {
            return Ok(None);
        };
        Ok(Some(Entry {
            key: self.key_at(alloc, index)?,
            update: self.view.head().update,
            bytes: Items::from_vec(octets),
        }))
    }
}

/// A canonical message of the report at an index, from 0, before it is written.
#[derive(Clone, Copy, Drop)]
pub(crate) struct ReportOctets<'r, 'a> {
    pub(crate) view: &'r View<'a>,
    pub(crate) index: usize,
}

impl EntryOctets for ReportOctets<'_, '_> {
    ghost octets = { λ s. spelt_at (reports_of s.view.now.message) s.index };

    fn append_to(&self, alloc: Global, out: &mut Vec<u8>) -> Result<bool, OutOfMemory> {
        if self.index >= self.view.count() {
            return Ok(false);
        }
        self.view.put_canonical(alloc, self.index, out)
    }
}
