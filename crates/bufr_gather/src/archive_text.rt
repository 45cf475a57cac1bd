//! Archives as texts and marks.
ghost use Rattle.std.specs.Prelude.{◌≡◌, ◌++◌, [], List, length, map, IfOk, IfErr, OnOk, OnErr, Ok};
ghost use Rattle.std.specs.List.{flat_map};
ghost use Rattle.std.specs.Option.{option_map, option_to_list};
ghost use Rattle.bufr_base.specs.Answers.{Gives};
ghost use Rattle.bufr_message.specs.declared.report.Report.{Report as AReport};
ghost use Rattle.bufr_sections.specs.Sections.{AreOctets};
ghost use Rattle.bufr_gather.specs.Archives.{merged, IsKept};
ghost use Rattle.bufr_gather.specs.ArchiveTexts.{marks_or};
ghost use Rattle.bufr_gather.specs.MergedOctets.{HandOutMerged, handed_out};
ghost use Rattle.bufr_gather.specs.Reading.{read};
ghost use Rattle.bufr_gather.specs.ReportEntries.{AreUnder, text_of, entry_in};
ghost use Rattle.bufr_gather.specs.ReportTexts.{IsArchiveOf, RefusedAt, archive_of};
ghost use Rattle.bufr_gather.specs.Texts.{text, mark_of, entries_read};

use crate::laws::reports_are_entries;
use crate::merged_marks::merged_marks;
use crate::merged_octets::{EntrySource, MergedOctets};
use crate::merging_texts::{Unmerged, take_first};
use crate::reading::{NotAnArchive, ReadEntry, right_entry};
use bufr_base::{Failure, OutOfMemory};
use bufr_entries::PackedSlot;
use bufr_message::MessageReader;
use bufr_message::laws::written_messages_are_spelt;
use bufr_report_keys::key_elements;
use bufr_tables::Tables;
use std::alloc::Global;
use std::marker::Model;
use std::mem;

/// An archive as its text, with a mark for each entry: 24 octets, or more for keys that are not
/// packed. It reads each message once and needs no shelf.
#[derive(Drop)]
pub struct ArchiveText<'t> {
    tables: &'t Tables,
    octets: Vec<u8>,
    marks: Vec<PackedSlot>,
}

impl<'t> Model for ArchiveText<'t> {
    ghost use Rattle.bufr_gather.specs.Archives.{ArchiveView};
    ghost use Rattle.bufr_gather.specs.ArchiveTexts.{entries_in, IsTextOf};

    ghost Value = { ArchiveView };

    ghost view = { λ t. record {
      tables = t.tables.now;
      entries = entries_in t.tables.now t.octets.items;
    } };

    // The octets are the text of the entries, and the marks are theirs.
    ghost invariant = { λ t. IsTextOf t.tables.now t.octets.items t.marks.items
        (entries_in t.tables.now t.octets.items) };
}

impl<'t> ArchiveText<'t> {
    /// Makes an empty archive.
    pub fn new(alloc: Global, tables: &'t Tables) -> Self
        ensures { result ≡ record { tables = tables.now; entries = [] } }
    {
        ArchiveText {
            tables,
            octets: Vec::new(alloc),
            marks: Vec::new(alloc),
        }
    }

    /// Reads an archive's text as `Archive::read` does, and gives free memory back.
    pub fn read(
        alloc: Global,
        tables: &'t Tables,
        octets: Vec<u8>,
    ) -> Result<Self, Failure<NotAnArchive>>
        ensures accepted { IfOk result (IsArchiveOf tables.now octets.items) }
        ensures only { (rs : List AReport) → AreUnder tables.now rs
            → octets.items ≡ text_of tables.now rs
            → Gives (λ a. a) result (Ok (archive_of tables.now rs)) }
        ensures refused { IfErr result (RefusedAt tables.now octets.items) }
    {
        reports_are_entries();
        written_messages_are_spelt();
        let mut octets = octets;
        octets.shrink_to_fit();
        let mut message_reader = MessageReader::for_elements(alloc, tables, key_elements());
        let marks = read_marks(alloc, &mut message_reader, &octets)?;
        Ok(ArchiveText {
            tables,
            octets,
            marks,
        })
    }

    /// Merges another archive under the same tables into this one.
    pub fn merge(&mut self, alloc: Global, other: ArchiveText<'t>) -> Result<(), OutOfMemory>
        requires { self.old.tables ≡ other.tables }
        ensures ok { OnOk result (self.new ≡ merged self.old other.entry) }
        ensures err { OnErr result (self.new ≡ self.old) }
    {
        reports_are_entries();
        if self.marks.is_empty() {
            *self = other;
            return Ok(());
        }
        if other.marks.is_empty() {
            return Ok(());
        }
        let origins = self.origins_with(alloc, &other)?;
        let octets = joined_octets(alloc, &origins, &self.octets, &other.octets)?;
        let room = Vec::with_capacity(alloc, origins.len())?;
        let ArchiveText {
            octets: other_octets,
            marks: other_marks,
            ..
        } = other;
        drop(other_octets);
        self.octets = octets;
        let own_marks = mem::replace(&mut self.marks, Vec::new(alloc));
        self.marks = merged_marks(&origins, own_marks, other_marks, room);
        Ok(())
    }

    /// Finds which text each entry of the merge is from.
    fn origins_with(
        &self,
        alloc: Global,
        other: &ArchiveText<'t>,
    ) -> Result<Vec<EntrySource>, OutOfMemory>
        requires { self.now.tables ≡ other.now.tables }
        ensures { IfOk result (λ origins.
            HandOutMerged self.now.entries other.now.entries origins.items) }
    {
        reports_are_entries();
        let most = self.marks.len() + other.marks.len();
        let mut left = Unmerged::of_text(&self.marks, &self.octets);
        let mut right = Unmerged::of_text(&other.marks, &other.octets);
        let mut origins = Vec::with_capacity(alloc, most)?;
        for _ in 0..most {
            let Some(origin) = take_first(&mut left, &mut right) else {
                return Ok(origins);
            };
            origins.push(origin)?;
        }
        Ok(origins)
    }

    /// Merges two archives under the same tables into an iterator over the octets of the entries:
    /// it builds no text and holds one octet for each entry.
    pub fn merged_with<'a>(
        &'a self,
        alloc: Global,
        other: &'a ArchiveText<'t>,
    ) -> Result<MergedOctets<'a>, OutOfMemory>
        requires { self.now.tables ≡ other.now.tables }
        ensures { IfOk result (λ left.
            left ≡ map (λ e. e.bytes) (merged self.now other.now).entries) }
    {
        let origins = self.origins_with(alloc, other)?;
        Ok(MergedOctets::new(origins, &self.octets, &other.octets))
    }

    /// Counts the reports.
    pub fn len(&self) -> usize
        ensures count { result ≡ length self.now.entries }
        ensures kept { IsKept self.now }
    {
        self.marks.len()
    }

    /// Returns the archive's text.
    pub fn into_octets(self) -> Vec<u8>
        ensures { result.items ≡ text self.entry.entries }
    {
        self.octets
    }
}

fn joined_octets(
    alloc: Global,
    origins: &[EntrySource],
    left: &[u8],
    right: &[u8],
) -> Result<Vec<u8>, OutOfMemory>
    ensures { IfOk result (λ octets.
        octets.items ≡ flat_map (λ o. o) (handed_out origins.now left.now right.now)) }
{
    let origins = Vec::from_slice(alloc, origins)?;
    MergedOctets::new(origins, left, right).into_text(alloc, left.len() + right.len())
}

fn push_mark(marks: &mut Vec<PackedSlot>, last: Option<ReadEntry>) -> Result<(), OutOfMemory>
    ensures { OnOk result (marks.new.items
        ≡ marks.old.items ++ option_to_list (option_map mark_of (option_map read last.entry))) }
{
    if let Some(entry) = last {
        marks.push(entry.mark)?;
    }
    Ok(())
}

/// Fills an empty vector with the marks of a text's entries.
fn push_marks(
    alloc: Global,
    message_reader: &mut MessageReader<'_>,
    octets: &[u8],
    marks: &mut Vec<PackedSlot>,
) -> Result<(), Failure<NotAnArchive>>
    requires { marks.old.items ≡ [] }
    ensures same { message_reader.new ≡ message_reader.old }
    ensures octets { AreOctets octets.now }
    ensures marks { Gives (λ _. marks.new.items) result
        (marks_or (entries_read (entry_in message_reader.old) octets.now)) }
{
    reports_are_entries();
    let mut before: Option<ReadEntry> = None;
    let mut place: usize = 0;
    let mut rest = octets;
    while rest.len() > 0 {
        let Some(entry) = right_entry(alloc, message_reader, &before, rest)? else {
            let place = place as u64;
            return Err(Failure::Fault(NotAnArchive { place }));
        };
        place += entry.bytes.len();
        rest = &rest[entry.bytes.len()..];
        push_mark(marks, before)?;
        before = Some(entry);
    }
    push_mark(marks, before)?;
    Ok(())
}

fn read_marks(
    alloc: Global,
    message_reader: &mut MessageReader<'_>,
    octets: &[u8],
) -> Result<Vec<PackedSlot>, Failure<NotAnArchive>>
    ensures same { message_reader.new ≡ message_reader.old }
    ensures octets { AreOctets octets.now }
    ensures marks { Gives (λ marks. marks.items) result
        (marks_or (entries_read (entry_in message_reader.old) octets.now)) }
{
    let mut marks = Vec::new(alloc);
    push_marks(alloc, message_reader, octets, &mut marks)?;
    marks.shrink_to_fit();
    Ok(marks)
}
