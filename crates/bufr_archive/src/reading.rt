//! Archives read from their texts.
ghost use Rattle.std.specs.Prelude.{◌≡◌, ◌++◌, ◌∷◌, [], List, IfOk, IfErr, OnOk, Ok};
ghost use Rattle.bufr_base.specs.Answers.{Gives};
ghost use Rattle.bufr_message.specs.declared.report.Report.{Report as AReport};
ghost use Rattle.bufr_entries.specs.Entries.{kept};
ghost use Rattle.bufr_gather.specs.Reading.{read, archive_read};
ghost use Rattle.bufr_gather.specs.ReportEntries.{AreUnder, text_of};
ghost use Rattle.bufr_gather.specs.ReportTexts.{IsArchiveOf, RefusedAt, archive_of};

use crate::archive::Archive;
use bufr_base::{Failure, Items, OutOfMemory};
use bufr_gather::laws::reports_are_entries;
use bufr_gather::{NotAnArchive, ReadEntry, right_entry};
use bufr_message::MessageReader;
use bufr_message::laws::written_messages_are_spelt;
use bufr_shelves::Shelf;
use bufr_tables::Tables;
use std::alloc::Global;

fn keep<S: Shelf>(alloc: Global, shelf: &mut S, entry: &ReadEntry) -> Result<(), OutOfMemory>
    ensures { OnOk result
        (S.entries shelf.new ≡ kept (S.entries shelf.old ++ read entry.now ∷ [])) }
{
    let bytes = Items::from_vec(Vec::from_slice(alloc, entry.bytes)?);
    shelf.put(entry.mark.key()?, entry.mark.update(), bytes)?;
    Ok(())
}

impl<'t, S: Shelf> Archive<'t, S> {
    /// Reads an archive's text from the left. Fails at the first entry that spells no canonical
    /// message of one report, or does not come after the entry before.
    pub fn read(
        alloc: Global,
        tables: &'t Tables,
        octets: &[u8],
    ) -> Result<Self, Failure<NotAnArchive>>
        // An accepted text is that of some reports under the tables.
        ensures accepted { IfOk result (IsArchiveOf tables.now octets.now) }
        // Every text of reports under the tables is accepted, unless memory runs out.
        ensures only { (rs : List AReport) → AreUnder tables.now rs
            → octets.now ≡ text_of tables.now rs
            → Gives (λ a. a) result (Ok (archive_of tables.now rs)) }
        // The place in a fault is the length of the longest text at the start.
        ensures refused { IfErr result (RefusedAt tables.now octets.now) }
    {
        reports_are_entries();
        written_messages_are_spelt();
        Archive::read_entries(alloc, tables, octets)
    }

    fn read_entries(
        alloc: Global,
        tables: &'t Tables,
        octets: &[u8],
    ) -> Result<Self, Failure<NotAnArchive>>
        ensures { Gives (λ a. a) result (archive_read tables.now octets.now) }
    {
        reports_are_entries();
        let mut message_reader = MessageReader::new(alloc, tables);
        let mut shelf = S::new(alloc);
        let mut before: Option<ReadEntry> = None;
        let mut place: usize = 0;
        let mut rest = octets;
        while rest.len() > 0 {
            let Some(entry) = right_entry(alloc, &mut message_reader, &before, rest)? else {
                let place = place as u64;
                return Err(Failure::Fault(NotAnArchive { place }));
            };
            keep(alloc, &mut shelf, &entry)?;
            place += entry.bytes.len();
            rest = &rest[entry.bytes.len()..];
            before = Some(entry);
        }
        Ok(Archive {
            alloc,
            message_reader,
            shelf,
        })
    }
}
