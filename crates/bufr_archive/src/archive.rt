ghost use Rattle.std.specs.Prelude.{◌≡◌, ◌<◌, [], false, true, List, length, take, IfOk, IfErr, OnOk, OnErr};
ghost use Rattle.std.specs.Option.{option_map};
ghost use Rattle.bufr_bits.specs.Devices.{Writes};
ghost use Rattle.bufr_entries.specs.Entries.{entry_at};
ghost use Rattle.bufr_gather.specs.Archives.{merged, IsKept};
ghost use Rattle.bufr_gather.specs.Texts.{text};

use bufr_base::OutOfMemory;
use bufr_bits::device::{Sink, Unwritten, write_all};
use bufr_entries::Key;
use bufr_gather::ArchiveBuilder;
use bufr_message::MessageReader;
use bufr_shelves::{JoinFault, Shelf, SortedShelf};
use bufr_tables::Tables;
use std::alloc::Global;
use std::marker::Model;
use thiserror::Error;

/// An archive of reports under some tables. Of each key it keeps the report of greatest update
/// sequence number, then of greatest octets; each report without a key once.
#[derive(Drop)]
pub struct Archive<'t, S: Shelf> {
    pub(crate) alloc: Global,
    pub(crate) message_reader: MessageReader<'t>,
    pub(crate) shelf: S,
}

impl<'t, S: Shelf> Model for Archive<'t, S> {
    ghost use Rattle.std.specs.Prelude.{◌≡◌};
    ghost use Rattle.bufr_entries.specs.Entries.{kept};
    ghost use Rattle.bufr_gather.specs.Archives.{ArchiveView};

    ghost Value = { ArchiveView };

    ghost view = { λ a. record { tables = a.message_reader; entries = S.entries a.shelf } };

    ghost invariant = { λ a. kept (S.entries a.shelf) ≡ S.entries a.shelf };
}

/// A fault of a sink that took only the first `written` octets of the text.
#[derive(Clone, Copy, Debug, Drop, Error, PartialEq, Eq)]
#[error("write failed after {written} octets")]
pub struct WriteFault {
    /// The octets written.
    pub written: u128,
}

impl<'t, S: Shelf> Archive<'t, S> {
    /// Makes an empty archive.
    pub fn new(alloc: Global, tables: &'t Tables) -> Self
        ensures { result ≡ record { tables = tables.now; entries = [] } }
    {
        Archive {
            alloc,
            message_reader: MessageReader::new(alloc, tables),
            shelf: S::new(alloc),
        }
    }

    /// Takes in all reports of another archive under the same tables.
    pub fn merge(&mut self, other: &Archive<'t, S>) -> Result<(), JoinFault>
        requires { self.old.tables ≡ other.now.tables }
        ensures ok { OnOk result (self.new ≡ merged self.old other.now) }
        ensures err { OnErr result (self.new ≡ self.old) }
    {
        self.shelf.join(&other.shelf)
    }

    /// Copies the archive.
    pub fn copy(&self) -> Result<Archive<'t, S>, OutOfMemory>
        ensures { IfOk result (λ copied. copied ≡ self.now) }
    {
        Ok(Archive {
            alloc: self.alloc,
            message_reader: MessageReader::new(self.alloc, self.message_reader.tables()),
            shelf: self.shelf.copy()?,
        })
    }

    /// Counts the reports.
    pub fn len(&self) -> usize
        ensures count { result ≡ length self.now.entries }
        ensures kept { IsKept self.now }
    {
        self.shelf.len()
    }

    /// Returns the canonical message of the report with this key.
    pub fn get(&self, key: &Key) -> Option<&[u8]>
        ensures { option_map (λ b. b.now) result
            ≡ option_map (λ e. e.bytes) (entry_at self.now.entries key.now) }
    {
        let held = self.shelf.get(key)?;
        Some(held.bytes.as_slice())
    }

    /// Writes the archive's text: its canonical messages in order of slots.
    pub fn write<W: Sink>(&self, sink: &mut W) -> Result<(), WriteFault>
        requires { (W.writing sink.old).failed ≡ false }
        ensures ok { OnOk result
            (Writes (W.writing sink.old) (W.writing sink.new) (text self.now.entries)) }
        ensures works { OnOk result ((W.writing sink.new).failed ≡ false) }
        ensures written { IfErr result (λ f. f.written < length (text self.now.entries)) }
        ensures front { IfErr result (λ f.
            Writes (W.writing sink.old) (W.writing sink.new)
            (take f.written (text self.now.entries))) }
        ensures failed { OnErr result ((W.writing sink.new).failed ≡ true) }
    {
        let count = self.shelf.len();
        let mut written: u128 = 0;
        let mut next = self.shelf.first();
        for _ in 0..count {
            let Some(held) = next else {
                return Ok(());
            };
            let bytes = held.bytes.as_slice();
            if let Err(Unwritten { written: more }) = write_all(sink, bytes) {
                let written = written + more as u128;
                return Err(WriteFault { written });
            }
            written += bytes.len() as u128;
            next = self.shelf.after(held);
        }
        Ok(())
    }
}

pub(crate) fn archive_is_kept<S: Shelf>(archive: &Archive<S>)
    ensures { IsKept archive.now }
{
    archive.len();
}

impl<'t> Archive<'t, SortedShelf> {
    /// Makes the archive of all that a builder gathered.
    pub fn of_gathered(alloc: Global, builder: ArchiveBuilder<'t>) -> Result<Self, OutOfMemory>
        ensures { IfOk result (λ archive. archive ≡ builder.entry) }
    {
        let (message_reader, entries) = builder.into_parts();
        Ok(Archive {
            alloc,
            message_reader,
            shelf: SortedShelf::of_gathered(alloc, entries)?,
        })
    }
    /// Turns the archive into its text.
    pub fn into_octets(self) -> Result<Vec<u8>, OutOfMemory>
        ensures { IfOk result (λ octets. octets.items ≡ text self.entry.entries) }
    {
        self.shelf.into_octets()
    }
}
