//! Reads CSV records.

ghost use Rattle.std.specs.Prelude.{◌≡◌, ◌∷◌, [], IfOk, MatchBool};
ghost use Rattle.csv.specs.Records.{fields_of};
ghost use Rattle.bufr_tables.specs.TableFiles.{records_of};

use bufr_base::OutOfMemory;
use csv::{ByteRecord, Reader, ReaderBuilder};
use std::alloc::Global;
use std::marker::Model;

/// A reader of the records left in a text.
#[derive(Drop)]
pub(crate) struct Records<'a> {
    reader: Reader<&'a [u8]>,
}

impl<'a> Model for Records<'a> {
    ghost use Rattle.std.specs.Prelude.{List, ℕ};
    ghost use Rattle.bufr_tables.specs.CsvRecords.{left_of, IsPlain};

    ghost Value = { List (List (List ℕ)) };

    ghost view = { λ a. left_of a.reader };

    ghost invariant = { λ a. IsPlain a.reader };
}

impl<'a> Records<'a> {
    pub(crate) fn open(alloc: Global, text: &'a [u8]) -> Self
        ensures { result ≡ records_of text.now }
    {
        let reader = ReaderBuilder::new()
            .has_headers(false)
            .flexible(true)
            .from_reader(alloc, text);
        Records { reader }
    }

    /// Reads the next record, and returns false after the last.
    pub(crate) fn next(&mut self, row: &mut ByteRecord) -> Result<bool, OutOfMemory>
        ensures { IfOk result (λ found. MatchBool found
            (self.old ≡ fields_of row.new ∷ self.new) (self.old ≡ [])) }
    {
        let Ok(found) = self.reader.read_byte_record(row) else {
            // A slice has no errors, so only memory can run out.
            return Err(OutOfMemory);
        };
        Ok(found)
    }
}
