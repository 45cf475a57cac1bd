//! Reads all compressed subsets at once.

ghost use Rattle.std.specs.Prelude.{◌≡◌, true, Bool, List, OnErr};
ghost use Rattle.bufr_bits.specs.Ends.{left};
ghost use Rattle.bufr_base.specs.Answers.{Gives};
ghost use Rattle.bufr_fields.specs.declared.field.Subset.{Subset};
ghost use Rattle.bufr_data.specs.Data.{subsets_in};

use crate::compressed::index::{Columns, all_subsets};
use bufr_base::{Failure, Items};
use bufr_bits::BitReader;
use bufr_expand::Template;
use bufr_fields::{DataFault, Subset};
use std::alloc::Global;

/// Reads `count` compressed subsets and moves the reader past them. The faults are those of
/// `Columns::index`.
pub fn read_compressed(
    alloc: Global,
    template: &Template,
    reader: &mut BitReader,
    count: u16,
) -> Result<Items<Subset>, Failure<DataFault>>
    ensures exact { Gives {Y = List Subset × List Bool} (λ subsets. (subsets, left reader.new))
        result (subsets_in template.now true count (left reader.old)) }
    ensures octets { reader.new.octets ≡ reader.old.octets }
    ensures err { OnErr result (reader.new ≡ reader.old) }
{
    let place = reader.place();
    let columns = Columns::index(alloc, template, reader, count)?;
    match all_subsets(alloc, &columns) {
        Ok(subsets) => Ok(subsets),
        Err(_) => {
            reader.return_to(place);
            Err(Failure::OutOfMemory)
        }
    }
}
