//! Reads and writes all subsets of a message.

ghost use Rattle.std.specs.Prelude.{◌≡◌, List, Bool, OnErr};
ghost use Rattle.bufr_bits.specs.Ends.{left};
ghost use Rattle.bufr_base.specs.Answers.{Gives};
ghost use Rattle.bufr_fields.specs.declared.field.Subset.{Subset};
ghost use Rattle.bufr_data.specs.Data.{subsets_in, written_bits};
ghost use Rattle.bufr_data.specs.Subsets.{Appends};

use crate::compressed::read::read_compressed;
use crate::compressed::write::write_compressed;
use crate::plain::read_each::read_each;
use crate::plain::write::write_plain;
use bufr_base::{Failure, Items};
use bufr_bits::{BitReader, BitSink};
use bufr_expand::Template;
use bufr_fields::{DataFault, MisfitFault, Subset};
use std::alloc::Global;

/// Reads `count` subsets and moves the reader past them. The fault is the first of V1 to V6;
/// `DataEnds` of compressed data names subset 0.
pub fn read_subsets(
    alloc: Global,
    template: &Template,
    compressed: bool,
    count: u16,
    reader: &mut BitReader,
) -> Result<Items<Subset>, Failure<DataFault>>
    ensures exact { Gives {Y = List Subset × List Bool} (λ subsets. (subsets, left reader.new))
        result (subsets_in template.now compressed count (left reader.old)) }
    ensures octets { reader.new.octets ≡ reader.old.octets }
    ensures err { OnErr result (reader.new ≡ reader.old) }
{
    if compressed {
        return read_compressed(alloc, template, reader, count);
    }
    let place = reader.place();
    let answer = read_each(alloc, template, count, reader);
    if answer.is_err() {
        reader.return_to(place);
    }
    answer
}

/// Appends the data of all subsets. The fault is the first of E1 to E3.
pub fn write_subsets(
    alloc: Global,
    template: &Template,
    compressed: bool,
    subsets: &[Subset],
    sink: &mut BitSink,
) -> Result<(), Failure<MisfitFault>>
    ensures { Appends sink.old sink.new result (written_bits template.now compressed subsets.now) }
{
    if compressed {
        write_compressed(alloc, template, subsets, sink)
    } else {
        write_plain(alloc, template, subsets, sink)
    }
}
