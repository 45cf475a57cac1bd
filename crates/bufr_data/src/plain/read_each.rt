//! Reads the plain subsets of a message.

ghost use Rattle.std.specs.Prelude.{◌≡◌, ◌≤◌, List, Bool, false};
ghost use Rattle.bufr_bits.specs.Ends.{left};
ghost use Rattle.bufr_base.specs.Answers.{Gives};
ghost use Rattle.bufr_fields.specs.declared.field.Subset.{Subset};
ghost use Rattle.bufr_data.specs.Data.{subsets_in};
ghost use Rattle.bufr_data.specs.Plain.Numbered.{failure_of_subset};

use crate::plain::read::read_plain;
use bufr_base::{Failure, Items};
use bufr_bits::BitReader;
use bufr_expand::Template;
use bufr_fields::{DataFault, Subset};
use std::alloc::Global;

/// Reads `count` plain subsets; after an error the reader may have moved.
pub(crate) fn read_each(
    alloc: Global,
    template: &Template,
    count: u16,
    reader: &mut BitReader,
) -> Result<Items<Subset>, Failure<DataFault>>
    ensures exact { Gives {Y = List Subset × List Bool} (λ subsets. (subsets, left reader.new))
        result (subsets_in template.now false count (left reader.old)) }
    ensures octets { reader.new.octets ≡ reader.old.octets }
    ensures onward { reader.old.place ≤ reader.new.place }
{
    let mut subsets = Vec::new(alloc);
    let mut used = 0;
    for index in 0..count {
        match read_plain(alloc, template, reader, used) {
            Err(failure) => return Err(of_subset(index as u64 + 1, failure)),
            Ok((subset, items)) => {
                subsets.push(subset)?;
                used = items;
            }
        }
    }
    Ok(Items::from_vec(subsets))
}

pub(crate) fn of_subset(number: u64, failure: Failure<DataFault>) -> Failure<DataFault>
    ensures { result ≡ failure_of_subset number failure }
{
    match failure {
        Failure::Fault(DataFault::DataEnds(_, field)) => {
            Failure::Fault(DataFault::DataEnds(number, field))
        }
        other => other,
    }
}
