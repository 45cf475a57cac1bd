//! Writes subsets column by column.

ghost use Rattle.std.specs.Prelude.{◌≡◌, ◌++◌, ◌∷◌, length, map, true, Ok, OnOk};
ghost use Rattle.std.specs.List.{list_all};
ghost use Rattle.bufr_base.specs.Answers.{Gives};
ghost use Rattle.bufr_data.specs.Compressed.Best.{best_bits, columns_of};
ghost use Rattle.bufr_data.specs.Data.{each_fits, written_bits};
ghost use Rattle.bufr_data.specs.Compressed.Places.{rows_from, columns_here};
ghost use Rattle.bufr_data.specs.Subsets.{Appends, Extends, has_own_form};

use crate::compressed::best::put_best;
use crate::compressed::places::check_places;
use bufr_base::{Failure, OutOfMemory};
use bufr_bits::BitSink;
use bufr_expand::Template;
use bufr_fields::{Field, MOST_VALUES, MisfitFault, Subset, fit_fields};
use std::alloc::Global;

/// Appends the best column of each field. The fault is the first: subset by subset E1 `DoesNotFit`
/// or E3 `TooLarge`; then E2 `NotCompressible` with the first field that can't be one column; then
/// E3 above 67,108,864 values.
pub fn write_compressed(
    alloc: Global,
    template: &Template,
    subsets: &[Subset],
    sink: &mut BitSink,
) -> Result<(), Failure<MisfitFault>>
    ensures { Appends sink.old sink.new result (written_bits template.now true subsets.now) }
{
    fit_each(alloc, template, subsets)?;
    if subsets.is_empty() {
        return Ok(());
    }
    let fields = subsets[0].fields.as_slice();
    let others = &subsets[1..];
    if let Err(fault) = check_places(fields, others) {
        return Err(Failure::Fault(fault));
    }
    if fields.len() as u128 * subsets.len() as u128 > u128::from(MOST_VALUES) {
        return Err(Failure::Fault(MisfitFault::TooLarge));
    }
    let len = sink.len_bits();
    match put_columns(alloc, fields, others, sink) {
        Ok(()) => Ok(()),
        Err(_) => {
            sink.cut(len);
            Err(Failure::OutOfMemory)
        }
    }
}

fn fit_each(
    alloc: Global,
    template: &Template,
    subsets: &[Subset],
) -> Result<(), Failure<MisfitFault>>
    ensures { Gives (λ u. u) result (each_fits template.now 1 subsets.now) }
{
    for (index, subset) in subsets.iter().enumerate() {
        fit_fields(
            alloc,
            template,
            subset.fields.as_slice(),
            index as u64 + 1,
            0,
        )?;
    }
    Ok(())
}

/// Appends the columns of the fields, with the values of the other subsets.
fn put_columns(
    alloc: Global,
    fields: &[Field],
    others: &[Subset],
    sink: &mut BitSink,
) -> Result<(), OutOfMemory>
    requires can { columns_of 1 fields.now (rows_from 0 others.now)
        ≡ Ok (columns_here fields.now (rows_from 0 others.now)) }
    requires forms { list_all has_own_form fields.now ≡ true }
    requires other_forms { list_all (λ s. list_all has_own_form s.fields) others.now ≡ true }
    ensures put { OnOk result (sink.new ≡ sink.old ++ best_bits
        (columns_here fields.now (rows_from 0 others.now))) }
    ensures kept { Extends sink.old sink.new }
{
    for (place, field) in fields.iter().enumerate() {
        put_best(alloc, field, others, place, sink)?;
    }
    Ok(())
}
