//! The key of a report, by its head and fields.
ghost use Rattle.std.specs.Prelude.{◌≡◌, ◌<◌, [], IfOk, List, Some, length, slice_get};
ghost use Rattle.bufr_fields.specs.declared.field.Field.{Field as AField};
ghost use Rattle.bufr_fields.specs.declared.field.Subset.{Subset};
ghost use Rattle.bufr_data.specs.Chosen.{chosen};
ghost use Rattle.bufr_report_keys.specs.Asked.{elements};
ghost use Rattle.bufr_report_keys.specs.Keys.{key};
ghost use Rattle.bufr_report_keys.specs.FirstValues.{all_noted, first_values, key_of, other_noted, wmo_key};

use crate::asked::{
    note_chosen, note_handed, note_listed, note_next, note_other, note_short, note_usual,
};
use crate::elements::{BLOCK_NUMBER, key_elements};
use crate::first_values::FirstValues;
use crate::moments::moment_of;
use crate::short_values::ShortValues;
use crate::stations::station_of;
use bufr_base::OutOfMemory;
use bufr_data::{ChosenFields, Field, Fields, ShortNumber};
use bufr_entries::{Key, KeyHead, Moment, PackedSlot};
use bufr_message::{ReportHead, View};
use std::alloc::Global;

/// Makes the key of a report with this head and these fields. Returns none if the fields have no
/// station or no moment.
pub fn key_in(
    alloc: Global,
    head: &ReportHead,
    fields: &[Field],
) -> Result<Option<Key>, OutOfMemory>
    ensures { IfOk result (λ found. found ≡ key head.now fields.now) }
{
    let mut values = FirstValues::none();
    note_listed(alloc, fields, &mut values)?;
    Ok(key_of(head, &mut values))
}

/// Makes the key as `key_in` does, of fields that come one at a time.
pub fn key_of_fields(
    alloc: Global,
    head: &ReportHead,
    fields: Fields<'_>,
) -> Result<Option<Key>, OutOfMemory>
    ensures { IfOk result (λ found. found ≡ key head.now fields.entry) }
{
    let mut values = FirstValues::none();
    note_handed(alloc, fields, &mut values)?;
    Ok(key_of(head, &mut values))
}

/// Makes the slot of a report with this head and these fields: its key, if it has one, and its
/// update number. It makes no key of most WMO stations, but packs its parts.
pub fn slot_of_fields(
    alloc: Global,
    head: &ReportHead,
    fields: Fields<'_>,
) -> Result<PackedSlot, OutOfMemory>
    ensures { IfOk result (λ slot.
        slot ≡ record { key = key head.now fields.entry; update = head.now.update }) }
{
    let mut values = FirstValues::none();
    note_handed(alloc, fields, &mut values)?;
    slot_of(alloc, head, &mut values)
}

/// Makes the slot of a message's report at an index, from 0, as `slot_of_fields` does. It reads the
/// fields of keys at their known places, if the reader of the message found these.
pub fn slot_in(
    alloc: Global,
    head: &ReportHead,
    view: &View<'_>,
    index: usize,
) -> Result<PackedSlot, OutOfMemory>
    requires { index < length view.now.message.subsets }
    ensures { IfOk result (λ slot. (s : Subset)
        → slice_get view.now.message.subsets index ≡ Some s
        → slot ≡ record { key = key head.now s.fields; update = head.now.update }) }
{
    if let Some(fields) = view.chosen(key_elements(), index) {
        return slot_of_chosen(alloc, head, fields);
    }
    slot_of_walk(alloc, head, view, index)
}

/// Makes the slot by the fields that a walk over the subset hands out.
// Not inline, since the walk takes much room, and most reports need none of it.
#[inline(never)]
fn slot_of_walk(
    alloc: Global,
    head: &ReportHead,
    view: &View<'_>,
    index: usize,
) -> Result<PackedSlot, OutOfMemory>
    requires { index < length view.now.message.subsets }
    ensures { IfOk result (λ slot. (s : Subset)
        → slice_get view.now.message.subsets index ≡ Some s
        → slot ≡ record { key = key head.now s.fields; update = head.now.update }) }
{
    let fields = view.fields(alloc, index)?;
    slot_of_fields(alloc, head, fields)
}

/// Makes the slot by the fields of keys.
#[inline(always)]
fn slot_of_chosen(
    alloc: Global,
    head: &ReportHead,
    mut fields: ChosenFields<'_>,
) -> Result<PackedSlot, OutOfMemory>
    ensures { IfOk result (λ slot. (all : List AField) → fields.entry ≡ chosen elements all
        → slot ≡ record { key = key head.now all; update = head.now.update }) }
{
    let mut values = ShortValues::none();
    if let Err(other) = note_next(&mut fields, BLOCK_NUMBER, &mut values) {
        return slot_without_block(alloc, head, other, fields);
    }
    match note_usual(&mut fields, &mut values) {
        Ok(()) => slot_of_short(alloc, head, &values),
        Err(other) => slot_of_unusual(alloc, head, &values.copied(), other, fields),
    }
}

/// Makes the slot as `slot_of_unusual` does, with no value noted.
#[inline(never)]
fn slot_without_block(
    alloc: Global,
    head: &ReportHead,
    other: Option<ShortNumber>,
    fields: ChosenFields<'_>,
) -> Result<PackedSlot, OutOfMemory>
    ensures { IfOk result (λ slot. slot ≡ record {
      key = key_of head.now (all_noted fields.entry (other_noted other (first_values [])));
      update = head.now.update;
    }) }
{
    let mut values = ShortValues::none();
    note_other(other, &mut values);
    slot_of_left(alloc, head, &mut values, fields)
}

/// Makes the slot by first values, one more field with a short number, if there is one, and the
/// fields left after it.
// Not inline, so that the values of usual fields need no place in memory.
#[inline(never)]
fn slot_of_unusual(
    alloc: Global,
    head: &ReportHead,
    values: &ShortValues,
    other: Option<ShortNumber>,
    fields: ChosenFields<'_>,
) -> Result<PackedSlot, OutOfMemory>
    ensures { IfOk result (λ slot. slot ≡ record {
      key = key_of head.now (all_noted fields.entry (other_noted other values.now));
      update = head.now.update;
    }) }
{
    let mut values = values.copied();
    note_other(other, &mut values);
    slot_of_left(alloc, head, &mut values, fields)
}

/// Makes the slot by first values and the fields left.
#[inline(always)]
fn slot_of_left(
    alloc: Global,
    head: &ReportHead,
    values: &mut ShortValues,
    mut fields: ChosenFields<'_>,
) -> Result<PackedSlot, OutOfMemory>
    ensures { IfOk result (λ slot. slot ≡ record {
      key = key_of head.now (all_noted fields.entry values.old);
      update = head.now.update;
    }) }
{
    note_short(&mut fields, values);
    if fields.is_empty() {
        return slot_of_short(alloc, head, values);
    }
    slot_of_rest(alloc, head, &values.copied(), fields)
}

/// Makes the slot as `slot_of_left` does, of fields of all kinds.
// Not inline, since these values take much room, and most reports need none of it.
#[inline(never)]
fn slot_of_rest(
    alloc: Global,
    head: &ReportHead,
    values: &ShortValues,
    fields: ChosenFields<'_>,
) -> Result<PackedSlot, OutOfMemory>
    ensures { IfOk result (λ slot. slot ≡ record {
      key = key_of head.now (all_noted fields.entry values.now);
      update = head.now.update;
    }) }
{
    let mut values = values.widened();
    note_chosen(alloc, fields, &mut values)?;
    slot_of(alloc, head, &mut values)
}

/// Makes the slot by first values in little room.
#[inline(always)]
fn slot_of_short(
    alloc: Global,
    head: &ReportHead,
    values: &ShortValues,
) -> Result<PackedSlot, OutOfMemory>
    ensures { IfOk result (λ slot.
        slot ≡ record { key = key_of head.now values.now; update = head.now.update }) }
{
    let (Some(block), Some(number)) = (values.block.usable(), values.station.usable()) else {
        return slot_of_others(alloc, head, &values.copied());
    };
    slot_of_wmo(alloc, head, block, number, values.moment())
}

/// Makes the slot of a report without a WMO station.
#[inline(never)]
fn slot_of_others(
    alloc: Global,
    head: &ReportHead,
    values: &ShortValues,
) -> Result<PackedSlot, OutOfMemory>
    ensures { IfOk result (λ slot.
        slot ≡ record { key = key_of head.now values.now; update = head.now.update }) }
{
    slot_of(alloc, head, &mut values.widened())
}

fn slot_of(
    alloc: Global,
    head: &ReportHead,
    values: &mut FirstValues,
) -> Result<PackedSlot, OutOfMemory>
    ensures { IfOk result (λ slot.
        slot ≡ record { key = key_of head.now values.old; update = head.now.update }) }
{
    let (Some(block), Some(number)) = (values.block.two_octets(), values.station.two_octets())
    else {
        return PackedSlot::new(alloc, key_of(head, values), head.update);
    };
    slot_of_wmo(alloc, head, block, number, moment_of(values))
}

/// Makes the slot of a WMO station; it has no key without a moment.
#[inline(always)]
fn slot_of_wmo(
    alloc: Global,
    head: &ReportHead,
    block: u16,
    number: u16,
    moment: Option<Moment>,
) -> Result<PackedSlot, OutOfMemory>
    ensures { IfOk result (λ slot. slot ≡ record {
      key = wmo_key head.now block number moment;
      update = head.now.update;
    }) }
{
    let Some(moment) = moment else {
        return PackedSlot::new(alloc, None, head.update);
    };
    let front = KeyHead {
        centre: head.centre,
        category: head.category,
        international: head.international,
        local_category: head.local_category,
    };
    Ok(PackedSlot::of_wmo(front, block, number, moment, head.sub_centre, head.update))
}

fn key_of(head: &ReportHead, values: &mut FirstValues) -> Option<Key>
    ensures { result ≡ key_of head.now values.old }
{
    let station = station_of(values)?;
    let moment = moment_of(values)?;
    Some(Key {
        centre: head.centre,
        category: head.category,
        international: head.international,
        local_category: head.local_category,
        station,
        moment,
        sub_centre: head.sub_centre,
    })
}
