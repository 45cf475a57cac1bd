//! The elements of keys, and the first values of their fields.
ghost use Rattle.std.specs.Prelude.{◌≡◌, IfErr, IfOk, OnErr, OnOk};
ghost use Rattle.bufr_report_keys.specs.Asked.{is_asked};
ghost use Rattle.bufr_report_keys.specs.FirstValues.{all_noted, other_noted};

use crate::elements::{
    BLOCK_NUMBER, DAY, HOUR, MINUTE, MOBILE_IDENTIFIER, MONTH, SECOND, STATION_NUMBER,
    WIGOS_LOCAL_IDENTIFIER, WIGOS_SERIES, YEAR,
};
use crate::first_values::FirstValues;
use crate::short_values::ShortValues;
use bufr_base::{Items, OutOfMemory};
use bufr_data::{Asks, ChosenFields, Field, Fields, Raw, ShortNumber};
use bufr_tables::Fxy;
use std::alloc::Global;

/// A filter of the elements of keys: of stations (001001, 001002, 001011 and 001125 to 001128) and
/// times (004001 to 004006).
struct KeyElements;

impl Asks for KeyElements {
    ghost is_asked = { λ _. is_asked };

    fn asks(&self, fxy: Fxy) -> bool {
        let bits = fxy.bits();
        let is_wigos = WIGOS_SERIES <= bits && bits <= WIGOS_LOCAL_IDENTIFIER;
        let is_station = bits == BLOCK_NUMBER
            || bits == STATION_NUMBER
            || bits == MOBILE_IDENTIFIER
            || is_wigos;
        let is_time = YEAR <= bits && bits <= SECOND;
        is_station || is_time
    }
}

/// Notes fields that come one at a time. It skips fields of other elements, and builds no numbers.
#[inline(always)]
pub(crate) fn note_handed(
    alloc: Global,
    mut fields: Fields<'_>,
    values: &mut FirstValues,
) -> Result<(), OutOfMemory>
    ensures { OnOk result (values.new ≡ all_noted fields.entry values.old) }
{
    loop {
        if let Some(number) = fields.next_asked_number(&KeyElements) {
            values.note_number(number);
        } else if let Some(field) = fields.next_asked(alloc, &KeyElements)? {
            values.note(field);
        } else {
            return Ok(());
        }
    }
}

/// Notes the fields of keys that are left.
#[inline(always)]
pub(crate) fn note_chosen(
    alloc: Global,
    mut fields: ChosenFields<'_>,
    values: &mut FirstValues,
) -> Result<(), OutOfMemory>
    ensures { OnOk result (values.new ≡ all_noted fields.entry values.old) }
{
    loop {
        if let Some(number) = fields.next_number() {
            values.note_number(number);
        } else if let Some(field) = fields.next(alloc)? {
            values.note(field);
        } else {
            return Ok(());
        }
    }
}

/// Notes the fields of keys that are left, up to the first without a short number.
#[inline(always)]
pub(crate) fn note_short(fields: &mut ChosenFields<'_>, values: &mut ShortValues)
    ensures { all_noted fields.new values.new ≡ all_noted fields.old values.old }
{
    while let Some(field) = fields.next_short() {
        values.note(field);
    }
}

/// Notes the next field if it has a short number of this element. Else returns, as an error, the
/// field that it took and did not note: another one, or one that is missing. None if it took no
/// field.
#[inline(always)]
pub(crate) fn note_next(
    fields: &mut ChosenFields<'_>,
    element: u16,
    values: &mut ShortValues,
) -> Result<(), Option<ShortNumber>>
    ensures ok { OnOk result (all_noted fields.new values.new ≡ all_noted fields.old values.old) }
    ensures err { IfErr result (λ other. all_noted fields.new (other_noted other values.new)
        ≡ all_noted fields.old values.old) }
    ensures kept { OnErr result (values.new ≡ values.old) }
{
    let Some(field) = fields.next_short() else {
        return Err(None);
    };
    if field.fxy.bits() != element {
        return Err(Some(field));
    }
    if field.number.is_none() {
        return Err(Some(field));
    }
    values.note(field);
    Ok(())
}

/// Notes the fields of a WMO station's report after its block number in their usual order: station,
/// date, hour and minute. No field is left after them. The error is like that of `note_next`.
// The order says at each place which value is noted, so none needs a place in memory.
#[inline(always)]
pub(crate) fn note_usual(
    fields: &mut ChosenFields<'_>,
    values: &mut ShortValues,
) -> Result<(), Option<ShortNumber>>
    ensures ok { OnOk result (values.new ≡ all_noted fields.old values.old) }
    ensures err { IfErr result (λ other. all_noted fields.new (other_noted other values.new)
        ≡ all_noted fields.old values.old) }
{
    note_next(fields, STATION_NUMBER, values)?;
    note_next(fields, YEAR, values)?;
    note_next(fields, MONTH, values)?;
    note_next(fields, DAY, values)?;
    note_next(fields, HOUR, values)?;
    note_next(fields, MINUTE, values)?;
    if fields.is_empty() { Ok(()) } else { Err(None) }
}

/// Notes a field with a short number, if there is one.
#[inline(always)]
pub(crate) fn note_other(other: Option<ShortNumber>, values: &mut ShortValues)
    ensures { values.new ≡ other_noted other values.old }
{
    if let Some(field) = other {
        values.note(field);
    }
}

pub(crate) fn note_listed(
    alloc: Global,
    fields: &[Field],
    values: &mut FirstValues,
) -> Result<(), OutOfMemory>
    ensures { OnOk result (values.new ≡ all_noted fields.now values.old) }
{
    for field in fields {
        if KeyElements.asks(field.fxy) {
            values.note(copied(alloc, field)?);
        }
    }
    Ok(())
}

fn copied(alloc: Global, field: &Field) -> Result<Field, OutOfMemory>
    ensures { IfOk result (λ copy. copy ≡ field.now) }
{
    let raw = match &field.raw {
        Raw::Number(number) => Raw::Number(*number),
        Raw::Text(octets) => {
            Raw::Text(Items::from_vec(Vec::from_slice(alloc, octets.as_slice())?))
        }
    };
    Ok(Field {
        fxy: field.fxy,
        spec: field.spec,
        raw,
    })
}
