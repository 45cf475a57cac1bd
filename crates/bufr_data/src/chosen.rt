//! Hands out the fields of a subset that have a descriptor in a list.

ghost use Rattle.std.specs.Prelude.{◌≡◌, ◌==◌, length, Some, IfOk, IfSome, IfNone, OnErr};
ghost use Rattle.bufr_data.specs.Chosen as chosen;
ghost use Rattle.bufr_data.specs.Handed.{HandsOut};
ghost use Rattle.bufr_data.specs.Short.{HandsOutShort};
ghost use Rattle.bufr_data.specs.LentTexts.{HasOctets};
ghost use Rattle.bufr_fields.specs.declared.field.Field.{Field as AField};
ghost use Rattle.bufr_fields.specs.Values.{as_field};

use crate::compressed::fields::ColumnFields;
use crate::plain::copy::SUBSET_ROOM;
use crate::plain::placed_fields::PlacedFields;
use crate::short::ShortNumber;
use crate::text::LentText;
use bufr_base::OutOfMemory;
use bufr_expand::Asks;
use bufr_fields::{Field, NumberField};
use bufr_tables::Fxy;
use std::alloc::Global;
use std::marker::Model;

/// A source of chosen fields: plain at known places, or compressed.
#[derive(Drop)]
pub(crate) enum ChosenSource<'v> {
    Placed(PlacedFields<'v>),
    Compressed(ColumnFields<'v>),
}

/// A reader of the chosen fields left in a subset. It never visits other fields. Contracts see the
/// list of fields.
#[derive(Drop)]
pub struct ChosenFields<'v> {
    pub(crate) source: ChosenSource<'v>,
}

impl<'v> Model for ChosenFields<'v> {
    ghost use Rattle.std.specs.Prelude.{List};
    ghost use Rattle.bufr_fields.specs.declared.field.Field.{Field};
    ghost use Rattle.bufr_data.specs.LeftFields.{left_chosen};

    ghost Value = { List Field };

    ghost view = { λ f. left_chosen f.source };
}

impl<'v> ChosenFields<'v> {
    /// Returns true if no field is left.
    #[inline(always)]
    pub fn is_empty(&self) -> bool
        ensures { result ≡ (length self.now == 0) }
    {
        match &self.source {
            ChosenSource::Placed(fields) => fields.is_empty(),
            ChosenSource::Compressed(fields) => fields.is_empty(),
        }
    }

    /// Hands out the next field if it has a short number. It may return `None` at any other field,
    /// which `next_number` or `next` takes.
    #[inline(always)]
    pub fn next_short(&mut self) -> Option<ShortNumber>
        ensures found { IfSome result (λ short. HandsOutShort self.old short self.new) }
        ensures others { IfNone result (self.new ≡ self.old) }
    {
        match &mut self.source {
            ChosenSource::Placed(fields) => fields.next_short(),
            ChosenSource::Compressed(fields) => fields.next_short(),
        }
    }

    /// Hands out the next field if it is a number. `None` at the end, and at a text, which `next`
    /// takes.
    #[inline(always)]
    pub fn next_number(&mut self) -> Option<NumberField>
        ensures found { IfSome result (λ number.
            HandsOut self.old (Some (as_field number)) self.new) }
        ensures others { IfNone result (self.new ≡ self.old) }
    {
        match &mut self.source {
            ChosenSource::Placed(fields) => fields.next_number(),
            ChosenSource::Compressed(fields) => fields.next_number(),
        }
    }

    /// Hands out the next field, its octets in `room`, if it is a text of at most 64 octets. It may
    /// return `None` at any other field, and at each text of plain data; then `next` takes it.
    #[inline(always)]
    pub fn next_text<'r>(&mut self, room: &'r mut [u8; SUBSET_ROOM]) -> Option<LentText<'r>>
        ensures found { IfSome result (λ text.
            (f : AField) × HasOctets f text.fxy text.octets.now × HandsOut self.old (Some f) self.new) }
        ensures others { IfNone result (self.new ≡ self.old) }
    {
        match &mut self.source {
            ChosenSource::Placed(_) => None,
            ChosenSource::Compressed(fields) => fields.next_text(room),
        }
    }

    /// Hands out the next field, or `None` at the end.
    pub fn next(&mut self, alloc: Global) -> Result<Option<Field>, OutOfMemory>
        ensures found { IfOk result (λ found. HandsOut self.old found self.new) }
        ensures err { OnErr result (self.new ≡ self.old) }
    {
        match &mut self.source {
            ChosenSource::Placed(fields) => fields.next(alloc),
            ChosenSource::Compressed(fields) => fields.next(alloc),
        }
    }
}

/// A filter of the descriptors in a list.
#[derive(Drop)]
pub(crate) struct Listed<'l> {
    pub(crate) list: &'l [u16],
}

impl<'l> Asks for Listed<'l> {
    ghost is_asked = { λ l. chosen.is_listed l.list.now };

    fn asks(&self, fxy: Fxy) -> bool {
        is_listed(self.list, fxy)
    }
}

/// Returns whether the 16 bits of a descriptor are in a list.
pub(crate) fn is_listed(list: &[u16], fxy: Fxy) -> bool
    ensures { result ≡ chosen.is_listed list.now fxy }
{
    list.contains(&fxy.bits())
}
