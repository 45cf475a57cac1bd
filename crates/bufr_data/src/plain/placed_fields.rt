//! Hands out the chosen fields of a plain subset at their places.

ghost use Rattle.std.specs.Prelude.{◌≡◌, ◌==◌, length, Some, IfOk, IfSome, IfNone, OnErr};
ghost use Rattle.bufr_data.specs.Handed.{HandsOut};
ghost use Rattle.bufr_data.specs.Short.{HandsOutShort};
ghost use Rattle.bufr_fields.specs.Values.{as_field};

use crate::fields::by_parts;
use crate::plain::laid_reader::LaidReader;
use crate::plain::places::ChosenPlace;
use crate::short::ShortNumber;
use bufr_base::OutOfMemory;
use bufr_fields::{Field, NumberField};
use std::alloc::Global;
use std::marker::Model;

/// A reader of the chosen fields left in a plain subset. Contracts see the list of fields.
#[derive(Drop)]
pub(crate) struct PlacedFields<'v> {
    pub(crate) places: &'v [ChosenPlace],
    pub(crate) reader: LaidReader<'v>,
}

impl<'v> Model for PlacedFields<'v> {
    ghost use Rattle.std.specs.Prelude.{List};
    ghost use Rattle.bufr_bits.specs.Ends.{left};
    ghost use Rattle.bufr_fields.specs.declared.field.Field.{Field};
    ghost use Rattle.bufr_data.specs.Chosen.{fields_placed, HoldPlaced};

    ghost Value = { List Field };

    ghost view = { λ s. fields_placed s.places.now (left s.reader) };

    ghost invariant = { λ s. HoldPlaced s.places.now (left s.reader) };
}

impl<'v> PlacedFields<'v> {
    /// Returns true if no field is left.
    #[inline(always)]
    pub(crate) fn is_empty(&self) -> bool
        ensures { result ≡ (length self.now == 0) }
    {
        self.places.is_empty()
    }

    /// Hands out the next field if its numbers are short.
    #[inline(always)]
    pub(crate) fn next_short(&mut self) -> Option<ShortNumber>
        ensures found { IfSome result (λ short. HandsOutShort self.old short self.new) }
        ensures others { IfNone result (self.new ≡ self.old) }
    {
        let Some((place, others)) = self.places.split_first() else {
            return None;
        };
        let place = *place;
        let greatest = place.greatest?;
        let number = self
            .reader
            .short_after(place.gap, place.field.spec, greatest);
        self.places = others;
        Some(ShortNumber::of_raw(place.field.fxy, number, greatest))
    }

    /// Hands out the next field if it is a number. `None` at the end, and at a text, which `next`
    /// takes.
    #[inline(always)]
    pub(crate) fn next_number(&mut self) -> Option<NumberField>
        ensures found { IfSome result (λ number.
            HandsOut self.old (Some (as_field number)) self.new) }
        ensures others { IfNone result (self.new ≡ self.old) }
    {
        let Some((place, others)) = self.places.split_first() else {
            return None;
        };
        let place = *place;
        let number = self.reader.number_after(place.gap, place.field.spec)?;
        self.places = others;
        Some(NumberField {
            fxy: place.field.fxy,
            spec: by_parts(place.field.spec),
            number,
        })
    }

    /// Hands out the next field, or `None` at the end.
    pub(crate) fn next(&mut self, alloc: Global) -> Result<Option<Field>, OutOfMemory>
        ensures found { IfOk result (λ found. HandsOut self.old found self.new) }
        ensures err { OnErr result (self.new ≡ self.old) }
    {
        let Some((place, others)) = self.places.split_first() else {
            return Ok(None);
        };
        let place = *place;
        match self.reader.raw_after(alloc, place.gap, place.field.spec) {
            Ok(raw) => {
                self.places = others;
                Ok(Some(Field {
                    fxy: place.field.fxy,
                    spec: by_parts(place.field.spec),
                    raw,
                }))
            }
            Err(_) => Err(OutOfMemory),
        }
    }
}
