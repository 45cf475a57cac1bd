//! Hands out the fields of a compressed subset.

ghost use Rattle.std.specs.Prelude.{◌≡◌, ◌==◌, length, ◌++◌, true, Some, IfOk, IfSome, IfNone, OnOk, OnErr};
ghost use Rattle.std.specs.Bool.{OnTrue, OnFalse};
ghost use Rattle.bufr_data.specs.Handed.{HandsOut, HandsOutAsked, FirstIsAsked, PassesFirst};
ghost use Rattle.bufr_data.specs.Handed.{PassesUnasked};
ghost use Rattle.bufr_data.specs.Short.{HandsOutShort};
ghost use Rattle.bufr_data.specs.LentTexts.{HasOctets};
ghost use Rattle.bufr_fields.specs.declared.field.Field.{Field as AField};
ghost use Rattle.bufr_fields.specs.Values.{as_field};
ghost use Rattle.bufr_data.specs.Plain.{plain};
ghost use Rattle.bufr_data.specs.Subsets.{Extends, has_own_form};

use crate::compressed::index::{ColumnStart, number_there, text_there, value};
use crate::fields::by_parts;
use crate::plain::copy::SUBSET_ROOM;
use crate::plain::write::put_raw;
use crate::short::{ShortNumber, greatest_short};
use crate::text::LentText;
use bufr_base::OutOfMemory;
use bufr_bits::BitSink;
use bufr_expand::Asks;
use bufr_fields::{Field, NumberField};
use std::alloc::Global;
use std::marker::Model;

/// A reader of the fields left in a compressed subset: one value of each column.
#[derive(Drop)]
pub(crate) struct ColumnFields<'v> {
    pub(crate) octets: &'v [u8],
    pub(crate) subsets: u16,
    pub(crate) places: &'v [ColumnStart],
    pub(crate) index: u16,
}

impl<'v> Model for ColumnFields<'v> {
    ghost use Rattle.std.specs.Prelude.{List};
    ghost use Rattle.bufr_fields.specs.declared.field.Field.{Field};
    ghost use Rattle.bufr_data.specs.Handed.{fields_there, StandThere};

    ghost Value = { List Field };

    ghost view = { λ s. fields_there s.octets.now s.subsets s.index s.places.now };

    ghost invariant = { λ s. StandThere s.octets.now s.subsets s.index s.places.now };
}

impl<'v> ColumnFields<'v> {
    /// Returns true if no field is left.
    #[inline(always)]
    pub(crate) fn is_empty(&self) -> bool
        ensures { result ≡ (length self.now == 0) }
    {
        self.places.is_empty()
    }

    /// Hands out the next field, or `None` at the end.
    pub(crate) fn next(&mut self, alloc: Global) -> Result<Option<Field>, OutOfMemory>
        ensures found { IfOk result (λ found. HandsOut self.old found self.new) }
        ensures formed { IfOk result (λ found. IfSome found (λ f. has_own_form f ≡ true)) }
        ensures err { OnErr result (self.new ≡ self.old) }
    {
        let Some((place, others)) = self.places.split_first() else {
            return Ok(None);
        };
        let raw = value(alloc, self.octets, self.subsets, *place, self.index)?;
        self.places = others;
        Ok(Some(Field {
            fxy: place.fxy,
            spec: place.spec,
            raw,
        }))
    }

    /// Hands out the next chosen field and skips the others unread.
    pub(crate) fn next_asked<A: Asks>(
        &mut self,
        alloc: Global,
        asked: &A,
    ) -> Result<Option<Field>, OutOfMemory>
        ensures found { IfOk result (λ found.
            HandsOutAsked (A.is_asked asked.now) self.old found self.new) }
        ensures err { OnErr result (PassesUnasked (A.is_asked asked.now) self.old self.new) }
    {
        while self.pass_first(asked) {}
        self.next(alloc)
    }

    /// Hands out the next chosen field if it is a number. `None` at the end, and at a text, which
    /// `next_asked` takes.
    #[inline(always)]
    pub(crate) fn next_asked_number<A: Asks>(&mut self, asked: &A) -> Option<NumberField>
        ensures found { IfSome result (λ number.
            HandsOutAsked (A.is_asked asked.now) self.old (Some (as_field number)) self.new) }
        ensures others { IfNone result (PassesUnasked (A.is_asked asked.now) self.old self.new) }
    {
        while self.pass_first(asked) {}
        self.next_number()
    }

    /// Hands out the next field if its numbers are short.
    #[inline(always)]
    pub(crate) fn next_short(&mut self) -> Option<ShortNumber>
        ensures found { IfSome result (λ short. HandsOutShort self.old short self.new) }
        ensures others { IfNone result (self.new ≡ self.old) }
    {
        let Some((place, others)) = self.places.split_first() else {
            return None;
        };
        let greatest = greatest_short(place.spec)?;
        let number = number_there(self.octets, self.subsets, *place, self.index)?;
        let Ok(number) = u16::try_from(number) else {
            return None;
        };
        self.places = others;
        Some(ShortNumber::of_raw(place.fxy, number, greatest))
    }

    /// Hands out the next field if it is a number.
    #[inline(always)]
    pub(crate) fn next_number(&mut self) -> Option<NumberField>
        ensures found { IfSome result (λ number.
            HandsOut self.old (Some (as_field number)) self.new) }
        ensures others { IfNone result (self.new ≡ self.old) }
    {
        let Some((place, others)) = self.places.split_first() else {
            return None;
        };
        let number = number_there(self.octets, self.subsets, *place, self.index)?;
        self.places = others;
        Some(NumberField {
            fxy: place.fxy,
            spec: by_parts(place.spec),
            number,
        })
    }

    /// Hands out the next field, its octets in `room`, if it is a text of at most 64 octets.
    #[inline(always)]
    pub(crate) fn next_text<'r>(&mut self, room: &'r mut [u8; SUBSET_ROOM]) -> Option<LentText<'r>>
        ensures found { IfSome result (λ text.
            (f : AField) × HasOctets f text.fxy text.octets.now × HandsOut self.old (Some f) self.new) }
        ensures others { IfNone result (self.new ≡ self.old) }
    {
        let Some((place, others)) = self.places.split_first() else {
            return None;
        };
        let octets = text_there(self.octets, self.subsets, *place, self.index, room)?;
        self.places = others;
        Some(LentText {
            fxy: place.fxy,
            octets,
        })
    }

    /// Skips the next field if it is not chosen.
    #[inline(always)]
    fn pass_first<A: Asks>(&mut self, asked: &A) -> bool
        ensures passed { OnTrue result (PassesFirst (A.is_asked asked.now) self.old self.new) }
        ensures unmoved { OnFalse result (self.new ≡ self.old) }
        ensures asked { OnFalse result (FirstIsAsked (A.is_asked asked.now) self.old) }
    {
        let Some((place, others)) = self.places.split_first() else {
            return false;
        };
        if asked.asks(place.fxy) {
            return false;
        }
        self.places = others;
        true
    }

    /// Appends the bits of all fields as plain data, or a part if memory runs out.
    pub(crate) fn put(mut self, alloc: Global, sink: &mut BitSink) -> Result<(), OutOfMemory>
        ensures put { OnOk result (sink.new ≡ sink.old ++ plain self.entry) }
        ensures kept { Extends sink.old sink.new }
    {
        while let Some(field) = self.next(alloc)? {
            put_raw(field.spec, &field.raw, sink)?;
        }
        Ok(())
    }
}
