//! Hands out the fields of a subset one at a time.

ghost use Rattle.std.specs.Prelude.{◌≡◌, ◌++◌, List, Some, IfOk, IfErr, IfSome, IfNone, OnErr};
ghost use Rattle.bufr_fields.specs.Values.{as_field};
ghost use Rattle.std.specs.Bool.{OnTrue};
ghost use Rattle.bufr_fields.specs.declared.field.Field.{Field};
ghost use Rattle.bufr_data.specs.Handed.{HandsOut, HandsOutAsked, NoneAsked, PassesUnasked};
ghost use Rattle.bufr_data.specs.Turns.{BeginsWith, OpensTurns, all_numbered};

use crate::compressed::fields::ColumnFields;
use crate::plain::fields::PlainFields;
use crate::plain::laid_fields::LaidFields;
use crate::plain::number_turns::NumberTurns;
use bufr_base::{Items, OutOfMemory};
use bufr_expand::{Asks, Spec};
use bufr_fields::{Field, NumberField};
use bufr_tables::Fxy;
use std::alloc::Global;
use std::marker::Model;

/// A source of fields: plain with a walk or a layout, or compressed.
#[derive(Drop)]
pub(crate) enum FieldSource<'v> {
    Plain(PlainFields<'v>),
    Laid(LaidFields<'v>),
    Compressed(ColumnFields<'v>),
}

/// A reader of the fields left in a subset, each built on request. Contracts see the list of
/// fields.
#[derive(Drop)]
pub struct Fields<'v> {
    pub(crate) source: FieldSource<'v>,
    pub(crate) room: usize,
}

impl<'v> Model for Fields<'v> {
    ghost use Rattle.std.specs.Prelude.{List};
    ghost use Rattle.bufr_fields.specs.declared.field.Field.{Field};
    ghost use Rattle.bufr_data.specs.LeftFields.{left_of};

    ghost Value = { List Field };

    ghost view = { λ f. left_of f.source };
}

impl<'v> Fields<'v> {
    /// Hands out the next field, or `None` at the end.
    // A call would move each field through memory.
    #[inline(always)]
    pub fn next(&mut self, alloc: Global) -> Result<Option<Field>, OutOfMemory>
        ensures found { IfOk result (λ found. HandsOut self.old found self.new) }
        ensures err { OnErr result (self.new ≡ self.old) }
    {
        match &mut self.source {
            FieldSource::Plain(fields) => fields.next(alloc),
            FieldSource::Laid(fields) => fields.next(alloc),
            FieldSource::Compressed(fields) => fields.next(alloc),
        }
    }

    /// Hands out the next chosen field, or `None` if none is left. It skips the others unread if it
    /// can.
    pub fn next_asked<A: Asks>(
        &mut self,
        alloc: Global,
        asked: &A,
    ) -> Result<Option<Field>, OutOfMemory>
        ensures found { IfOk result (λ found.
            HandsOutAsked (A.is_asked asked.now) self.old found self.new) }
        ensures err { OnErr result (PassesUnasked (A.is_asked asked.now) self.old self.new) }
    {
        match &mut self.source {
            FieldSource::Plain(fields) => fields.next_asked(alloc, asked),
            FieldSource::Laid(fields) => fields.next_asked(alloc, asked),
            FieldSource::Compressed(fields) => fields.next_asked(alloc, asked),
        }
    }

    /// Hands out the next chosen field if it is a number. Else returns `None`, and `next_asked`
    /// takes the field.
    #[inline(always)]
    pub fn next_asked_number<A: Asks>(&mut self, asked: &A) -> Option<NumberField>
        ensures found { IfSome result (λ number.
            HandsOutAsked (A.is_asked asked.now) self.old (Some (as_field number)) self.new) }
        ensures others { IfNone result (PassesUnasked (A.is_asked asked.now) self.old self.new) }
    {
        match &mut self.source {
            FieldSource::Plain(fields) => match fields.next_asked_number(asked) {
                None => None,
                Some(number) => Some(number_by_parts(number)),
            },
            FieldSource::Laid(fields) => fields.next_asked_number(asked),
            FieldSource::Compressed(fields) => fields.next_asked_number(asked),
        }
    }

    /// Takes the turns that come next as numbers, each from the opener on, if they have the same
    /// fields. Passes the fields before the first opener, none chosen, and leaves the last turn. Call
    /// it once `next_asked_number` has returned `None`.
    #[inline(always)]
    pub fn take_turns<A: Asks>(
        &mut self,
        alloc: Global,
        asked: &A,
        opener: Fxy,
    ) -> Result<Option<NumberTurns<'v>>, OutOfMemory>
        ensures taken { IfOk result (λ found. IfSome found (λ turns. (passed : List Field)
            × NoneAsked (A.is_asked asked.now) passed
            × (self.old ≡ passed ++ (all_numbered turns.fields turns.turns ++ self.new))
            × OpensTurns opener turns.fields × BeginsWith opener self.new)) }
        ensures others { IfOk result (λ found. IfNone found (self.new ≡ self.old)) }
        ensures err { OnErr result (self.new ≡ self.old) }
    {
        match &mut self.source {
            FieldSource::Plain(fields) => fields.take_turns(alloc, asked, opener),
            FieldSource::Laid(_) | FieldSource::Compressed(_) => Ok(None),
        }
    }

    /// Returns true if the template shows that no chosen field is left.
    pub fn has_no_more<A: Asks>(&self, asked: &A) -> bool
        ensures { OnTrue result (NoneAsked (A.is_asked asked.now) self.now) }
    {
        match &self.source {
            FieldSource::Plain(fields) => fields.has_no_more(asked),
            FieldSource::Laid(_) | FieldSource::Compressed(_) => false,
        }
    }

    /// Returns the fields with their layout, if they have one; a loop then needs no branch for each
    /// field.
    pub fn laid(self) -> Result<LaidFields<'v>, Fields<'v>>
        ensures laid { IfOk result (λ fields. fields ≡ self.entry) }
        ensures others { IfErr result (λ fields. fields ≡ self.entry) }
    {
        match self.source {
            FieldSource::Laid(fields) => Ok(fields),
            source => Err(Fields {
                source,
                room: self.room,
            }),
        }
    }

    /// Collects all fields left.
    pub fn rest(mut self, alloc: Global) -> Result<Items<Field>, OutOfMemory>
        ensures { IfOk result (λ fields. fields ≡ self.entry) }
    {
        let mut fields = Vec::with_capacity(alloc, self.room)?;
        while let Some(field) = self.next(alloc)? {
            fields.push(field)?;
        }
        Ok(Items::from_vec(fields))
    }
}

/// Copies a spec part by part, since a copy of its padding is slow.
#[inline(always)]
pub(crate) fn by_parts(spec: Spec) -> Spec
    ensures { result ≡ spec }
{
    let Spec {
        kind,
        scale,
        reference,
        width,
    } = spec;
    Spec {
        kind,
        scale,
        reference,
        width,
    }
}

/// Copies a field with a number part by part, as `by_parts` does.
#[inline(always)]
fn number_by_parts(field: NumberField) -> NumberField
    ensures { result ≡ field }
{
    let NumberField { fxy, spec, number } = field;
    let spec = by_parts(spec);
    NumberField { fxy, spec, number }
}
