//! Hands out the fields of a plain subset by its layout.

ghost use Rattle.std.specs.Prelude.{◌≡◌, Some, IfOk, IfSome, IfNone, OnErr};
ghost use Rattle.bufr_data.specs.Handed.{HandsOut, HandsOutAsked, FirstIsAsked, PassesUnasked};
ghost use Rattle.bufr_data.specs.Handed.{PassesLaid, StandLaid, fields_laid, moved_on};
ghost use Rattle.bufr_fields.specs.Values.{as_field};

use crate::fields::by_parts;
use crate::plain::laid_reader::LaidReader;
use crate::plain::pass::present_bits;
use bufr_base::OutOfMemory;
use bufr_expand::{Asks, CommonField};
use bufr_fields::{Field, NumberField};
use std::alloc::Global;
use std::marker::Model;

/// A reader of the fields left in a plain subset with a layout. Contracts see the list of fields.
#[derive(Drop)]
pub struct LaidFields<'v> {
    pub(crate) fields: &'v [CommonField],
    pub(crate) reader: LaidReader<'v>,
}

impl<'v> Model for LaidFields<'v> {
    ghost use Rattle.std.specs.Prelude.{List};
    ghost use Rattle.bufr_fields.specs.declared.field.Field.{Field};
    ghost use Rattle.bufr_data.specs.Handed.{fields_laid, StandLaid};

    ghost Value = { List Field };

    ghost view = { λ s. fields_laid s.fields.now s.reader };

    ghost invariant = { λ s. StandLaid s.fields.now s.reader };
}

// Inline, since calls would move each field through memory.
impl<'v> LaidFields<'v> {
    /// Hands out the next field, or `None` at the end.
    #[inline(always)]
    pub(crate) fn next(&mut self, alloc: Global) -> Result<Option<Field>, OutOfMemory>
        ensures found { IfOk result (λ found. HandsOut self.old found self.new) }
        ensures err { OnErr result (self.new ≡ self.old) }
    {
        let Some((field, others)) = self.fields.split_first() else {
            return Ok(None);
        };
        let field = *field;
        match self.reader.take_raw(alloc, field.spec) {
            Ok(raw) => {
                self.fields = others;
                Ok(Some(Field {
                    fxy: field.fxy,
                    spec: by_parts(field.spec),
                    raw,
                }))
            }
            Err(_) => Err(OutOfMemory),
        }
    }

    /// Hands out the next chosen field, or `None` if none is left, and skips the others unread.
    #[inline(always)]
    pub fn next_asked<A: Asks>(
        &mut self,
        alloc: Global,
        asked: &A,
    ) -> Result<Option<Field>, OutOfMemory>
        ensures found { IfOk result (λ found.
            HandsOutAsked (A.is_asked asked.now) self.old found self.new) }
        ensures err { OnErr result (PassesUnasked (A.is_asked asked.now) self.old self.new) }
    {
        self.pass_unasked(asked);
        self.next(alloc)
    }

    /// Hands out the next chosen field if it is a number. `None` at the end, and at a text, which
    /// `next_asked` takes.
    #[inline(always)]
    pub fn next_asked_number<A: Asks>(&mut self, asked: &A) -> Option<NumberField>
        ensures found { IfSome result (λ number.
            HandsOutAsked (A.is_asked asked.now) self.old (Some (as_field number)) self.new) }
        ensures others { IfNone result (PassesUnasked (A.is_asked asked.now) self.old self.new) }
    {
        self.pass_unasked(asked);
        let Some((field, others)) = self.fields.split_first() else {
            return None;
        };
        let field = *field;
        let number = self.reader.take_number(field.spec)?;
        self.fields = others;
        Some(NumberField {
            fxy: field.fxy,
            spec: by_parts(field.spec),
            number,
        })
    }

    #[inline(always)]
    fn pass_unasked<A: Asks>(&mut self, asked: &A)
        ensures passed { PassesUnasked (A.is_asked asked.now) self.old self.new }
        ensures asked { FirstIsAsked (A.is_asked asked.now) self.new }
    {
        let (fields, bits) = first_asked(asked, self.fields, &self.reader);
        self.reader.move_on(bits);
        self.fields = fields;
    }
}

/// Finds the first chosen field, and the bits before it.
fn first_asked<'f, A: Asks>(
    asked: &A,
    fields: &'f [CommonField],
    reader: &LaidReader,
) -> (&'f [CommonField], u64)
    requires { StandLaid fields.now reader.now }
    ensures passed { PassesLaid (A.is_asked asked.now) fields.now result.0.now reader.now
        result.1 }
    ensures asked { FirstIsAsked (A.is_asked asked.now)
        (fields_laid result.0.now (moved_on reader.now result.1)) }
{
    // The bits left bound the sum.
    let _most = reader.left();
    let mut bits = 0;
    let mut left = fields;
    while let Some((field, others)) = left.split_first() {
        if asked.asks(field.fxy) {
            return (left, bits);
        }
        bits += present_bits(field.spec);
        left = others;
    }
    (left, bits)
}
