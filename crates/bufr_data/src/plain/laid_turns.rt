//! Hands out the fields of turns that a walk has passed.

ghost use Rattle.std.specs.Prelude.{◌≡◌, ◌<◌, ◌^◌, [], ◌∷◌, Some, IfOk, IfSome, IfNone, OnErr, OnSome};
ghost use Rattle.std.specs.Prelude.{slice_get, true};
ghost use Rattle.std.specs.Bool.{OnTrue};
ghost use Rattle.bufr_expand.specs.EvenTurns.{repeated};
ghost use Rattle.bufr_expand.specs.Walks.{left};
ghost use Rattle.bufr_fields.specs.Values.{as_field};
ghost use Rattle.bufr_data.specs.Handed.{HandsOutAsked, PassesUnasked, StandThen, fields_then};
ghost use Rattle.bufr_data.specs.Plain.LaidTurns.{fields_left, none_among};
ghost use Rattle.bufr_data.specs.Turns.{TakesTurns};

use crate::fields::by_parts;
use crate::plain::laid_reader::LaidReader;
use crate::plain::number_turns::{NumberTurns, opening_of, turned_at};
use crate::plain::pass::{pass_bits, present_bits};
use crate::plain::read::{read_number, read_raw};
use bufr_base::OutOfMemory;
use bufr_bits::BitReader;
use bufr_expand::{Asks, CommonField, EvenTurns, Walk};
use bufr_fields::{Field, NumberField};
use bufr_tables::Fxy;
use std::alloc::Global;

/// The fields left of turns that a walk has passed.
#[derive(Drop)]
pub(crate) struct LaidTurns {
    /// The fields of each turn.
    turn: Vec<CommonField>,
    /// The index of the next field.
    next: usize,
    /// The turns after this one.
    turns: u64,
}

impl LaidTurns {
    /// Begins before the first turn.
    pub(crate) fn of(laid: EvenTurns) -> LaidTurns
        ensures { fields_left result ≡ repeated laid.turns laid.fields.items }
    {
        let EvenTurns { turns, fields } = laid;
        LaidTurns {
            next: fields.len(),
            turn: fields,
            turns,
        }
    }

    /// Hands out the next chosen field if it is a number. Passes those before it unread.
    #[inline(always)]
    pub(crate) fn next_asked_number<A: Asks>(
        &mut self,
        asked: &A,
        walk: &Walk,
        reader: &mut BitReader,
    ) -> Option<NumberField>
        requires { StandThen (left walk.now) (fields_left self.old) reader.old }
        ensures ahead { StandThen (left walk.now) (fields_left self.new) reader.new }
        ensures found { IfSome result (λ number. HandsOutAsked (A.is_asked asked.now)
            (fields_then (left walk.now) (fields_left self.old) reader.old) (Some (as_field number))
            (fields_then (left walk.now) (fields_left self.new) reader.new)) }
        ensures others { IfNone result (PassesUnasked (A.is_asked asked.now)
            (fields_then (left walk.now) (fields_left self.old) reader.old)
            (fields_then (left walk.now) (fields_left self.new) reader.new)) }
    {
        while let Some(field) = self.first() {
            if asked.asks(field.fxy) {
                let number = read_number(field.spec, reader)?;
                self.next += 1;
                return Some(NumberField {
                    fxy: field.fxy,
                    spec: by_parts(field.spec),
                    number,
                });
            }
            pass_bits(reader, present_bits(field.spec));
            self.next += 1;
        }
        None
    }

    /// Takes the turns that come next, as `Fields::take_turns` does.
    pub(crate) fn take_numbers<'v, A: Asks>(
        &mut self,
        alloc: Global,
        asked: &A,
        opener: Fxy,
        walk: &Walk,
        reader: &mut BitReader<'v>,
    ) -> Result<Option<NumberTurns<'v>>, OutOfMemory>
        requires { StandThen (left walk.now) (fields_left self.old) reader.old }
        ensures ahead { StandThen (left walk.now) (fields_left self.new) reader.new }
        ensures taken { IfOk result (λ found. IfSome found (λ turns.
            TakesTurns (A.is_asked asked.now) opener
            (fields_then (left walk.now) (fields_left self.old) reader.old) turns
            (fields_then (left walk.now) (fields_left self.new) reader.new))) }
        ensures others { IfOk result (λ found. IfNone found
            (fields_then (left walk.now) (fields_left self.new) reader.new
            ≡ fields_then (left walk.now) (fields_left self.old) reader.old)) }
        ensures err { OnErr result (fields_then (left walk.now) (fields_left self.new) reader.new
            ≡ fields_then (left walk.now) (fields_left self.old) reader.old) }
    {
        if self.next < self.turn.len() || self.turns < 2 {
            return Ok(None);
        }
        let turns = self.turns - 1;
        let Some(opening) = opening_of(asked, opener, self.turn.as_slice(), turns) else {
            return Ok(None);
        };
        let Some(mut first) = LaidReader::of(reader) else {
            return Ok(None);
        };
        let fields = turned_at(alloc, self.turn.as_slice(), opening.place)?;
        pass_bits(reader, opening.gap);
        first.move_on(opening.gap);
        pass_bits(reader, opening.bits);
        self.next = opening.place;
        self.turns = 0;
        Ok(Some(NumberTurns::at(fields, turns, first)))
    }

    /// Hands out the next field, or `None` if none is left.
    pub(crate) fn next(
        &mut self,
        alloc: Global,
        walk: &Walk,
        reader: &mut BitReader,
    ) -> Result<Option<Field>, OutOfMemory>
        requires { StandThen (left walk.now) (fields_left self.old) reader.old }
        ensures ahead { StandThen (left walk.now) (fields_left self.new) reader.new }
        ensures found { IfOk result (λ found. IfSome found (λ field.
            fields_then (left walk.now) (fields_left self.old) reader.old
            ≡ field ∷ fields_then (left walk.now) (fields_left self.new) reader.new)) }
        ensures none { IfOk result (λ found. IfNone found (fields_left self.old ≡ [])) }
        ensures unmoved { IfOk result (λ found. IfNone found (reader.new ≡ reader.old)) }
        ensures err { OnErr result (fields_then (left walk.now) (fields_left self.new) reader.new
            ≡ fields_then (left walk.now) (fields_left self.old) reader.old) }
    {
        let Some(field) = self.first() else {
            return Ok(None);
        };
        match read_raw(alloc, field.spec, reader, 1) {
            Ok(raw) => {
                self.next += 1;
                Ok(Some(Field {
                    fxy: field.fxy,
                    spec: field.spec,
                    raw,
                }))
            }
            Err(_) => Err(OutOfMemory),
        }
    }

    /// Returns whether no field of a turn is chosen.
    pub(crate) fn has_none<A: Asks>(&self, asked: &A) -> bool
        ensures { OnTrue result (none_among (A.is_asked asked.now) self.now.turn.items ≡ true) }
    {
        self.turn.iter().all(|field| !asked.asks(field.fxy))
    }

    /// Returns the next field, and begins its turn.
    #[inline(always)]
    pub(crate) fn first(&mut self) -> Option<CommonField>
        ensures found { IfSome result (λ field.
            slice_get self.new.turn.items self.new.next ≡ Some field) }
        ensures room { OnSome result (self.new.next < 2 ^ 63) }
        ensures none { IfNone result (fields_left self.old ≡ []) }
        ensures unmoved { fields_left self.new ≡ fields_left self.old }
    {
        if let Some(field) = self.turn.get(self.next) {
            return Some(*field);
        }
        if self.turns == 0 {
            return None;
        }
        self.turns -= 1;
        self.next = 0;
        Some(*self.turn.get(0)?)
    }
}
