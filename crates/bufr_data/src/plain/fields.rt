//! Hands out the fields of a plain subset along a walk.

ghost use Rattle.std.specs.Prelude.{◌≡◌, Some, IfOk, IfErr, IfSome, IfNone, OnErr};
ghost use Rattle.std.specs.Bool.{OnTrue};
ghost use Rattle.bufr_fields.specs.Values.{as_field};
ghost use Rattle.bufr_data.specs.Handed.{HandsOut, HandsOutAsked, NoneAsked, PassesUnasked};
ghost use Rattle.bufr_data.specs.Handed.{StandAhead, StepsTo, StepsToNone, fields_ahead};
ghost use Rattle.bufr_data.specs.Turns.{TakesTurns};
ghost use Rattle.bufr_data.specs.declared.plain.fields.Due.TheVariants as dues;

use crate::plain::laid_turns::LaidTurns;
use crate::plain::number_turns::NumberTurns;
use crate::plain::pass::{pass_bits, present_bits};
use crate::plain::read::{read_count, read_number, read_raw};
use bufr_base::OutOfMemory;
use bufr_bits::BitReader;
use bufr_expand::{Asks, CommonField, Step, Walk};
use bufr_fields::{Field, NumberField, Raw};
use bufr_tables::Fxy;
use std::alloc::Global;
use std::marker::Model;
use std::mem;

/// The fewest turns that are laid out.
const FEWEST_LAID_TURNS: u64 = 8;

/// A next part of a plain subset: a step of the walk, a text that the walk has passed, or nothing.
#[derive(Clone, Copy)]
pub(crate) enum Due {
    Step,
    Text(CommonField),
    Nothing,
}

/// A reader of the fields left in a plain subset, by a walk over the template.
#[derive(Drop)]
pub(crate) struct PlainFields<'v> {
    pub(crate) walk: Walk<'v>,
    pub(crate) reader: BitReader<'v>,
    pub(crate) due: Due,
    /// Fields that the walk has passed and that come first.
    pub(crate) laid: Option<LaidTurns>,
    /// Whether the walk has just taken the number of some turns.
    pub(crate) at_turns: bool,
}

impl<'v> Model for PlainFields<'v> {
    ghost use Rattle.std.specs.Prelude.{List};
    ghost use Rattle.bufr_fields.specs.declared.field.Field.{Field};
    ghost use Rattle.bufr_data.specs.Handed.{fields_from, StandFrom};

    ghost Value = { List Field };

    ghost view = { λ s. fields_from s.laid s.due s.walk s.reader };

    ghost invariant = { λ s. StandFrom s.laid s.due s.walk s.reader };
}

impl<'v> PlainFields<'v> {
    /// Hands out the next field, or `None` at the end.
    pub(crate) fn next(&mut self, alloc: Global) -> Result<Option<Field>, OutOfMemory>
        ensures found { IfOk result (λ found. HandsOut self.old found self.new) }
        ensures err { OnErr result (self.new ≡ self.old) }
    {
        self.lay_turns(alloc)?;
        match &mut self.laid {
            None => next_along(
                alloc,
                &mut self.due,
                &mut self.walk,
                &mut self.reader,
                &mut self.at_turns,
            ),
            Some(laid) => {
                if let Some(field) = laid.next(alloc, &self.walk, &mut self.reader)? {
                    return Ok(Some(field));
                }
                drop(self.laid.take());
                next_along(
                    alloc,
                    &mut self.due,
                    &mut self.walk,
                    &mut self.reader,
                    &mut self.at_turns,
                )
            }
        }
    }

    /// Hands out the next chosen field. Returns `None` if it comes to a text, to turns or to the end
    /// first; `next_asked` goes on from there.
    #[inline(always)]
    pub(crate) fn next_asked_number<A: Asks>(&mut self, asked: &A) -> Option<NumberField>
        ensures found { IfSome result (λ number.
            HandsOutAsked (A.is_asked asked.now) self.old (Some (as_field number)) self.new) }
        ensures others { IfNone result (PassesUnasked (A.is_asked asked.now) self.old self.new) }
    {
        if let Some(laid) = &mut self.laid {
            return laid.next_asked_number(asked, &self.walk, &mut self.reader);
        }
        self.next_walked_number(asked)
    }

    /// Hands out the next chosen field along the walk, as `next_asked_number` does.
    // Inlined, its code would slow loops over other fields.
    #[inline(never)]
    fn next_walked_number<A: Asks>(&mut self, asked: &A) -> Option<NumberField>
        ensures found { IfSome result (λ number.
            HandsOutAsked (A.is_asked asked.now) self.old (Some (as_field number)) self.new) }
        ensures others { IfNone result (PassesUnasked (A.is_asked asked.now) self.old self.new) }
    {
        match &self.laid {
            Some(_) => return None,
            None => {}
        }
        match self.due {
            Due::Step if !self.at_turns => {}
            _ => return None,
        }
        if self.walk.has_no_more(asked) {
            return None;
        }
        match next_chosen(asked, &mut self.walk, &mut self.reader, &mut self.at_turns) {
            Ok(number) => Some(number),
            Err(due) => {
                self.due = due;
                None
            }
        }
    }

    /// Returns true if the turns and the walk show that no chosen field is left.
    pub(crate) fn has_no_more<A: Asks>(&self, asked: &A) -> bool
        ensures { OnTrue result (NoneAsked (A.is_asked asked.now) self.now) }
    {
        match &self.laid {
            Some(laid) => laid.has_none(asked) && self.walk.has_no_more_inside(asked),
            None => match self.due {
                Due::Step => self.walk.has_no_more_inside(asked),
                Due::Text(_) | Due::Nothing => false,
            },
        }
    }

    /// Hands out the next chosen field; stops early if the walk shows that none is left.
    pub(crate) fn next_asked<A: Asks>(
        &mut self,
        alloc: Global,
        asked: &A,
    ) -> Result<Option<Field>, OutOfMemory>
        ensures found { IfOk result (λ found.
            HandsOutAsked (A.is_asked asked.now) self.old found self.new) }
        ensures err { OnErr result (PassesUnasked (A.is_asked asked.now) self.old self.new) }
    {
        self.leave_turns();
        if self.is_past(asked) {
            drop(self.laid.take());
            self.due = Due::Nothing;
            return Ok(None);
        }
        while let Some(field) = self.next(alloc)? {
            if asked.asks(field.fxy) {
                return Ok(Some(field));
            }
        }
        Ok(None)
    }

    /// Takes the turns that come next, as `Fields::take_turns` does.
    #[inline(always)]
    pub(crate) fn take_turns<A: Asks>(
        &mut self,
        alloc: Global,
        asked: &A,
        opener: Fxy,
    ) -> Result<Option<NumberTurns<'v>>, OutOfMemory>
        ensures taken { IfOk result (λ found. IfSome found (λ turns.
            TakesTurns (A.is_asked asked.now) opener self.old turns self.new)) }
        ensures others { IfOk result (λ found. IfNone found (self.new ≡ self.old)) }
        ensures err { OnErr result (self.new ≡ self.old) }
    {
        let are_next = match &self.laid {
            Some(_) => true,
            None => self.at_turns,
        };
        if !are_next {
            return Ok(None);
        }
        self.take_laid_turns(alloc, asked, opener)
    }

    #[inline(never)]
    fn take_laid_turns<A: Asks>(
        &mut self,
        alloc: Global,
        asked: &A,
        opener: Fxy,
    ) -> Result<Option<NumberTurns<'v>>, OutOfMemory>
        ensures taken { IfOk result (λ found. IfSome found (λ turns.
            TakesTurns (A.is_asked asked.now) opener self.old turns self.new)) }
        ensures others { IfOk result (λ found. IfNone found (self.new ≡ self.old)) }
        ensures err { OnErr result (self.new ≡ self.old) }
    {
        self.lay_turns(alloc)?;
        match &mut self.laid {
            None => Ok(None),
            Some(laid) => laid.take_numbers(alloc, asked, opener, &self.walk, &mut self.reader),
        }
    }

    /// Returns true if no replication is open and the walk shows that no chosen field is left.
    fn is_past<A: Asks>(&self, asked: &A) -> bool
        ensures { OnTrue result (NoneAsked (A.is_asked asked.now) self.now) }
    {
        match &self.laid {
            Some(_) => false,
            None => match self.due {
                Due::Step => self.walk.has_no_more(asked),
                Due::Text(_) | Due::Nothing => false,
            },
        }
    }

    /// Lays out the turns that come next, if each has the same fields.
    #[inline(always)]
    fn lay_turns(&mut self, alloc: Global) -> Result<(), OutOfMemory>
        ensures { self.new ≡ self.old }
    {
        if self.at_turns {
            self.lay_even_turns(alloc)?;
            self.at_turns = false;
        }
        Ok(())
    }

    fn lay_even_turns(&mut self, alloc: Global) -> Result<(), OutOfMemory>
        ensures { self.new ≡ self.old }
    {
        match &self.laid {
            Some(_) => return Ok(()),
            None => {}
        }
        match self.due {
            Due::Step => {}
            Due::Text(_) | Due::Nothing => return Ok(()),
        }
        let Some(turns) = self.walk.lay_turns(alloc)? else {
            return Ok(());
        };
        drop(mem::replace(&mut self.laid, Some(LaidTurns::of(turns))));
        Ok(())
    }

    /// Leaves turns that are read.
    fn leave_turns(&mut self)
        ensures { self.new ≡ self.old }
    {
        if let Some(laid) = &mut self.laid {
            if let None = laid.first() {
                drop(self.laid.take());
            }
        }
    }
}

/// Hands out the next field along a walk, or `None` at the end.
fn next_along(
    alloc: Global,
    due: &mut Due,
    walk: &mut Walk,
    reader: &mut BitReader,
    at_turns: &mut bool,
) -> Result<Option<Field>, OutOfMemory>
    requires { StandAhead due.old walk.old reader.old }
    ensures ahead { StandAhead due.new walk.new reader.new }
    ensures found { IfOk result (λ found. HandsOut (fields_ahead due.old walk.old reader.old) found
        (fields_ahead due.new walk.new reader.new)) }
    ensures err { OnErr result (fields_ahead due.new walk.new reader.new
        ≡ fields_ahead due.old walk.old reader.old) }
{
    match step(*due, walk, reader, at_turns) {
        Ok(number) => return Ok(Some(field_of(number))),
        Err(later) => *due = later,
    }
    let Due::Text(text) = *due else {
        return Ok(None);
    };
    match read_raw(alloc, text.spec, reader, 1) {
        Ok(raw) => {
            *due = Due::Step;
            Ok(Some(Field {
                fxy: text.fxy,
                spec: text.spec,
                raw,
            }))
        }
        Err(_) => Err(OutOfMemory),
    }
}

/// Reads the next chosen field if it is a number. Passes elements that are not chosen unread. If it
/// stops at a text or at the end, it returns that as `Due`.
#[inline(always)]
fn next_chosen<A: Asks>(
    asked: &A,
    walk: &mut Walk,
    reader: &mut BitReader,
    at_turns: &mut bool,
) -> Result<NumberField, Due>
    requires { StandAhead dues.Step walk.old reader.old }
    ensures ahead { IfOk result (λ number. StandAhead dues.Step walk.new reader.new) }
    ensures found { IfOk result (λ number.
        HandsOutAsked (A.is_asked asked.now) (fields_ahead dues.Step walk.old reader.old)
        (Some (as_field number)) (fields_ahead dues.Step walk.new reader.new)) }
    ensures later { IfErr result (λ later. StandAhead later walk.new reader.new) }
    ensures others { IfErr result (λ later. PassesUnasked (A.is_asked asked.now)
        (fields_ahead dues.Step walk.old reader.old) (fields_ahead later walk.new reader.new)) }
{
    'elements: loop {
        match walk.pass_element() {
            None => match step_to_any(walk, reader, at_turns) {
                Err(due) => return Err(due),
                Ok(number) => {
                    if asked.asks(number.fxy) {
                        return Ok(number);
                    }
                    if *at_turns {
                        return Err(Due::Step);
                    }
                }
            },
            Some((fxy, spec)) => {
                if asked.asks(fxy) {
                    return match read_number(spec, reader) {
                        Some(number) => Ok(NumberField { fxy, spec, number }),
                        None => Err(Due::Text(CommonField { fxy, spec })),
                    };
                }
                pass_bits(reader, present_bits(spec));
            }
        }
    }
}

/// Makes a field from a field with a number.
#[inline(always)]
fn field_of(number: NumberField) -> Field
    ensures { result ≡ as_field number }
{
    let NumberField { fxy, spec, number } = number;
    let raw = Raw::Number(number);
    Field { fxy, spec, raw }
}

/// Reads the next field if it is a number. Else returns the text or the end as `Due`.
#[inline(always)]
fn step(
    due: Due,
    walk: &mut Walk,
    reader: &mut BitReader,
    at_turns: &mut bool,
) -> Result<NumberField, Due>
    requires { StandAhead due walk.old reader.old }
    ensures found { IfOk result (λ number.
        StepsTo (as_field number) due walk.old reader.old due walk.new reader.new) }
    ensures others { IfErr result (λ later.
        StepsToNone due walk.old reader.old later walk.new reader.new) }
{
    match due {
        Due::Step => {}
        _ => return Err(due),
    }
    match walk.pass_element() {
        None => step_to_any(walk, reader, at_turns),
        Some((fxy, spec)) => match read_number(spec, reader) {
            Some(number) => Ok(NumberField { fxy, spec, number }),
            None => Err(Due::Text(CommonField { fxy, spec })),
        },
    }
}

/// Steps to the next field, whatever nodes come before it.
fn step_to_any(
    walk: &mut Walk,
    reader: &mut BitReader,
    at_turns: &mut bool,
) -> Result<NumberField, Due>
    requires { StandAhead dues.Step walk.old reader.old }
    ensures found { IfOk result (λ number.
        StepsTo (as_field number) dues.Step walk.old reader.old dues.Step walk.new reader.new) }
    ensures others { IfErr result (λ later.
        StepsToNone dues.Step walk.old reader.old later walk.new reader.new) }
{
    let next = match walk.next() {
        Ok(next) => next,
        Err(_) => return Err(Due::Nothing),
    };
    match next {
        Step::End => Err(Due::Nothing),
        Step::Field(fxy, spec) => match read_number(spec, reader) {
            Some(number) => Ok(NumberField { fxy, spec, number }),
            None => Err(Due::Text(CommonField { fxy, spec })),
        },
        Step::Count(fxy, spec) => {
            let number = read_count(spec, reader);
            walk.count(number);
            *at_turns = number >= FEWEST_LAID_TURNS;
            Ok(NumberField { fxy, spec, number })
        }
    }
}
