//! Hands out turns of a replication as numbers.

ghost use Rattle.std.specs.Prelude.{◌≡◌, ◌∷◌, ◌*◌, ◌≤◌, [], length, take, drop, IfOk, IfSome, OnSome, true};
ghost use Rattle.std.specs.Bool.{OnTrue, OnFalse};
ghost use Rattle.bufr_bits.specs.Ends.{left};
ghost use Rattle.bufr_data.specs.Handed.{moved_on};
ghost use Rattle.bufr_data.specs.Plain.LaidTurns.{none_among};
ghost use Rattle.bufr_data.specs.Plain.NumberTurns.{AreNumbers, IsNumber, IsOpening, NoneIs};
ghost use Rattle.bufr_data.specs.Plain.NumberTurns.{numbers_in, turned, turns_in, widths};
ghost use Rattle.bufr_data.specs.Turns.{OpensTurns};

use crate::plain::laid_reader::LaidReader;
use bufr_base::OutOfMemory;
use bufr_expand::{Asks, CommonField, Spec};
use bufr_fields::MOST_RAW_BITS;
use bufr_tables::{Fxy, Kind};
use std::alloc::Global;
use std::marker::Model;

/// Turns of a replication as numbers. Contracts see the fields of a turn, and the numbers of each turn
/// left.
#[derive(Drop)]
pub struct NumberTurns<'v> {
    fields: Vec<CommonField>,
    turns: u64,
    reader: LaidReader<'v>,
}

impl<'v> Model for NumberTurns<'v> {
    ghost use Rattle.std.specs.Prelude.{◌*◌, ◌≤◌, length};
    ghost use Rattle.bufr_bits.specs.Ends.{left};
    ghost use Rattle.bufr_data.specs.Plain.NumberTurns.{AreNumbers, turns_in, widths};
    ghost use Rattle.bufr_data.specs.Turns.{TurnsLeft};

    ghost Value = { TurnsLeft };

    ghost view = { λ t. record {
      fields = t.fields.items;
      turns = turns_in t.turns t.fields.items (left t.reader);
    } };

    ghost invariant = { λ t. AreNumbers t.fields.items
        × (t.turns * widths t.fields.items ≤ length (left t.reader)) };
}

impl<'v> NumberTurns<'v> {
    /// Makes turns that begin at a reader.
    pub(crate) fn at(
        fields: Vec<CommonField>,
        turns: u64,
        reader: LaidReader<'v>,
    ) -> NumberTurns<'v>
        requires numbers { AreNumbers fields.items }
        requires enough { turns * widths fields.items ≤ length (left reader) }
        ensures { result ≡ record {
          fields = fields.items;
          turns = turns_in turns fields.items (left reader.entry);
        } }
    {
        NumberTurns {
            fields,
            turns,
            reader,
        }
    }

    /// Returns the fields of a turn.
    pub fn fields(&self) -> &[CommonField]
        ensures { result.now ≡ self.now.fields }
    {
        self.fields.as_slice()
    }

    /// Reads the numbers of the next turn. Returns false if no turn is left.
    #[inline(always)]
    pub fn next(&mut self, numbers: &mut [u64]) -> bool
        requires { length numbers.old ≡ length self.old.fields }
        ensures more { OnTrue result (self.old.turns ≡ numbers.new ∷ self.new.turns) }
        ensures end { OnFalse result (self.old.turns ≡ []) }
        ensures fields { self.new.fields ≡ self.old.fields }
        ensures length { length numbers.new ≡ length numbers.old }
    {
        if self.turns == 0 {
            return false;
        }
        // A reader of its own stays in registers.
        let mut reader = self.reader.again();
        read_numbers(self.fields.as_slice(), &mut reader, numbers);
        self.reader = reader;
        self.turns -= 1;
        true
    }
}

/// Reads the numbers of fields.
#[inline(always)]
fn read_numbers(fields: &[CommonField], reader: &mut LaidReader, numbers: &mut [u64])
    requires long { length numbers.old ≡ length fields.now }
    requires numbers { AreNumbers fields.now }
    requires enough { widths fields.now ≤ length (left reader.old) }
    ensures read { numbers.new ≡ numbers_in fields.now (left reader.old) }
    ensures moved { reader.new ≡ moved_on reader.old (widths fields.now) }
{
    for i in 0..fields.len() {
        numbers[i] = reader.take_bits(fields[i].spec.width);
    }
}

/// A field that opens turns of numbers: its index in a turn, the bits before it, and the bits of the
/// turns.
#[derive(Clone, Copy)]
pub(crate) struct Opening {
    pub(crate) place: usize,
    pub(crate) gap: u64,
    pub(crate) bits: u64,
}

/// Finds the field that opens turns. `None` if a field before it is chosen, if it comes twice, or if
/// a turn has other fields than numbers.
pub(crate) fn opening_of<A: Asks>(
    asked: &A,
    opener: Fxy,
    turn: &[CommonField],
    turns: u64,
) -> Option<Opening>
    ensures { IfSome result (IsOpening (A.is_asked asked.now) opener turn.now turns) }
{
    let place = index_of(asked, opener, turn)?;
    let (before, others) = turn.split_at(place);
    let gap = other_bits(opener, before)?;
    let rest = opened_bits(opener, others)?;
    let bits = turns.checked_mul(rest.checked_add(gap)?)?;
    Some(Opening { place, gap, bits })
}

/// Returns the index of the opener if no field before it is chosen.
fn index_of<A: Asks>(asked: &A, opener: Fxy, turn: &[CommonField]) -> Option<usize>
    ensures none { IfSome result (λ place.
        none_among (A.is_asked asked.now) (take place turn.now) ≡ true) }
    ensures within { IfSome result (λ place. place ≤ length turn.now) }
{
    for index in 0..turn.len() {
        if turn[index].fxy == opener {
            return Some(index);
        }
        if asked.asks(turn[index].fxy) {
            return None;
        }
    }
    None
}

/// Returns the bits of fields if they are numbers and only the first is the opener.
fn opened_bits(opener: Fxy, fields: &[CommonField]) -> Option<u64>
    ensures opens { OnSome result (OpensTurns opener fields.now) }
    ensures numbers { OnSome result (AreNumbers fields.now) }
    ensures bits { IfSome result (λ bits. bits ≡ widths fields.now) }
{
    let (first, others) = fields.split_first()?;
    if first.fxy != opener {
        return None;
    }
    let own = number_bits(first.spec)?;
    own.checked_add(other_bits(opener, others)?)
}

/// Returns the bits of fields if they are numbers and none is the opener.
fn other_bits(opener: Fxy, fields: &[CommonField]) -> Option<u64>
    ensures none { OnSome result (NoneIs opener fields.now) }
    ensures numbers { OnSome result (AreNumbers fields.now) }
    ensures bits { IfSome result (λ bits. bits ≡ widths fields.now) }
{
    let mut bits: u64 = 0;
    let mut left = fields;
    while let Some((field, others)) = left.split_first() {
        if field.fxy == opener {
            return None;
        }
        bits = bits.checked_add(number_bits(field.spec)?)?;
        left = others;
    }
    Some(bits)
}

/// Returns the bits of a number. `None` at a text, and at a number of more than 64 bits.
fn number_bits(spec: Spec) -> Option<u64>
    ensures is { OnSome result (IsNumber spec) }
    ensures bits { IfSome result (λ bits. bits ≡ spec.width) }
{
    match spec.kind {
        Kind::Text => None,
        _ if spec.width > MOST_RAW_BITS => None,
        _ => Some(u64::from(spec.width)),
    }
}

/// Copies a turn from an index on, and then the fields before it.
pub(crate) fn turned_at(
    alloc: Global,
    turn: &[CommonField],
    place: usize,
) -> Result<Vec<CommonField>, OutOfMemory>
    requires { place ≤ length turn.now }
    ensures { IfOk result (λ fields. fields.items ≡ turned place turn.now) }
{
    let (before, others) = turn.split_at(place);
    let mut fields = Vec::with_capacity(alloc, turn.len())?;
    fields.extend_from_slice(others)?;
    fields.extend_from_slice(before)?;
    Ok(fields)
}
