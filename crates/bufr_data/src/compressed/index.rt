//! Finds the columns of compressed data.

ghost use Rattle.std.specs.Prelude.{◌≡◌, ◌-◌, ◌<◌, ◌≤◌, map, get_or, true, Bool, List, Ok, Err};
ghost use Rattle.std.specs.Prelude.{IfOk, IfErr, IfSome, OnErr, OnOk, OnSome, ◌+◌, ◌++◌};
ghost use Rattle.bufr_bits.specs.Ends.{left};
ghost use Rattle.bufr_base.specs.Answers.{Gives};
ghost use Rattle.bufr_expand.specs.Walks as walks;
ghost use Rattle.bufr_expand.specs.Limits.{most_items};
ghost use Rattle.bufr_fields.specs.declared.field.Raw.TheVariants.{Number, Text};
ghost use Rattle.bufr_fields.specs.declared.field.Subset.{Subset};
ghost use Rattle.bufr_data.specs.Compressed.Reading as reading;
ghost use Rattle.bufr_data.specs.Compressed.Reading.{ColumnsFound, columns_at};
ghost use Rattle.bufr_fields.specs.Forms.{has_form_by};
ghost use Rattle.bufr_data.specs.Plain.{plain, stopped};
ghost use Rattle.bufr_data.specs.Compressed.{subset_of, subsets_from};
ghost use Rattle.bufr_data.specs.Data.{subsets_in};
ghost use Rattle.bufr_data.specs.Compressed.Indexed.{Ahead, AllOpen, Opens, PassesPlace, column_from};
ghost use Rattle.bufr_data.specs.Compressed.Indexed.{index_at};
ghost use Rattle.bufr_data.specs.Chosen.{AreChosen, HaveChosen, chosen};
ghost use Rattle.bufr_fields.specs.Steady.{IsReady, WalkAdvances};
ghost use Rattle.bufr_data.specs.Subsets.{Extends};

use crate::chosen::is_listed;
use crate::compressed::chosen_columns::ChosenColumns;
use crate::compressed::fields::ColumnFields;
use crate::compressed::head::{ColumnHead, head_at, number_under};
use crate::compressed::lent_text::lent_text;
use crate::compressed::pass::{pass_column, pass_factor};
use crate::compressed::value::column_value;
use crate::fields::{FieldSource, Fields};
use crate::plain::copy::SUBSET_ROOM;
use crate::plain::read::fault_of;
use bufr_base::{Failure, Items, OutOfMemory};
use bufr_bits::{BitReader, BitSink};
use bufr_expand::{Spec, Step, Template, Walk, WalkFault};
use bufr_fields::{DataFault, MOST_VALUES, Raw, Subset};
use bufr_tables::{Fxy, Kind};
use std::alloc::Global;
use std::marker::Model;

/// A place of a column: its field, its first bit, and its head if it has numbers.
#[derive(Clone, Copy, PartialEq)]
pub(crate) struct ColumnStart {
    pub(crate) fxy: Fxy,
    pub(crate) spec: Spec,
    pub(crate) bit: u128,
    pub(crate) head: Option<ColumnHead>,
}

/// An index of the columns of compressed subsets.
#[derive(Drop)]
pub struct Columns<'a> {
    octets: &'a [u8],
    subsets: u16,
    places: Vec<ColumnStart>,
    chosen: ChosenPlaces,
}

/// A list of descriptors, and the places of their columns.
#[derive(Drop)]
pub(crate) struct ChosenPlaces {
    pub(crate) asked: Items<u16>,
    pub(crate) places: Vec<ColumnStart>,
}

impl<'a> Model for Columns<'a> {
    ghost use Rattle.std.specs.Prelude.{map};
    ghost use Rattle.bufr_data.specs.Chosen.{AreChosen};
    ghost use Rattle.bufr_data.specs.Compressed.Indexed.{Indexed, AllOpen, column_from};

    ghost Value = { Indexed };

    ghost view = { λ c. record {
      subsets = c.subsets;
      columns =
          map (column_from c.octets.now c.subsets) c.places.items;
    } };

    ghost invariant = { λ c. AllOpen c.octets.now c.subsets c.places.items
        × AreChosen c.places.items c.chosen };
}

impl<'a> Columns<'a> {
    /// Finds the columns of `subsets` subsets (94.6.3) and moves the reader past them. The fault is
    /// the first, at one field in this order: V6 `TooLarge`, V1 `EffectiveRange`, V2 `DataEnds`
    /// with subset 0 in the minimum or the width, V5 `CharIncrement`, V2 in the increments, V4
    /// `IncrementRange`, V3 `UnequalCounts`.
    pub fn index(
        alloc: Global,
        template: &Template,
        reader: &mut BitReader<'a>,
        subsets: u16,
    ) -> Result<Columns<'a>, Failure<DataFault>>
        ensures exact { Gives {Y = Ahead} (λ c. record { index = c; rest = left reader.new }) result
            (index_at template.now subsets (left reader.old)) }
        ensures octets { reader.new.octets ≡ reader.old.octets }
        ensures err { OnErr result (reader.new ≡ reader.old) }
        ensures onward { reader.old.place ≤ reader.new.place }
    {
        Columns::index_for(alloc, template, &[], reader, subsets)
    }

    /// Finds the columns like `index`, and those of the descriptors asked for.
    pub(crate) fn index_for(
        alloc: Global,
        template: &Template,
        asked: &[u16],
        reader: &mut BitReader<'a>,
        subsets: u16,
    ) -> Result<Columns<'a>, Failure<DataFault>>
        ensures exact { Gives {Y = Ahead} (λ c. record { index = c; rest = left reader.new }) result
            (index_at template.now subsets (left reader.old)) }
        ensures octets { reader.new.octets ≡ reader.old.octets }
        ensures err { OnErr result (reader.new ≡ reader.old) }
        ensures onward { reader.old.place ≤ reader.new.place }
    {
        let place = reader.place();
        let octets = reader.octets();
        match places_for(alloc, template, asked, reader, subsets) {
            Ok((places, chosen)) => Ok(Columns {
                octets,
                subsets,
                places,
                chosen,
            }),
            Err(failure) => {
                reader.return_to(place);
                Err(failure)
            }
        }
    }

    /// Returns the number of subsets.
    pub fn count(&self) -> u16
        ensures { result ≡ self.now.subsets }
    {
        self.subsets
    }

    /// Builds a subset by its number, from 1.
    pub fn subset(&self, alloc: Global, number: u16) -> Result<Subset, OutOfMemory>
        requires first { 1 ≤ number }
        requires last { number ≤ self.now.subsets }
        ensures { IfOk result (λ s. s ≡ subset_of self.now.columns (number - 1)) }
    {
        self.subset_at(alloc, number - 1)
    }

    /// Builds the subset at an index, from 0.
    pub(crate) fn subset_at(&self, alloc: Global, index: u16) -> Result<Subset, OutOfMemory>
        requires { index < self.now.subsets }
        ensures { IfOk result (λ s. s ≡ subset_of self.now.columns index) }
    {
        let fields = self.fields(index).rest(alloc)?;
        Ok(Subset { fields })
    }

    pub(crate) fn fields(&self, index: u16) -> Fields<'_>
        requires { index < self.now.subsets }
        ensures { result ≡ (subset_of self.now.columns index).fields }
    {
        Fields {
            source: FieldSource::Compressed(self.column_fields(index)),
            room: self.places.len(),
        }
    }

    pub(crate) fn put(
        &self,
        alloc: Global,
        index: u16,
        sink: &mut BitSink,
    ) -> Result<(), OutOfMemory>
        requires { index < self.now.subsets }
        ensures put { OnOk result (sink.new
            ≡ sink.old ++ plain (subset_of self.now.columns index).fields) }
        ensures kept { Extends sink.old sink.new }
    {
        self.column_fields(index).put(alloc, sink)
    }

    /// Returns the fields of these descriptors in the subset at an index, from 0, if the columns
    /// were found for this list.
    pub(crate) fn chosen(&self, asked: &[u16], index: u16) -> Option<ColumnFields<'_>>
        requires { index < self.now.subsets }
        ensures { IfSome result (λ fields.
            fields ≡ chosen asked.now (subset_of self.now.columns index).fields) }
    {
        if self.chosen.asked.as_slice() != asked {
            return None;
        }
        Some(ColumnFields {
            octets: self.octets,
            subsets: self.subsets,
            places: self.chosen.places.as_slice(),
            index,
        })
    }

    /// Returns the columns of these descriptors, if they were found for this list.
    pub(crate) fn chosen_columns(&self, asked: &[u16]) -> Option<ChosenColumns<'_>>
        ensures { IfSome result
            (HaveChosen asked.now (subsets_from 0 self.now.subsets self.now.columns)) }
    {
        if self.chosen.asked.as_slice() != asked {
            return None;
        }
        Some(ChosenColumns {
            octets: self.octets,
            subsets: self.subsets,
            places: self.chosen.places.as_slice(),
        })
    }

    fn column_fields(&self, index: u16) -> ColumnFields<'_>
        requires { index < self.now.subsets }
        ensures { result ≡ (subset_of self.now.columns index).fields }
    {
        ColumnFields {
            octets: self.octets,
            subsets: self.subsets,
            places: self.places.as_slice(),
            index,
        }
    }
}

/// Finds the columns and those of the descriptors asked for; after an error the reader may have
/// moved.
fn places_for(
    alloc: Global,
    template: &Template,
    asked: &[u16],
    reader: &mut BitReader,
    subsets: u16,
) -> Result<(Vec<ColumnStart>, ChosenPlaces), Failure<DataFault>>
    ensures exact { Gives {Y = Ahead} (λ found. record {
      index = record {
        subsets = subsets;
        columns = map (column_from reader.old.octets subsets) found.0.items;
      };
      rest = left reader.new;
    }) result (index_at template.now subsets (left reader.old)) }
    ensures stand { IfOk result (λ found. AllOpen reader.old.octets subsets found.0.items) }
    ensures chosen { IfOk result (λ found. AreChosen found.0.items found.1) }
    ensures octets { reader.new.octets ≡ reader.old.octets }
    ensures onward { reader.old.place ≤ reader.new.place }
{
    let places = column_places(alloc, template, reader, subsets)?;
    let chosen = choose_places(alloc, asked, &places)?;
    Ok((places, chosen))
}

/// Gathers the places of the columns of the descriptors asked for.
fn choose_places(
    alloc: Global,
    asked: &[u16],
    places: &[ColumnStart],
) -> Result<ChosenPlaces, OutOfMemory>
    ensures { IfOk result (AreChosen places.now) }
{
    let mut chosen = Vec::new(alloc);
    let mut left = places;
    while let Some((place, others)) = left.split_first() {
        if is_listed(asked, place.fxy) {
            chosen.push(*place)?;
        }
        left = others;
    }
    let asked = Vec::from_slice(alloc, asked)?;
    Ok(ChosenPlaces {
        asked: Items::from_vec(asked),
        places: chosen,
    })
}

/// Finds the columns; after an error the reader may have moved.
fn column_places(
    alloc: Global,
    template: &Template,
    reader: &mut BitReader,
    subsets: u16,
) -> Result<Vec<ColumnStart>, Failure<DataFault>>
    ensures exact { Gives {Y = Ahead} (λ places. record {
      index = record {
        subsets = subsets;
        columns = map (column_from reader.old.octets subsets) places.items;
      };
      rest = left reader.new;
    }) result (index_at template.now subsets (left reader.old)) }
    ensures stand { IfOk result (λ places. AllOpen reader.old.octets subsets places.items) }
    ensures octets { reader.new.octets ≡ reader.old.octets }
    ensures onward { reader.old.place ≤ reader.new.place }
{
    let mut places = Vec::new(alloc);
    if subsets == 0 {
        return Ok(places);
    }
    let mut walk = Walk::start(alloc, template, 0)?;
    loop {
        let i = places.len() as u64 + 1;
        match next_place(&mut walk, reader, subsets, i) {
            Err(fault) => return Err(Failure::Fault(fault)),
            Ok(None) => return Ok(places),
            Ok(Some(place)) => places.push(place)?,
        }
    }
}

/// Passes the column of field `i`, or returns `None` at the end.
fn next_place(
    walk: &mut Walk,
    reader: &mut BitReader,
    n: u16,
    i: u64,
) -> Result<Option<ColumnStart>, DataFault>
    requires ready { IsReady walk.old }
    requires some { 0 < n }
    requires few { i ≤ most_items + 1 }
    ensures ok { IfOk result (λ place. PassesPlace n i (walks.left walk.old) reader.old.octets
        (left reader.old) place (walks.left walk.new) (left reader.new)) }
    ensures advances { IfOk result (λ place. OnSome place (WalkAdvances walk.old walk.new)) }
    ensures err { IfErr result (λ fault. columns_at n i (walks.left walk.old) (left reader.old)
        ≡ Err fault) }
    ensures octets { reader.new.octets ≡ reader.old.octets }
    ensures onward { reader.old.place ≤ reader.new.place }
{
    let bit = reader.place();
    let octets = reader.octets();
    let _left = reader.left();
    let step = match walk.next() {
        Err(fault) => return Err(stop_fault(fault, n, i)),
        Ok(step) => step,
    };
    match step {
        Step::End => Ok(None),
        Step::Field(fxy, spec) => {
            within_limit(n, i)?;
            pass_column(reader, spec, n, i)?;
            let head = head_at(octets, bit, spec);
            Ok(Some(ColumnStart {
                fxy,
                spec,
                bit,
                head,
            }))
        }
        Step::Count(fxy, spec) => {
            within_limit(n, i)?;
            let number = pass_factor(reader, spec, n, i)?;
            walk.count(number);
            let head = head_at(octets, bit, spec);
            Ok(Some(ColumnStart {
                fxy,
                spec,
                bit,
                head,
            }))
        }
    }
}

fn within_limit(n: u16, i: u64) -> Result<(), DataFault>
    requires { i ≤ most_items + 1 }
    ensures { result ≡ reading.within_limit n i (Ok tt) }
{
    if i * u64::from(n) > MOST_VALUES {
        return Err(DataFault::TooLarge);
    }
    Ok(())
}

/// Returns the fault if the walk stops; the limit on values comes first.
fn stop_fault(fault: WalkFault, n: u16, i: u64) -> DataFault
    requires { i ≤ most_items + 1 }
    ensures { reading.within_limit {A = ColumnsFound} n i (stopped fault) ≡ Err result }
{
    match within_limit(n, i) {
        Err(past) => past,
        Ok(()) => fault_of(fault),
    }
}

/// Returns the value at an index of the column at a place, if it is a number.
#[inline(always)]
pub(crate) fn number_there(
    octets: &[u8],
    subsets: u16,
    place: ColumnStart,
    index: u16,
) -> Option<u64>
    requires stands { Opens octets.now subsets place }
    requires inside { index < subsets }
    ensures { IfSome result (λ n. Number n
        ≡ get_or (column_from octets.now subsets place).values index (Number 0)) }
{
    let ColumnStart {
        spec,
        bit,
        head,
        ..
    } = place;
    match head {
        None => None,
        Some(head) => {
            let number = number_under(octets, bit, spec, head, index);
            Some(number.unwrap())
        }
    }
}

/// Lends the text at an index of the column at a place, put in `room`. `None` for a number, and for
/// a text of more than 64 octets.
#[inline(always)]
pub(crate) fn text_there<'r>(
    octets: &[u8],
    subsets: u16,
    place: ColumnStart,
    index: u16,
    room: &'r mut [u8; SUBSET_ROOM],
) -> Option<&'r [u8]>
    requires stands { Opens octets.now subsets place }
    requires inside { index < subsets }
    ensures is { IfSome result (λ text. Text text.now
        ≡ get_or (column_from octets.now subsets place).values index (Number 0)) }
    ensures formed { IfSome result (λ text.
        has_form_by place.spec.kind place.spec.width (Text text.now) ≡ true) }
{
    let ColumnStart { spec, bit, .. } = place;
    match spec.kind {
        Kind::Text => lent_text(&mut BitReader::at(octets, bit), spec, index, room),
        _ => None,
    }
}

pub(crate) fn value(
    alloc: Global,
    octets: &[u8],
    subsets: u16,
    place: ColumnStart,
    index: u16,
) -> Result<Raw, OutOfMemory>
    requires stands { Opens octets.now subsets place }
    requires inside { index < subsets }
    ensures is { IfOk result (λ v. v ≡ get_or (column_from octets.now subsets place).values index
        (Number 0)) }
    ensures formed { IfOk result (λ v. has_form_by place.spec.kind place.spec.width v ≡ true) }
{
    let ColumnStart { spec, bit, .. } = place;
    if let Some(number) = number_there(octets, subsets, place, index) {
        return Ok(Raw::Number(number));
    }
    let mut reader = BitReader::at(octets, bit);
    let value = column_value(alloc, &mut reader, spec, index)?;
    Ok(value.unwrap())
}

pub(crate) fn all_subsets(alloc: Global, columns: &Columns) -> Result<Items<Subset>, OutOfMemory>
    ensures { IfOk result (λ subsets. subsets ≡ subsets_from 0 columns.now.subsets
        columns.now.columns) }
{
    let mut subsets = Vec::new(alloc);
    for index in 0..columns.subsets {
        subsets.push(columns.subset_at(alloc, index)?)?;
    }
    Ok(Items::from_vec(subsets))
}
