//! Finds the plain subsets of a message.

ghost use Rattle.std.specs.Prelude.{◌≡◌, ◌+◌, ◌-◌, ◌*◌, ◌^◌, ◌<◌, ◌≤◌, map, length, slice_get, false, Bool, List};
ghost use Rattle.std.specs.Bool.{OnTrue, OnFalse};
ghost use Rattle.std.specs.Prelude.{Some, IfOk, IfErr, IfSome, OnErr, drop};
ghost use Rattle.bufr_bits.specs.Ends.{left};
ghost use Rattle.bufr_base.specs.Answers.{Gives, Fails};
ghost use Rattle.bufr_expand.specs.Courses.{course};
ghost use Rattle.bufr_expand.specs.Limits.{most_items};
ghost use Rattle.bufr_fields.specs.declared.field.Subset.{Subset};
ghost use Rattle.bufr_data.specs.Plain.Alike.{IsAlike};
ghost use Rattle.bufr_data.specs.Chosen.{chosen};
ghost use Rattle.bufr_data.specs.Data.{subsets_in};
ghost use Rattle.bufr_data.specs.Plain.{fields_at};
ghost use Rattle.bufr_data.specs.Plain.Starts.{PassesSubset, AllBegin, subset_from};

use crate::fields::{FieldSource, Fields};
use crate::plain::fields::{Due, PlainFields};
use crate::plain::fixed_size::Alike;
use crate::plain::laid_fields::LaidFields;
use crate::plain::laid_reader::LaidReader;
use crate::plain::layout::Layout;
use crate::plain::pass::pass_subset;
use crate::plain::placed_fields::PlacedFields;
use crate::plain::read::FIELDS_WITH_ROOM;
use crate::plain::read_each::of_subset;
use crate::plain::starts::{Spacing, Starts};
use bufr_base::{Failure, OutOfMemory};
use bufr_bits::BitReader;
use bufr_expand::laws::courses_are_unrollings;
use bufr_expand::{MOST_ITEMS, Template, Walk};
use bufr_fields::DataFault;
use std::alloc::Global;
use std::marker::Model;
use std::rc::Rc;

/// The most octets whose bits fit in 64 bits; no machine has more.
pub(crate) const MOST_COUNTED_OCTETS: usize = usize::MAX / 8;

/// A start of a subset: its first bit, the bit after its last, and the items of the message before
/// it.
#[derive(Clone, Copy, PartialEq)]
pub(crate) struct SubsetStart {
    pub(crate) bit: u128,
    pub(crate) end: u128,
    pub(crate) used: u64,
}

/// An index of the plain subsets in some octets, with their layout if there is one.
#[derive(Drop)]
pub(crate) struct PlainSubsets<'a> {
    pub(crate) octets: &'a [u8],
    pub(crate) template: Template,
    pub(crate) layout: Option<Rc<Layout>>,
    pub(crate) starts: Starts,
}

impl<'a> Model for PlainSubsets<'a> {
    ghost use Rattle.std.specs.Prelude.{List, map, IfSome};
    ghost use Rattle.bufr_fields.specs.declared.field.Subset.{Subset};
    ghost use Rattle.bufr_data.specs.Plain.Layouts.{IsLaid};
    ghost use Rattle.bufr_data.specs.Plain.Starts.{AllBegin, subset_from};

    ghost Value = { List Subset };

    ghost view = { λ s. map (subset_from s.octets.now s.template) s.starts };

    ghost invariant = { λ s. AllBegin s.octets.now s.template s.starts
        × IfSome s.layout (λ layout. IsLaid s.template layout.value) };
}

impl<'a> PlainSubsets<'a> {
    /// Returns the fields of the subset at an index, from 0: by the layout, without memory, or by a
    /// walk.
    #[inline(always)]
    pub(crate) fn fields(&self, alloc: Global, index: usize) -> Result<Fields<'_>, OutOfMemory>
        requires { index < length self.now }
        ensures { IfOk result (λ fields.
            slice_get self.now index ≡ Some (record { fields = fields })) }
    {
        let start = self.starts.at(index);
        match &self.layout {
            Some(layout)
                if layout.is_whole
                    && self.octets.len() <= MOST_COUNTED_OCTETS
                    && layout.has_room(start.used) => {
                let reader = LaidReader::at(self.octets, start.bit as u64);
                let fields = layout.fields.as_slice();
                let laid = LaidFields { fields, reader };
                Ok(Fields {
                    source: FieldSource::Laid(laid),
                    room: fields.len(),
                })
            }
            _ => {
                let room = self.template.nodes().min(FIELDS_WITH_ROOM);
                let walk = Walk::start(alloc, &self.template, start.used)?;
                let reader = BitReader::at(self.octets, start.bit);
                let met = PlainFields {
                    walk,
                    reader,
                    due: Due::Step,
                    laid: None,
                    at_turns: false,
                };
                Ok(Fields {
                    source: FieldSource::Plain(met),
                    room,
                })
            }
        }
    }
}

impl<'a> PlainSubsets<'a> {
    /// Returns the fields of these descriptors in the subset at an index, from 0, if the layout was
    /// made for this list.
    #[inline(always)]
    pub(crate) fn chosen(&self, asked: &[u16], index: usize) -> Option<PlacedFields<'_>>
        requires { index < length self.now }
        ensures { IfSome result (λ fields. IfSome (slice_get self.now index) (λ s.
            fields ≡ chosen asked.now s.fields)) }
    {
        courses_are_unrollings();
        let start = self.starts.at(index);
        match &self.layout {
            Some(layout)
                if self.octets.len() <= MOST_COUNTED_OCTETS
                    && layout.has_room(start.used)
                    && layout.asked.as_slice() == asked => {
                let first = start.bit as u64;
                let reader = LaidReader::at(self.octets, first);
                let places = layout.places.as_slice();
                Some(PlacedFields { places, reader })
            }
            _ => None,
        }
    }
}

/// Finds the starts of `count` subsets, at once if their common size is known.
pub(crate) fn starts_of(
    alloc: Global,
    template: &Template,
    alike: Option<Alike>,
    reader: &mut BitReader,
    count: u16,
) -> Result<Starts, Failure<DataFault>>
    requires { IfSome alike (IsAlike template.now) }
    ensures exact { Gives {Y = List Subset × List Bool}
        (λ starts. (map (subset_from reader.old.octets template.now) starts, left reader.new))
        result (subsets_in template.now false count (left reader.old)) }
    ensures stand { IfOk result (λ starts. AllBegin reader.old.octets template.now starts) }
    ensures octets { reader.new.octets ≡ reader.old.octets }
    ensures err { OnErr result (reader.new ≡ reader.old) }
{
    courses_are_unrollings();
    let bit = bit_of(reader);
    let octets = reader.octets().len();
    match alike {
        Some(each) if octets <= MOST_COUNTED_OCTETS && pass_all(each, reader, count) => {
            Ok(Starts {
                spacing: Spacing::Even(bit as u64, each, count as usize),
            })
        }
        _ => {
            let answer = starts_in_turn(alloc, template, alike, reader, count);
            if answer.is_err() {
                reader.return_to(bit);
            }
            answer
        }
    }
}

/// Passes `count` subsets of a common size, if all bits are there and the items within the limit.
#[inline(always)]
pub(crate) fn pass_all(each: Alike, reader: &mut BitReader, count: u16) -> bool
    ensures few { OnTrue result (count * each.items ≤ most_items) }
    ensures enough { OnTrue result (count * each.bits ≤ length (left reader.old)) }
    ensures rest { OnTrue result
        (left reader.new ≡ drop (count * each.bits) (left reader.old)) }
    ensures octets { reader.new.octets ≡ reader.old.octets }
    ensures unmoved { OnFalse result (reader.new ≡ reader.old) }
{
    count as u128 * each.items as u128 <= MOST_ITEMS as u128
        && reader.pass(count as u128 * each.bits as u128)
}

/// Finds the start of a single subset; after an error the reader may have moved.
fn only_start(
    alloc: Global,
    template: &Template,
    reader: &mut BitReader,
) -> Result<Starts, Failure<DataFault>>
    requires counted { 8 * length reader.old.octets < 2 ^ 64 }
    ensures exact { Gives {Y = List Subset × List Bool}
        (λ starts. (map (subset_from reader.old.octets template.now) starts, left reader.new))
        result (subsets_in template.now false 1 (left reader.old)) }
    ensures stand { IfOk result (λ starts. AllBegin reader.old.octets template.now starts) }
    ensures octets { reader.new.octets ≡ reader.old.octets }
    ensures onward { reader.old.place ≤ reader.new.place }
{
    let bit = bit_of(reader);
    let items = pass_subset(alloc, template, reader, 0)?;
    let end = bit_of(reader);
    let bits = (end - bit) as u64;
    let each = Alike { bits, items };
    Ok(Starts {
        spacing: Spacing::Even(bit as u64, each, 1),
    })
}

/// Finds the starts one by one; after an error the reader may have moved.
fn starts_in_turn(
    alloc: Global,
    template: &Template,
    alike: Option<Alike>,
    reader: &mut BitReader,
    count: u16,
) -> Result<Starts, Failure<DataFault>>
    requires { IfSome alike (IsAlike template.now) }
    ensures exact { Gives {Y = List Subset × List Bool}
        (λ starts. (map (subset_from reader.old.octets template.now) starts, left reader.new))
        result (subsets_in template.now false count (left reader.old)) }
    ensures stand { IfOk result (λ starts. AllBegin reader.old.octets template.now starts) }
    ensures octets { reader.new.octets ≡ reader.old.octets }
    ensures onward { reader.old.place ≤ reader.new.place }
{
    if count == 1 && reader.octets().len() <= MOST_COUNTED_OCTETS {
        return only_start(alloc, template, reader);
    }
    let mut starts = Vec::new(alloc);
    let mut used = 0;
    for index in 0..count {
        let bit = bit_of(reader);
        let items = pass_one(alloc, template, reader, alike, index as u64 + 1, used)?;
        let end = bit_of(reader);
        starts.push(SubsetStart { bit, end, used })?;
        used = items;
    }
    Ok(Starts {
        spacing: Spacing::Listed(starts),
    })
}

/// Passes one subset and returns the items of the message up to its end. It walks a subset of known
/// size only to find its fault.
fn pass_one(
    alloc: Global,
    template: &Template,
    reader: &mut BitReader,
    alike: Option<Alike>,
    number: u64,
    used: u64,
) -> Result<u64, Failure<DataFault>>
    requires { IfSome alike (IsAlike template.now) }
    ensures ok { IfOk result (λ items. PassesSubset
        (fields_at 1 1 (course template.now used) (left reader.old)) items (left reader.new)) }
    ensures err { IfErr result (λ e. Fails e
        (fields_at number 1 (course template.now used) (left reader.old))) }
    ensures octets { reader.new.octets ≡ reader.old.octets }
    ensures onward { reader.old.place ≤ reader.new.place }
{
    courses_are_unrollings();
    match alike {
        Some(each)
            if used <= MOST_ITEMS
                && each.items <= MOST_ITEMS - used
                && reader.pass(each.bits as u128) => { Ok(used + each.items) }
        _ => match pass_subset(alloc, template, reader, used) {
            Ok(items) => Ok(items),
            Err(failure) => Err(of_subset(number, failure)),
        },
    }
}

fn bit_of(reader: &BitReader) -> u128
    ensures is { result ≡ reader.now.place }
    ensures inside { result ≤ 8 * length reader.now.octets }
    ensures all { result + length (left reader.now) ≡ 8 * length reader.now.octets }
{
    let _left = reader.left();
    let _octets = reader.octets().len();
    reader.place()
}
