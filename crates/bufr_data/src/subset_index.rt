//! Finds the subsets of a message.

ghost use Rattle.std.specs.Prelude.{◌≡◌, ◌<◌, length, slice_get, Bool, List, Some, IfOk};
ghost use Rattle.std.specs.Prelude.{◌++◌, IfSome, OnErr, OnOk};
ghost use Rattle.bufr_bits.specs.Bits.{bits};
ghost use Rattle.bufr_bits.specs.Ends.{left};
ghost use Rattle.bufr_base.specs.Answers.{Gives};
ghost use Rattle.bufr_fields.specs.declared.field.Subset.{Subset};
ghost use Rattle.bufr_data.specs.Chosen.{HaveChosen, chosen};
ghost use Rattle.bufr_data.specs.Data.{subsets_in};
ghost use Rattle.bufr_data.specs.Plain.{plain};
ghost use Rattle.bufr_data.specs.Plain.Alike.{IsAlike};
ghost use Rattle.bufr_data.specs.Plain.Layouts.{IsLaid};
ghost use Rattle.bufr_data.specs.Shown.{shown};
ghost use Rattle.bufr_data.specs.Subsets.{Extends, filled};

use crate::chosen::{ChosenFields, ChosenSource};
use crate::compressed::chosen_columns::ChosenColumns;
use crate::compressed::index::Columns;
use crate::fields::Fields;
use crate::plain::copy::{SUBSET_ROOM, copy_bits, filled_octets, lent_octets};
use crate::plain::fixed_size::{Alike, FixedSize};
use crate::plain::index::{PlainSubsets, starts_of};
use crate::plain::layout::Layout;
use bufr_base::{Failure, OutOfMemory};
use bufr_bits::{BitReader, BitSink};
use bufr_expand::Template;
use bufr_fields::{DataFault, Subset};
use std::alloc::Global;
use std::marker::Model;
use std::rc::Rc;

/// An index of data, plain or compressed.
#[derive(Drop)]
pub(crate) enum DataIndex<'a> {
    Plain(PlainSubsets<'a>),
    Compressed(Columns<'a>),
}

/// An index of the subsets in some octets, each built on request. Contracts see the list of
/// subsets.
#[derive(Drop)]
pub struct SubsetIndex<'a> {
    data_index: DataIndex<'a>,
}

impl<'a> Model for SubsetIndex<'a> {
    ghost use Rattle.std.specs.Prelude.{List};
    ghost use Rattle.bufr_fields.specs.declared.field.Subset.{Subset};
    ghost use Rattle.bufr_data.specs.Shown.{shown};

    ghost Value = { List Subset };

    ghost view = { λ s. shown s.data_index };
}

impl<'a> SubsetIndex<'a> {
    /// Indexes `count` subsets and moves the reader past them, or returns the first fault like
    /// `read_subsets`. The template is gone after an error.
    pub fn index(
        alloc: Global,
        template: Template,
        compressed: bool,
        reader: &mut BitReader<'a>,
        count: u16,
    ) -> Result<SubsetIndex<'a>, Failure<DataFault>>
        ensures exact { Gives {Y = List Subset × List Bool} (λ subsets. (subsets, left reader.new))
            result (subsets_in template compressed count (left reader.old)) }
        ensures octets { reader.new.octets ≡ reader.old.octets }
        ensures err { OnErr result (reader.new ≡ reader.old) }
    {
        // For one plain subset, finding the common size costs as much as passing it.
        let mut fixed_size = FixedSize::Unasked;
        let alike = if compressed || count < 2 {
            None
        } else {
            fixed_size.find_once(alloc, &template, reader)?
        };
        index_known(alloc, template, &[], alike, None, compressed, reader, count)
    }

    /// Returns the number of subsets.
    pub fn count(&self) -> usize
        ensures { result ≡ length self.now }
    {
        match &self.data_index {
            DataIndex::Plain(subsets) => subsets.starts.len(),
            DataIndex::Compressed(columns) => usize::from(columns.count()),
        }
    }

    /// Builds the subset at an index, from 0.
    pub fn subset(&self, alloc: Global, index: usize) -> Result<Subset, OutOfMemory>
        requires { index < length self.now }
        ensures { IfOk result (λ s. slice_get self.now index ≡ Some s) }
    {
        let fields = self.fields(alloc, index)?.rest(alloc)?;
        Ok(Subset { fields })
    }

    /// Returns the fields of the subset at an index, from 0.
    #[inline(always)]
    pub fn fields(&self, alloc: Global, index: usize) -> Result<Fields<'_>, OutOfMemory>
        requires { index < length self.now }
        ensures { IfOk result (λ fields.
            slice_get self.now index ≡ Some (record { fields = fields })) }
    {
        match &self.data_index {
            DataIndex::Plain(subsets) => subsets.fields(alloc, index),
            DataIndex::Compressed(columns) => {
                let _count = columns.count();
                Ok(columns.fields(index as u16))
            }
        }
    }

    /// Returns the fields with these descriptors, given by their 16 bits, of the subset at an
    /// index, from 0. `None` if the index was made for another list, or has no places of the
    /// fields.
    #[inline(always)]
    pub fn chosen(&self, asked: &[u16], index: usize) -> Option<ChosenFields<'_>>
        requires { index < length self.now }
        ensures { IfSome result (λ fields. IfSome (slice_get self.now index) (λ s.
            fields ≡ chosen asked.now s.fields)) }
    {
        match &self.data_index {
            DataIndex::Plain(subsets) => {
                let fields = subsets.chosen(asked, index)?;
                Some(ChosenFields {
                    source: ChosenSource::Placed(fields),
                })
            }
            DataIndex::Compressed(columns) => {
                let _count = columns.count();
                let fields = columns.chosen(asked, index as u16)?;
                Some(ChosenFields {
                    source: ChosenSource::Compressed(fields),
                })
            }
        }
    }

    /// Returns the columns with these descriptors, given by their 16 bits. `None` for plain data, or
    /// if the index was made for another list.
    pub fn chosen_columns(&self, asked: &[u16]) -> Option<ChosenColumns<'_>>
        ensures { IfSome result (HaveChosen asked.now self.now) }
    {
        match &self.data_index {
            DataIndex::Plain(_) => None,
            DataIndex::Compressed(columns) => columns.chosen_columns(asked),
        }
    }

    /// Appends the bits of the subset at an index, from 0, as plain data. It copies plain bits as
    /// they are.
    pub fn put(&self, alloc: Global, index: usize, sink: &mut BitSink) -> Result<(), OutOfMemory>
        requires { index < length self.now }
        ensures put { IfSome (slice_get self.now index) (λ s.
            OnOk result (sink.new ≡ sink.old ++ plain s.fields)) }
        ensures err { OnErr result (sink.new ≡ sink.old) }
    {
        let len = sink.len_bits();
        let answer = self.put_bits(alloc, index, sink);
        if answer.is_err() {
            sink.cut(len);
        }
        answer
    }

    /// Appends the bits, or a part of them if memory runs out.
    fn put_bits(&self, alloc: Global, index: usize, sink: &mut BitSink) -> Result<(), OutOfMemory>
        requires { index < length self.now }
        ensures put { IfSome (slice_get self.now index) (λ s.
            OnOk result (sink.new ≡ sink.old ++ plain s.fields)) }
        ensures kept { Extends sink.old sink.new }
    {
        match &self.data_index {
            DataIndex::Plain(subsets) => {
                let start = subsets.starts.at(index);
                copy_bits(subsets.octets, start.bit, start.end, sink)
            }
            DataIndex::Compressed(columns) => {
                let _count = columns.count();
                columns.put(alloc, index as u16, sink)
            }
        }
    }

    /// Lends the octets of the plain subset at an index, from 0, if it begins with an octet and
    /// zero bits follow. Else use `put`.
    pub fn lent(&self, index: usize) -> Option<&'a [u8]>
        requires { index < length self.now }
        ensures { IfSome result (λ lent. IfSome (slice_get self.now index) (λ s.
            bits lent.now ≡ filled (plain s.fields))) }
    {
        match &self.data_index {
            DataIndex::Plain(subsets) => {
                let start = subsets.starts.at(index);
                lent_octets(subsets.octets, start.bit, start.end)
            }
            DataIndex::Compressed(_) => None,
        }
    }

    /// Lends the octets of the plain subset at an index, from 0, with zero bits after its last bit:
    /// as `lent`, or in `room`. `None` if neither has them; then use `put`.
    pub fn filled_octets<'b>(
        &'b self,
        index: usize,
        room: &'b mut [u8; SUBSET_ROOM],
    ) -> Option<&'b [u8]>
        requires { index < length self.now }
        ensures { IfSome result (λ lent. IfSome (slice_get self.now index) (λ s.
            bits lent.now ≡ filled (plain s.fields))) }
    {
        match &self.data_index {
            DataIndex::Plain(subsets) => {
                let start = subsets.starts.at(index);
                filled_octets(subsets.octets, start.bit, start.end, room)
            }
            DataIndex::Compressed(_) => None,
        }
    }
}

/// Indexes `count` subsets, given their common size and layout if known.
pub(crate) fn index_known<'a>(
    alloc: Global,
    template: Template,
    asked: &[u16],
    alike: Option<Alike>,
    layout: Option<Rc<Layout>>,
    compressed: bool,
    reader: &mut BitReader<'a>,
    count: u16,
) -> Result<SubsetIndex<'a>, Failure<DataFault>>
    requires known { IfSome alike (IsAlike template) }
    requires laid { IfSome layout (λ l. IsLaid template l.value) }
    ensures exact { Gives {Y = List Subset × List Bool} (λ subsets. (subsets, left reader.new))
        result (subsets_in template compressed count (left reader.old)) }
    ensures octets { reader.new.octets ≡ reader.old.octets }
    ensures err { OnErr result (reader.new ≡ reader.old) }
{
    let data_index = if compressed {
        DataIndex::Compressed(Columns::index_for(alloc, &template, asked, reader, count)?)
    } else {
        let starts = starts_of(alloc, &template, alike, reader, count)?;
        DataIndex::Plain(PlainSubsets {
            octets: reader.octets(),
            template,
            layout,
            starts,
        })
    };
    Ok(SubsetIndex { data_index })
}
