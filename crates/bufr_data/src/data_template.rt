//! A template with what is known of its subsets.

ghost use Rattle.std.specs.Prelude.{◌≡◌, Bool, List, Ok, IfOk, OnErr};
ghost use Rattle.std.specs.Bool.{OnTrue, OnFalse};
ghost use Rattle.bufr_bits.specs.Ends.{left};
ghost use Rattle.bufr_base.specs.Answers.{Gives};
ghost use Rattle.bufr_fields.specs.declared.field.Subset.{Subset as ASubset};
ghost use Rattle.bufr_data.specs.Data.{subsets_in};

use crate::plain::field_layout::FieldLayout;
use crate::plain::fixed_size::FixedSize;
use crate::plain::index::pass_all;
use crate::subset_index::{SubsetIndex, index_known};
use crate::subsets::read_subsets;
use bufr_base::{Failure, Items, OutOfMemory};
use bufr_bits::BitReader;
use bufr_expand::Template;
use bufr_expand::laws::courses_are_unrollings;
use bufr_fields::{DataFault, Subset};
use std::alloc::Global;
use std::marker::Model;

/// A template for many messages. It keeps the common size of plain subsets, and their layout once
/// that pays. Contracts see the tree.
#[derive(Drop)]
pub struct DataTemplate {
    template: Template,
    fixed_size: FixedSize,
    field_layout: FieldLayout,
}

impl Model for DataTemplate {
    ghost use Rattle.bufr_expand.specs.Trees.{Tree};
    ghost use Rattle.bufr_expand.specs.TreeCodes.{tree_code};
    ghost use Rattle.bufr_data.specs.Plain.Alike.{IsKnown};
    ghost use Rattle.bufr_data.specs.Plain.Layouts.{IsFieldLayout};

    ghost Value = { Tree };

    ghost coded = { tree_code };

    ghost view = { λ t. t.template };

    ghost invariant = { λ t. IsKnown t.template t.fixed_size × IsFieldLayout t.template t.field_layout };
}

impl DataTemplate {
    /// Makes a template with nothing known.
    pub fn new(template: Template) -> DataTemplate
        ensures { result ≡ template }
    {
        DataTemplate {
            template,
            fixed_size: FixedSize::Unasked,
            field_layout: FieldLayout::Unserved,
        }
    }

    /// Shares the template without a copy of its nodes. `OutOfMemory` if the shares are too many to
    /// count.
    pub(crate) fn shared(&self) -> Result<Template, OutOfMemory>
        ensures { IfOk result (λ t. t ≡ self.now) }
    {
        self.template.share()
    }

    /// Reads the subsets of a message like `read_subsets`.
    pub fn read(
        &self,
        alloc: Global,
        compressed: bool,
        count: u16,
        reader: &mut BitReader,
    ) -> Result<Items<Subset>, Failure<DataFault>>
        ensures exact { Gives {Y = List ASubset × List Bool}
            (λ subsets. (subsets, left reader.new)) result
            (subsets_in self.now compressed count (left reader.old)) }
        ensures octets { reader.new.octets ≡ reader.old.octets }
        ensures err { OnErr result (reader.new ≡ reader.old) }
    {
        read_subsets(alloc, &self.template, compressed, count, reader)
    }

    /// Passes the subsets of a message if they are plain and have a known common size. Else returns
    /// false.
    #[inline(always)]
    pub fn pass_alike(
        &mut self,
        alloc: Global,
        compressed: bool,
        reader: &mut BitReader,
        count: u16,
    ) -> Result<bool, OutOfMemory>
        ensures passed { IfOk result (λ passed. OnTrue passed ((subsets : List ASubset)
            × (subsets_in self.old compressed count (left reader.old)
            ≡ Ok (subsets, left reader.new)))) }
        ensures octets { reader.new.octets ≡ reader.old.octets }
        ensures unmoved { IfOk result (λ passed. OnFalse passed (reader.new ≡ reader.old)) }
        ensures err { OnErr result (reader.new ≡ reader.old) }
        ensures same { self.new ≡ self.old }
    {
        courses_are_unrollings();
        let _left = reader.left();
        if compressed || count == 0 {
            return Ok(false);
        }
        let Some(each) = self.fixed_size.find_once(alloc, &self.template, reader)? else {
            return Ok(false);
        };
        Ok(pass_all(each, reader, count))
    }

    /// Indexes the subsets of a message like `SubsetIndex::index`, and keeps what it learns for the
    /// next one.
    pub fn index<'a>(
        &mut self,
        alloc: Global,
        compressed: bool,
        reader: &mut BitReader<'a>,
        count: u16,
    ) -> Result<SubsetIndex<'a>, Failure<DataFault>>
        ensures exact { Gives {Y = List ASubset × List Bool} (λ subsets. (subsets, left reader.new))
            result (subsets_in self.old compressed count (left reader.old)) }
        ensures octets { reader.new.octets ≡ reader.old.octets }
        ensures err { OnErr result (reader.new ≡ reader.old) }
        ensures same { self.new ≡ self.old }
    {
        self.index_for(alloc, &[], compressed, reader, count)
    }

    /// Indexes the subsets like `index`, and finds the places of the fields of some descriptors,
    /// given by their 16 bits, for `SubsetIndex::chosen`. It keeps the places of the first such
    /// list.
    pub fn index_for<'a>(
        &mut self,
        alloc: Global,
        asked: &[u16],
        compressed: bool,
        reader: &mut BitReader<'a>,
        count: u16,
    ) -> Result<SubsetIndex<'a>, Failure<DataFault>>
        ensures exact { Gives {Y = List ASubset × List Bool} (λ subsets. (subsets, left reader.new))
            result (subsets_in self.old compressed count (left reader.old)) }
        ensures octets { reader.new.octets ≡ reader.old.octets }
        ensures err { OnErr result (reader.new ≡ reader.old) }
        ensures same { self.new ≡ self.old }
    {
        let alike = if compressed || count == 0 {
            None
        } else {
            self.fixed_size.find_once(alloc, &self.template, reader)?
        };
        let template = self.template.share()?;
        let wants_places = !compressed && count > 0 && !asked.is_empty();
        let layout = if alike.is_some() || wants_places {
            self.field_layout
                .serve(alloc, &self.template, asked, count)?
        } else {
            None
        };
        index_known(
            alloc, template, asked, alike, layout, compressed, reader, count,
        )
    }
}
