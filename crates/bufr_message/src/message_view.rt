//! Views of messages, which build one subset at a time.

ghost use Rattle.std.specs.Prelude.{◌≡◌, ℕ, ◌-◌, ◌/◌, ◌<◌, ◌≤◌, List, length, slice_get, Some, IfOk};
ghost use Rattle.std.specs.Prelude.{option_map, IfSome, Ok, OnErr};
ghost use Rattle.bufr_bits.specs.Bits.{bits};
ghost use Rattle.bufr_base.specs.Answers.{Gives, result_map};
ghost use Rattle.bufr_tables.specs.Entries.{Entries};
ghost use Rattle.bufr_fields.specs.declared.field.Subset.{Subset};
ghost use Rattle.bufr_data.specs.Chosen.{HaveChosen, chosen};
ghost use Rattle.bufr_data.specs.Data.{subsets_in};
ghost use Rattle.bufr_data.specs.Kept.{AreKept};
ghost use Rattle.bufr_sections.specs.declared.message.Decoded.{Decoded};
ghost use Rattle.bufr_sections.specs.Sections.{descriptors_of, envelope_of};
ghost use Rattle.bufr_sections.specs.SectionsRead.{envelope, message_lent};
ghost use Rattle.bufr_message.specs.Summary.{summary, summary_under};
ghost use Rattle.bufr_message.specs.Kept.{message_under};
ghost use Rattle.bufr_message.specs.Messages.{Spells, data_or, message_of, message_with};
ghost use Rattle.bufr_message.specs.OwnBits.{HaveRoom, spelt_alone, AddsOwn};
ghost use Rattle.bufr_message.specs.Reports.{reports_of, IsUnder};
ghost use Rattle.bufr_message.specs.Views.{AreReadFrom};

use crate::alone::{are_few, if_each_alone};
use crate::kept::make_octets_first;
use crate::laws::{reports_have_canonical_messages, sections_are_spelt};
use crate::own_bits::put_alone;
use crate::report::{Report, report_with};
use crate::summary::Summary;
use bufr_base::{Failure, Items, OutOfMemory};
use bufr_bits::{BitReader, BitSink};
use bufr_data::laws::data_hold_subsets;
use bufr_data::{
    CachedTemplate, ChosenColumns, ChosenFields, DataFault, DataTemplate, Fields, SUBSET_ROOM,
    Subset, SubsetIndex,
};
use bufr_sections::{
    Decoded, Envelope, Head, LentSections, Message, Refused, SectionsInPlace, are_bare,
    find_sections, read_sections,
};
use bufr_tables::{Fxy, Tables};
use std::alloc::Global;
use std::marker::Model;
use std::rc::Rc;

/// The first capacity for the octets of a long or compressed subset.
const OCTETS_WITH_ROOM: usize = 64;

/// A view of a message as read, which builds a subset only on request. Contracts see what `decode`
/// returns.
#[derive(Drop)]
pub struct View<'a> {
    octets: &'a [u8],
    sections: Envelope<'a>,
    descriptors: Rc<Items<Fxy>>,
    subsets: SubsetIndex<'a>,
    slack_octets: u64,
}

#[derive(Drop)]
struct Built {
    descriptors: Items<Fxy>,
    subsets: Items<Subset>,
}

impl<'a> Model for View<'a> {
    ghost use Rattle.bufr_sections.specs.declared.message.Decoded.{Decoded};
    ghost use Rattle.bufr_message.specs.Views.{IsViewOf};

    ghost Value = { Decoded };

    ghost view = { λ v. record {
      message = record {
        head = v.sections.head;
        section2 = v.sections.section2;
        observed = v.sections.observed;
        compressed = v.sections.compressed;
        descriptors = v.descriptors.value;
        subsets = v.subsets;
      };
      slack_octets = v.slack_octets;
    } };

    // The sections come from the octets, and each value fits its bits.
    ghost invariant = { λ v. IsViewOf v.octets.now v.sections v.descriptors.value v.subsets };
}

impl<'a> View<'a> {
    /// Returns the number of reports, one for each subset.
    pub fn count(&self) -> usize
        ensures { result ≡ length self.now.message.subsets }
    {
        self.subsets.count()
    }

    /// Returns the slack, as in `Decoded`.
    pub fn slack(&self) -> u64
        ensures { result ≡ self.now.slack_octets }
    {
        self.slack_octets
    }

    /// Returns section 1.
    pub fn head(&self) -> &Head
        ensures { result.now ≡ self.now.message.head }
    {
        &self.sections.head
    }

    /// Lends sections 1 to 3.
    pub fn sections(&self) -> LentSections<'_>
        ensures { message_lent result self.now.message.subsets ≡ self.now.message }
    {
        LentSections {
            head: &self.sections.head,
            section2: &self.sections.section2,
            observed: self.sections.observed,
            compressed: self.sections.compressed,
            descriptors: self.descriptors.as_slice(),
        }
    }

    /// Builds the subset at an index, from 0.
    pub fn subset(&self, alloc: Global, index: usize) -> Result<Subset, OutOfMemory>
        requires { index < length self.now.message.subsets }
        ensures { IfOk result (λ s. slice_get self.now.message.subsets index ≡ Some s) }
    {
        self.subsets.subset(alloc, index)
    }

    /// Returns the fields of the subset at an index, from 0, one at a time.
    // A call would move the reader of fields through memory.
    #[inline(always)]
    pub fn fields(&self, alloc: Global, index: usize) -> Result<Fields<'_>, OutOfMemory>
        requires { index < length self.now.message.subsets }
        ensures { IfOk result (λ fields.
            slice_get self.now.message.subsets index ≡ Some (record { fields = fields })) }
    {
        self.subsets.fields(alloc, index)
    }

    /// Returns the fields of these elements, given by their 16 bits, of the subset at an index,
    /// from 0. `None` if the message's reader was made for another list, or has no places of the
    /// fields.
    #[inline(always)]
    pub fn chosen(&self, asked: &[u16], index: usize) -> Option<ChosenFields<'_>>
        requires { index < length self.now.message.subsets }
        ensures { IfSome result (λ fields. IfSome (slice_get self.now.message.subsets index) (λ s.
            fields ≡ chosen asked.now s.fields)) }
    {
        self.subsets.chosen(asked, index)
    }

    /// Returns the columns of these elements, given by their 16 bits. `None` for plain data, or if
    /// the message's reader was made for another list.
    pub fn chosen_columns(&self, asked: &[u16]) -> Option<ChosenColumns<'_>>
        ensures { IfSome result (HaveChosen asked.now self.now.message.subsets) }
    {
        self.subsets.chosen_columns(asked)
    }

    /// Builds the report of this number, from 1.
    pub fn report(&self, alloc: Global, number: usize) -> Result<Report, OutOfMemory>
        requires first { 1 ≤ number }
        requires last { number ≤ length self.now.message.subsets }
        ensures is { IfOk result (λ r.
            slice_get (reports_of self.now.message) (number - 1) ≡ Some r) }
        ensures under { (tables : Entries) (octets : List ℕ) (slack : ℕ)
            → Spells tables self.now.message octets slack
            → IfOk result (IsUnder tables) }
    {
        reports_have_canonical_messages();
        let subset = self.subsets.subset(alloc, number - 1)?;
        report_with(
            alloc,
            &self.sections.head,
            self.sections.observed,
            self.descriptors.as_slice(),
            subset,
        )
    }

    /// Lends the octets if they are the canonical message of their one report.
    pub fn own(&self) -> Option<&'a [u8]>
        ensures one { IfSome result (λ own. length self.now.message.subsets ≡ 1) }
        ensures is { IfSome result (λ own. option_map spelt_alone
            (slice_get (reports_of self.now.message) 0) ≡ Some (Some own.now)) }
    {
        if self.sections.count != 1 || self.sections.compressed {
            return None;
        }
        let contents = self.sections.contents;
        if self.subsets.lent(0)? != contents {
            return None;
        }
        if !are_bare(self.octets, &self.sections(), contents) {
            return None;
        }
        Some(self.octets)
    }

    /// Returns the canonical message of the report at an index, from 0, as `canonical_of_read`
    /// does. Builds no subset.
    pub fn canonical(&self, alloc: Global, index: usize) -> Result<Option<Vec<u8>>, OutOfMemory>
        requires { index < length self.now.message.subsets }
        ensures { IfOk result (λ found.
            option_map spelt_alone (slice_get (reports_of self.now.message) index)
            ≡ Some (option_map (λ v. v.items) found)) }
    {
        let mut octets = Vec::new(alloc);
        if !self.put_canonical(alloc, index, &mut octets)? {
            return Ok(None);
        }
        Ok(Some(octets))
    }

    /// Adds the canonical message of the report at an index, from 0, and returns whether there is
    /// one.
    pub fn put_canonical(
        &self,
        alloc: Global,
        index: usize,
        out: &mut Vec<u8>,
    ) -> Result<bool, OutOfMemory>
        requires { index < length self.now.message.subsets }
        ensures put { IfOk result (λ there.
            AddsOwn (slice_get (reports_of self.now.message) index)
            out.old.items there out.new.items) }
        ensures err { OnErr result (out.new.items ≡ out.old.items) }
    {
        if let Some(own) = self.own() {
            out.extend_from_slice(own)?;
            return Ok(true);
        }
        let head = &self.sections.head;
        let observed = self.sections.observed;
        let descriptors = self.descriptors.as_slice();
        let mut room = [0; SUBSET_ROOM];
        if let Some(contents) = self.subsets.filled_octets(index, &mut room) {
            return put_alone(alloc, head, observed, descriptors, contents, out);
        }
        let mut sink = BitSink::with_capacity(alloc, OCTETS_WITH_ROOM)?;
        self.subsets.put(alloc, index, &mut sink)?;
        sink.fill_octet();
        let contents = sink.into_bytes();
        put_alone(alloc, head, observed, descriptors, &contents, out)
    }

    pub(crate) fn into_decoded(self, alloc: Global) -> Result<Decoded, OutOfMemory>
        ensures { IfOk result (λ d. d ≡ self.entry) }
    {
        let built = self.built(alloc)?;
        Ok(self.decoded_with(built))
    }

    fn built(&self, alloc: Global) -> Result<Built, OutOfMemory>
        ensures descriptors { IfOk result (λ b. b.descriptors ≡ self.now.message.descriptors) }
        ensures subsets { IfOk result (λ b. b.subsets ≡ self.now.message.subsets) }
    {
        let subsets = all_subsets(alloc, &self.subsets)?;
        let descriptors = Vec::from_slice(alloc, self.descriptors.as_slice())?;
        Ok(Built {
            descriptors: Items::from_vec(descriptors),
            subsets,
        })
    }

    fn decoded_with(self, built: Built) -> Decoded
        requires descriptors { built.descriptors ≡ self.message.descriptors }
        requires subsets { built.subsets ≡ self.message.subsets }
        ensures { result ≡ self.entry }
    {
        Decoded {
            message: Message {
                head: self.sections.head,
                section2: self.sections.section2,
                observed: self.sections.observed,
                compressed: self.sections.compressed,
                descriptors: built.descriptors,
                subsets: built.subsets,
            },
            slack_octets: self.slack_octets,
        }
    }
}

fn all_subsets(alloc: Global, subsets: &SubsetIndex<'_>) -> Result<Items<Subset>, OutOfMemory>
    ensures { IfOk result (λ built. built ≡ subsets.now) }
{
    let mut built = Vec::with_capacity(alloc, subsets.count())?;
    for index in 0..subsets.count() {
        built.push(subsets.subset(alloc, index)?)?;
    }
    Ok(Items::from_vec(built))
}

/// Views the message that octets spell, and puts its list of descriptors first.
#[tactic(auto, unfolding(crate::specs::Messages::message_of, crate::specs::Messages::message_in))]
pub(crate) fn view_keeping<'a>(
    alloc: Global,
    tables: &Tables,
    asked: &[u16],
    kept: &mut Vec<CachedTemplate>,
    octets: &'a [u8],
) -> Result<View<'a>, Failure<Refused>>
    requires { AreKept tables.now kept.old.items }
    ensures are { AreKept tables.now kept.new.items }
    ensures exact { Gives (λ d. d) result (message_of tables.now octets.now) }
{
    let sections = read_sections(alloc, octets)?;
    make_octets_first(alloc, tables, kept, sections.listed)?;
    view_in(alloc, asked, &mut kept[0], octets, sections)
}

/// Judges the message that octets spell, and puts its list of descriptors first.
#[tactic(auto, unfolding(crate::specs::Messages::message_of, crate::specs::Messages::message_in))]
pub(crate) fn check_keeping(
    alloc: Global,
    tables: &Tables,
    kept: &mut Vec<CachedTemplate>,
    octets: &[u8],
) -> Result<Summary, Failure<Refused>>
    requires { AreKept tables.now kept.old.items }
    ensures are { AreKept tables.now kept.new.items }
    ensures exact { Gives (λ j. j) result (result_map summary (message_of tables.now octets.now)) }
{
    let sections = match find_sections(octets) {
        Ok(sections) => sections,
        Err(why) => return Err(Failure::Fault(why)),
    };
    make_octets_first(alloc, tables, kept, sections.listed)?;
    check_in(alloc, &mut kept[0], octets, &sections)
}

/// Judges the message of octets with these sections.
#[inline(always)]
fn check_in(
    alloc: Global,
    kept: &mut CachedTemplate,
    octets: &[u8],
    sections: &SectionsInPlace<'_>,
) -> Result<Summary, Failure<Refused>>
    requires list { kept.old.descriptors.value ≡ sections.now.descriptors }
    requires found { envelope_of octets.now ≡ Ok sections.now }
    ensures exact { Gives (λ j. j) result
        (result_map summary (message_under kept.old.template sections.now)) }
    ensures same { kept.new ≡ kept.old }
{
    data_hold_subsets();
    let count = sections.count;
    let mut reader = BitReader::new(sections.contents);
    let template = &mut kept.template;
    let passed = template.pass_alike(alloc, sections.compressed, &mut reader, count)?;
    if passed && are_few(kept.descriptors.as_slice(), sections.contents) {
        let left = reader.left();
        return Ok(Summary {
            subsets: count as u64,
            slack_octets: (left / 8) as u64,
        });
    }
    check_by_index(alloc, kept, octets)
}

/// Judges the message of octets by an index of its subsets.
#[inline(never)]
fn check_by_index(
    alloc: Global,
    kept: &mut CachedTemplate,
    octets: &[u8],
) -> Result<Summary, Failure<Refused>>
    requires list { IfOk (envelope_of octets.now) (λ e. kept.old.descriptors.value ≡ e.descriptors) }
    ensures exact { Gives (λ j. j) result
        (summary_under kept.old.template (envelope_of octets.now)) }
    ensures same { kept.new ≡ kept.old }
{
    let sections = read_sections(alloc, octets)?;
    let (subsets, slack_octets) = subsets_of(alloc, &[], kept, &sections)?;
    Ok(Summary {
        subsets: subsets.count() as u64,
        slack_octets,
    })
}

/// Views the message of sections, with their template.
// A call would copy the sections once more.
#[inline(always)]
pub(crate) fn view_in<'a>(
    alloc: Global,
    asked: &[u16],
    kept: &mut CachedTemplate,
    octets: &'a [u8],
    sections: Envelope<'a>,
) -> Result<View<'a>, Failure<Refused>>
    requires list { kept.old.descriptors.value ≡ descriptors_of sections.listed.now }
    requires read { envelope_of octets.now ≡ Ok (envelope sections) }
    ensures exact { Gives (λ d. d) result
        (message_under kept.old.template (envelope sections.entry)) }
    ensures same { kept.new ≡ kept.old }
{
    sections_are_spelt();
    let descriptors = kept.descriptors.clone()?;
    let (subsets, slack_octets) = subsets_of(alloc, asked, kept, &sections)?;
    Ok(View {
        octets,
        sections,
        descriptors,
        subsets,
        slack_octets,
    })
}

/// Finds the subsets of sections, and the octets after them. Refuses a subset too long alone.
#[inline(always)]
fn subsets_of<'a>(
    alloc: Global,
    asked: &[u16],
    kept: &mut CachedTemplate,
    sections: &Envelope<'a>,
) -> Result<(SubsetIndex<'a>, u64), Failure<Refused>>
    requires { kept.old.descriptors.value ≡ descriptors_of sections.now.listed.now }
    ensures exact { Gives {Y = Decoded}
        (λ x. record { message = message_with (envelope sections.now) x.0; slack_octets = x.1 })
        result (message_under kept.old.template (envelope sections.now)) }
    ensures room { IfOk result (λ x. HaveRoom x.0) }
    ensures count { IfOk result (λ x. length x.0 ≡ sections.now.count) }
    ensures same { kept.new ≡ kept.old }
{
    let (subsets, slack_octets) = index_of(alloc, asked, &mut kept.template, sections)?;
    let descriptors = kept.descriptors.as_slice();
    if are_few(descriptors, sections.contents) {
        return Ok((subsets, slack_octets));
    }
    match if_each_alone(alloc, descriptors, subsets)? {
        Some(subsets) => Ok((subsets, slack_octets)),
        None => Err(Failure::Fault(Refused::Data(DataFault::TooLarge))),
    }
}

#[inline(always)]
fn index_of<'a>(
    alloc: Global,
    asked: &[u16],
    template: &mut DataTemplate,
    sections: &Envelope<'a>,
) -> Result<(SubsetIndex<'a>, u64), Failure<Refused>>
    ensures exact { Gives {Y = List Subset × ℕ} (λ x. (x.0, x.1)) result
        (data_or (result_map (λ found. (found.0, length found.1 / 8))
        (subsets_in template.old sections.now.compressed sections.now.count
        (bits sections.now.contents.now)))) }
    ensures stand { IfOk result (λ x.
        AreReadFrom sections.now.contents.now sections.now.compressed x.0) }
    ensures room { IfOk result (λ x. HaveRoom x.0) }
    ensures count { IfOk result (λ x. length x.0 ≡ sections.now.count) }
    ensures same { template.new ≡ template.old }
{
    data_hold_subsets();
    let mut reader = BitReader::new(sections.contents);
    let compressed = sections.compressed;
    match template.index_for(alloc, asked, compressed, &mut reader, sections.count) {
        Ok(subsets) => Ok((subsets, (reader.left() / 8) as u64)),
        Err(failure) => Err(failure.map(Refused::Data)),
    }
}
