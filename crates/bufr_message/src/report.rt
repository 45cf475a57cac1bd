//! Reports and their canonical messages.

ghost use Rattle.std.specs.Prelude.{◌≡◌, ℕ, List, IfOk, Ok};
ghost use Rattle.std.specs.List.{AllByRecursion};
ghost use Rattle.bufr_base.specs.Answers.{Gives};
ghost use Rattle.bufr_tables.specs.Entries.{Entries};
ghost use Rattle.bufr_message.specs.Messages.{Spells};
ghost use Rattle.bufr_message.specs.Encodings.{code};
ghost use Rattle.bufr_message.specs.Reports.{reports_of, with_parts, without_local, with_no_local};
ghost use Rattle.bufr_message.specs.Reports.{alone, IsCanonical, IsUnder};

use crate::encoding::octets_of;
use crate::laws::{reports_have_canonical_messages, written_messages_are_spelt};
use crate::ranges::numbers_fit;
use bufr_base::{Failure, Items, OutOfMemory};
use bufr_data::Subset;
use bufr_sections::{EncodeFault, Head, LentSections, Message};
use bufr_tables::{Fxy, Tables};
use std::alloc::Global;
use std::slice;

/// A report's section 1, without its octets for local use.
#[derive(Debug, Drop, PartialEq)]
pub struct ReportHead {
    /// The originating centre.
    pub centre: u16,
    /// The originating sub-centre.
    pub sub_centre: u16,
    /// The update sequence number; 0 for an original message.
    pub update: u8,
    /// The data category (Table A).
    pub category: u8,
    /// The international data sub-category.
    pub international: u8,
    /// The local data sub-category.
    pub local_category: u8,
    /// The version of the master tables.
    pub master_version: u8,
    /// The version of the local tables.
    pub local_version: u8,
    /// The year.
    pub year: u16,
    /// The month.
    pub month: u8,
    /// The day of the month.
    pub day: u8,
    /// The hour.
    pub hour: u8,
    /// The minute.
    pub minute: u8,
    /// The second.
    pub second: u8,
}

impl ReportHead {
    /// Copies a head without its octets for local use.
    pub fn of_head(head: &Head) -> ReportHead
        ensures { result ≡ without_local head.now }
    {
        ReportHead {
            centre: head.centre,
            sub_centre: head.sub_centre,
            update: head.update,
            category: head.category,
            international: head.international,
            local_category: head.local_category,
            master_version: head.master_version,
            local_version: head.local_version,
            year: head.year,
            month: head.month,
            day: head.day,
            hour: head.hour,
            minute: head.minute,
            second: head.second,
        }
    }

    /// Returns a head without octets for local use.
    pub(crate) fn with_no_local(&self, alloc: Global) -> Head
        ensures { result ≡ with_no_local self.now }
    {
        Head {
            centre: self.centre,
            sub_centre: self.sub_centre,
            update: self.update,
            category: self.category,
            international: self.international,
            local_category: self.local_category,
            master_version: self.master_version,
            local_version: self.local_version,
            year: self.year,
            month: self.month,
            day: self.day,
            hour: self.hour,
            minute: self.minute,
            second: self.second,
            local: Items::from_vec(Vec::new(alloc)),
        }
    }
}

/// A report: one subset of a message, with all that an archive keeps of the sections.
#[derive(Debug, Drop, PartialEq)]
pub struct Report {
    /// Section 1 without its octets for local use.
    pub head: ReportHead,
    /// The flag for observed data.
    pub observed: bool,
    /// The descriptors of section 3.
    pub descriptors: Items<Fxy>,
    /// The fields.
    pub subset: Subset,
}

/// Splits a message into its reports, one for each subset, in order.
pub fn reports(alloc: Global, message: Message) -> Result<Vec<Report>, OutOfMemory>
    ensures are { IfOk result (λ found. found.items ≡ reports_of message) }
    ensures under { (tables : Entries) (octets : List ℕ) (slack : ℕ)
        → Spells tables message octets slack
        → IfOk result (λ found. AllByRecursion (IsUnder tables) found.items) }
{
    reports_have_canonical_messages();
    reports_of(alloc, message)
}

/// Splits a message for `reports`.
fn reports_of(alloc: Global, message: Message) -> Result<Vec<Report>, OutOfMemory>
    ensures { IfOk result (λ found. found.items ≡ reports_of message) }
{
    let Message {
        head,
        section2: _,
        observed,
        compressed: _,
        descriptors,
        subsets,
    } = message;
    let mut found = Vec::new(alloc);
    for subset in subsets.into_vec() {
        found.push(report_with(alloc, &head, observed, descriptors.as_slice(), subset)?)?;
    }
    Ok(found)
}

pub(crate) fn report_with(
    alloc: Global,
    head: &Head,
    observed: bool,
    descriptors: &[Fxy],
    subset: Subset,
) -> Result<Report, OutOfMemory>
    ensures { IfOk result (λ r. r ≡ with_parts head.now observed descriptors.now subset) }
{
    let descriptors = Items::from_vec(Vec::from_slice(alloc, descriptors)?);
    Ok(Report {
        head: ReportHead::of_head(head),
        observed,
        descriptors,
        subset,
    })
}

/// Returns the canonical message of a report: edition 4, no octets for local use, no section 2, and
/// the subset alone, not compressed. For a report that has none, the first fault, as of `encode`.
pub fn canonical(
    alloc: Global,
    tables: &Tables,
    report: &Report,
) -> Result<Vec<u8>, Failure<EncodeFault>>
    ensures canonical { IfOk result (λ v. IsCanonical tables.now report.now v.items) }
    ensures under { (octets : List ℕ) → IsCanonical tables.now report.now octets
        → Gives (λ v. v.items) result (Ok octets) }
    ensures exact { Gives (λ v. v.items) result (code tables.now (alone report.now)) }
{
    written_messages_are_spelt();
    let head = report.head.with_no_local(alloc);
    let none = None;
    let sections = LentSections {
        head: &head,
        section2: &none,
        observed: report.observed,
        compressed: false,
        descriptors: report.descriptors.as_slice(),
    };
    let subsets = slice::from_ref(&report.subset);
    numbers_fit(&sections, subsets);
    octets_of(alloc, tables, &sections, subsets)
}
