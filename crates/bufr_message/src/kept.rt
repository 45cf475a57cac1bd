//! Lists of descriptors of section 3, brought to the front of those that are kept with their
//! templates.

ghost use Rattle.std.specs.Prelude.{◌≡◌, IfErr, OnOk};
ghost use Rattle.bufr_base.specs.Answers.{Fails};
ghost use Rattle.bufr_expand.specs.Templates.{template};
ghost use Rattle.bufr_data.specs.Kept.{AreKept, IsInFront};
ghost use Rattle.bufr_sections.specs.Sections.{descriptors_of};
ghost use Rattle.bufr_message.specs.Messages.{template_or};

use bufr_base::{Failure, Items, OutOfMemory};
use bufr_data::{CachedTemplate, DescriptorList};
use bufr_sections::{Refused, are_listed, descriptors_of};
use bufr_tables::{Fxy, Tables};
use std::alloc::Global;

/// A list of descriptors, as octets of section 3.
#[derive(Clone, Copy, Drop)]
struct ListOctets<'a> {
    octets: &'a [u8],
}

impl<'a> DescriptorList for ListOctets<'a> {
    ghost use Rattle.bufr_sections.specs.Sections.{descriptors_of};

    ghost listed = { λ list. descriptors_of list.octets.now };

    fn is(&self, descriptors: &[Fxy]) -> bool {
        are_listed(self.octets, descriptors)
    }

    fn to_items(&self, alloc: Global) -> Result<Items<Fxy>, OutOfMemory> {
        descriptors_of(alloc, self.octets)
    }
}

/// Puts the list of these descriptors first: one of those kept, or a new one.
pub(crate) fn make_octets_first(
    alloc: Global,
    tables: &Tables,
    kept: &mut Vec<CachedTemplate>,
    octets: &[u8],
) -> Result<(), Failure<Refused>>
    requires { AreKept tables.now kept.old.items }
    ensures are { AreKept tables.now kept.new.items }
    ensures front { OnOk result (IsInFront (descriptors_of octets.now) kept.new.items) }
    ensures fault { IfErr result (λ e.
        Fails e (template_or (template tables.now (descriptors_of octets.now)))) }
{
    match bufr_data::make_first(alloc, tables, kept, &ListOctets { octets }) {
        Ok(()) => Ok(()),
        Err(failure) => Err(failure.map(Refused::Template)),
    }
}
