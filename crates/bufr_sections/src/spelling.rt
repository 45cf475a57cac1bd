//! Writes a whole message, from `BUFR` to `7777`.

ghost use Rattle.std.specs.Prelude.{◌≡◌, ℕ, ◌<◌, ◌^◌, ◌++◌, length, take, OnOk, OnErr};
ghost use Rattle.bufr_base.specs.Answers.{Gives, result_map};
ghost use Rattle.bufr_sections.specs.Sections.{section2};
ghost use Rattle.bufr_sections.specs.SectionsRead.{envelope_lent};
ghost use Rattle.bufr_sections.specs.Spelt.{bare, spelt_or};

use crate::lent_sections::LentSections;
use crate::section_octets::{
    fixed_octets, push_before_descriptors, push_descriptors, push_section,
};
use bufr_base::{Failure, Items, OutOfMemory};
use bufr_fields::MisfitFault;
use std::alloc::Global;

/// The most octets of a message; section 0 has three octets for their number.
pub const LONGEST: u128 = 16_777_215;

/// The most subsets of a message; section 3 has two octets for their number.
pub const MOST_SUBSETS: usize = 65_535;

fn section2_length(local: &Option<Items<u8>>) -> u128
    ensures value { result ≡ length (section2 local.now 0) }
    ensures small { result < 2 ^ 65 }
{
    match local {
        None => 0,
        Some(local) => 4 + local.as_slice().len() as u128,
    }
}

#[tactic(auto, using(crate::proofs::LengthFacts::length_of_spelling))]
fn total_length(sections: &LentSections<'_>, contents: &[u8]) -> u128
    ensures { (count : ℕ)
        → result ≡ length (bare (envelope_lent sections.now count contents.now)) }
{
    45 + sections.head.local.as_slice().len() as u128
        + section2_length(sections.section2)
        + 2 * sections.descriptors.len() as u128
        + contents.len() as u128
}

/// Returns the octets of a message of `count` subsets in edition 4, with zeros in all that readers
/// ignore. `contents` are section 4 from its fifth octet on. `TooLarge` for more than 65,535
/// subsets or 16,777,215 octets.
pub fn spell(
    alloc: Global,
    sections: &LentSections<'_>,
    count: usize,
    contents: &[u8],
) -> Result<Vec<u8>, Failure<MisfitFault>>
    ensures { Gives (λ v. v.items) result
        (spelt_or (envelope_lent sections.now count contents.now)) }
{
    let mut out = Vec::new(alloc);
    append_spelling(&mut out, sections, count, contents)?;
    Ok(out)
}

/// Adds the octets that `spell` returns, with its faults.
#[tactic(auto, unfolding(crate::specs::Spelt::spelt_or))]
pub fn append_spelling(
    out: &mut Vec<u8>,
    sections: &LentSections<'_>,
    count: usize,
    contents: &[u8],
) -> Result<(), Failure<MisfitFault>>
    ensures exact { Gives (λ _. out.new.items) result (result_map (λ o. out.old.items ++ o)
        (spelt_or (envelope_lent sections.now count contents.now))) }
    ensures err { OnErr result (out.new.items ≡ out.old.items) }
{
    let length = total_length(sections, contents);
    if count > MOST_SUBSETS || length > LONGEST {
        return Err(Failure::Fault(MisfitFault::TooLarge));
    }
    out.reserve(length as usize)?;
    let held = out.len();
    let added = push_sections(out, sections, count as u16, contents, length as u64);
    if added.is_err() {
        out.truncate(held);
        return Err(Failure::OutOfMemory);
    }
    Ok(())
}

fn push_sections(
    out: &mut Vec<u8>,
    sections: &LentSections<'_>,
    count: u16,
    contents: &[u8],
    total: u64,
) -> Result<(), OutOfMemory>
    requires long { total ≡ length (bare (envelope_lent sections.now count contents.now)) }
    requires short { total < 2 ^ 24 }
    ensures ok { OnOk result (out.new.items
        ≡ out.old.items ++ bare (envelope_lent sections.now count contents.now)) }
    ensures kept { OnErr result (take (length out.old.items) out.new.items ≡ out.old.items) }
{
    let fixed = fixed_octets(sections, count, total);
    push_before_descriptors(out, sections, &fixed)?;
    push_descriptors(out, sections.descriptors)?;
    push_section(out, contents)?;
    out.extend_from_slice(b"7777")
}
