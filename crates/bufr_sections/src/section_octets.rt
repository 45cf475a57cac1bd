//! The octets of the sections. After a refused growth, `out` still begins with the octets that it
//! had.

ghost use Rattle.std.specs.Prelude.{◌≡◌, ◌+◌, ◌*◌, ◌<◌, ◌^◌, ◌++◌, ◌∷◌, length, take, drop, codes};
ghost use Rattle.std.specs.Prelude.{OnOk, OnErr};
ghost use Rattle.std.specs.List.{flat_map};
ghost use Rattle.std.specs.Int.{byte_at, bytes_high_first};
ghost use Rattle.bufr_sections.specs.Sections.{section, section1, section2, flag, is_present};
ghost use Rattle.bufr_sections.specs.Sections.{nothing_ignored};
ghost use Rattle.bufr_sections.specs.Spelt.{bare_section3};
ghost use Rattle.bufr_sections.specs.declared.layout.Layout.TheVariants.{Edition4};

use crate::lent_sections::LentSections;
use bufr_base::{Items, OutOfMemory};
use bufr_tables::Fxy;

fn high(number: u16) -> u8
    ensures { result ≡ byte_at 1 number }
{
    (number / 256) as u8
}

fn low(number: u16) -> u8
    ensures { result ≡ byte_at 0 number }
{
    (number % 256) as u8
}

fn high_of_three(length: u64) -> u8
    ensures { result ≡ byte_at 2 length }
{
    (length / 65536 % 256) as u8
}

fn middle_of_three(length: u64) -> u8
    ensures { result ≡ byte_at 1 length }
{
    (length / 256 % 256) as u8
}

fn low_of_three(length: u64) -> u8
    ensures { result ≡ byte_at 0 length }
{
    (length % 256) as u8
}

fn flag(up: bool, weight: u8) -> u8
    ensures { result ≡ flag up weight }
{
    if up { weight } else { 0 }
}

/// The number of octets before those for local use: section 0, and 22 of section 1.
const BEFORE_LOCAL: usize = 30;

/// Returns the octets at fixed places: sections 0, 1 and 3 without those of variable number.
pub(crate) fn fixed_octets(sections: &LentSections<'_>, count: u16, total: u64) -> [u8; 37]
    requires local { 22 + length sections.now.head.now.local < 2 ^ 24 }
    requires listed { 7 + 2 * length sections.now.descriptors.now < 2 ^ 24 }
    ensures start { take 30 result ++ sections.now.head.now.local
        ≡ codes "BUFR" ++ bytes_high_first 3 total ++ 4 ∷ section1 Edition4 sections.now.head.now
        (is_present sections.now.section2.now) nothing_ignored }
    ensures end { drop 30 result ++ flat_map (bytes_high_first 2) sections.now.descriptors.now
        ≡ bare_section3 count sections.now.observed sections.now.compressed
        sections.now.descriptors.now }
{
    let head = sections.head;
    let length1 = 22 + head.local.as_slice().len() as u64;
    let length3 = 7 + 2 * sections.descriptors.len() as u64;
    [
        b'B',
        b'U',
        b'F',
        b'R',
        high_of_three(total),
        middle_of_three(total),
        low_of_three(total),
        4,
        high_of_three(length1),
        middle_of_three(length1),
        low_of_three(length1),
        0,
        high(head.centre),
        low(head.centre),
        high(head.sub_centre),
        low(head.sub_centre),
        head.update,
        flag(sections.section2.is_some(), 128),
        head.category,
        head.international,
        head.local_category,
        head.master_version,
        head.local_version,
        high(head.year),
        low(head.year),
        head.month,
        head.day,
        head.hour,
        head.minute,
        head.second,
        high_of_three(length3),
        middle_of_three(length3),
        low_of_three(length3),
        0,
        high(count),
        low(count),
        flag(sections.observed, 128) + flag(sections.compressed, 64),
    ]
}

/// Adds all octets before the descriptors.
pub(crate) fn push_before_descriptors(
    out: &mut Vec<u8>,
    sections: &LentSections<'_>,
    fixed: &[u8; 37],
) -> Result<(), OutOfMemory>
    requires { length (section2 sections.now.section2.now 0) < 2 ^ 24 }
    ensures ok { OnOk result (out.new.items ≡ out.old.items ++ take 30 fixed.now
        ++ sections.now.head.now.local ++ section2 sections.now.section2.now 0
        ++ drop 30 fixed.now) }
    ensures kept { OnErr result (take (length out.old.items) out.new.items ≡ out.old.items) }
{
    let local = sections.head.local.as_slice();
    if sections.section2.is_none() && local.is_empty() {
        return out.extend_from_slice(fixed);
    }
    let (start, end) = fixed.split_at(BEFORE_LOCAL);
    out.extend_from_slice(start)?;
    out.extend_from_slice(local)?;
    push_section2(out, sections.section2)?;
    out.extend_from_slice(end)
}

fn push_section2(out: &mut Vec<u8>, local: &Option<Items<u8>>) -> Result<(), OutOfMemory>
    requires { length (section2 local.now 0) < 2 ^ 24 }
    ensures ok { OnOk result (out.new.items ≡ out.old.items ++ section2 local.now 0) }
    ensures kept { OnErr result (take (length out.old.items) out.new.items ≡ out.old.items) }
{
    match local {
        None => Ok(()),
        Some(local) => push_section(out, local.as_slice()),
    }
}

/// Adds section 2 or section 4: its length, a reserved octet, and `contents`.
pub(crate) fn push_section(out: &mut Vec<u8>, contents: &[u8]) -> Result<(), OutOfMemory>
    requires { 4 + length contents.now < 2 ^ 24 }
    ensures ok { OnOk result (out.new.items ≡ out.old.items ++ section (0 ∷ contents.now)) }
    ensures kept { OnErr result (take (length out.old.items) out.new.items ≡ out.old.items) }
{
    let length = 4 + contents.len() as u64;
    let start = [
        high_of_three(length),
        middle_of_three(length),
        low_of_three(length),
        0,
    ];
    out.extend_from_slice(&start)?;
    out.extend_from_slice(contents)
}

pub(crate) fn push_descriptors(out: &mut Vec<u8>, descriptors: &[Fxy]) -> Result<(), OutOfMemory>
    ensures ok { OnOk result
        (out.new.items ≡ out.old.items ++ flat_map (bytes_high_first 2) descriptors.now) }
    ensures kept { OnErr result (take (length out.old.items) out.new.items ≡ out.old.items) }
{
    for descriptor in descriptors {
        let bits = descriptor.bits();
        out.extend_from_slice(&[high(bits), low(bits)])?;
    }
    Ok(())
}
