//! Reads the sections from the left, to the first fault.

ghost use Rattle.std.specs.Prelude.{◌≡◌, List, ℕ, Bool, Option, ◌≤◌, ◌+◌, length, option_map};
ghost use Rattle.std.specs.Prelude.{IfOk, codes};
ghost use Rattle.std.specs.Str.{bytes_eq};
ghost use Rattle.bufr_base.specs.Answers.{Gives};
ghost use Rattle.bufr_sections.specs.declared.message.Head.{Head};
ghost use Rattle.bufr_sections.specs.Sections.{envelope_of, head_of, room_of};
ghost use Rattle.bufr_sections.specs.Sections.{section2_at, section_at, shortest1, three};
ghost use Rattle.bufr_sections.specs.SectionsRead.{envelope};
ghost use Rattle.bufr_sections.specs.InPlace.{Finds, head_in};

use crate::envelope::Envelope;
use crate::fault::Refused;
use crate::in_place::SectionsInPlace;
use crate::layout::Layout;
use crate::listed::number_of_two;
use bufr_base::{Failure, Items};
use std::alloc::Global;

#[inline(always)]
fn number_of_three(high: u8, middle: u8, low: u8) -> usize
    ensures { result ≡ three high middle low }
{
    65536 * high as usize + 256 * middle as usize + low as usize
}

/// Returns whether four octets are the end of a message.
// Compares them at once.
#[inline(always)]
#[tactic(auto, using(crate::proofs::EndFacts::four_octets))]
fn is_end(octets: &[u8]) -> bool
    requires { length octets.now ≡ 4 }
    ensures { result ≡ bytes_eq octets.now (codes "7777") }
{
    [octets[0], octets[1], octets[2], octets[3]] == *b"7777"
}

/// Reads section 0 and the end. Returns the layout, and the octets between them.
#[inline(always)]
#[tactic(auto, unfolding(crate::specs::Sections::room_of, crate::specs::Sections::room_in))]
fn room_of(octets: &[u8]) -> Result<(Layout, &[u8]), Refused>
    ensures { Finds {Y = Layout × List ℕ} (λ x. (x.0, x.1.now)) result (room_of octets.now) }
{
    let [b, u, f, r, l1, l2, l3, edition, rest @ ..] = octets else {
        return Err(Refused::NotBufr);
    };
    if [*b, *u, *f, *r] != *b"BUFR" {
        return Err(Refused::NotBufr);
    }
    let layout = match *edition {
        4 => Layout::Edition4,
        3 => Layout::Edition3,
        other => return Err(Refused::Edition(other)),
    };
    if number_of_three(*l1, *l2, *l3) != 8 + rest.len() {
        return Err(Refused::TotalLength);
    }
    if rest.len() < 4 {
        return Err(Refused::NoEnd);
    }
    let (room, end) = rest.split_at(rest.len() - 4);
    if !is_end(end) {
        return Err(Refused::NoEnd);
    }
    Ok((layout, room))
}

/// Splits off a section of at least `shortest` octets. Returns its octets after the length, and the
/// octets after it.
#[inline(always)]
#[tactic(auto, unfolding(crate::specs::Sections::section_at))]
fn section_at(shortest: usize, fault: Refused, room: &[u8]) -> Result<(&[u8], &[u8]), Refused>
    requires { 3 ≤ shortest }
    ensures found { Finds {Y = List ℕ × List ℕ} (λ x. (x.0.now, x.1.now)) result
        (section_at shortest fault room.now) }
    ensures long { IfOk result (λ x. shortest ≤ 3 + length x.0.now) }
{
    match room {
        [a, b, c, rest @ ..] => {
            let length = number_of_three(*a, *b, *c);
            if length < shortest || 3 + rest.len() < length {
                return Err(fault);
            }
            Ok(rest.split_at(length - 3))
        }
        _ => Err(fault),
    }
}

/// Returns whether section 1 announces a section 2.
#[inline(always)]
#[tactic(auto, using(crate::proofs::HeadFacts::head4_said, crate::proofs::HeadFacts::head4_other, crate::proofs::HeadFacts::head3_said, crate::proofs::HeadFacts::head3_other))]
fn announces(layout: Layout, one: &[u8]) -> Result<bool, Refused>
    requires { shortest1 layout ≤ 3 + length one.now }
    ensures { Finds {Y = Head × Bool} (λ announced. (head_in layout one.now, announced)) result
        (head_of layout one.now) }
{
    match layout {
        Layout::Edition4 => {
            if one[0] != 0 {
                return Err(Refused::MasterTable(one[0]));
            }
            Ok(one[6] >= 128)
        }
        Layout::Edition3 => {
            if one[0] != 0 {
                return Err(Refused::MasterTable(one[0]));
            }
            Ok(one[4] >= 128)
        }
    }
}

/// Finds section 2, if section 1 announces it. Returns its octets for local use, and the octets after it.
#[inline(always)]
fn section2_at(announced: bool, room: &[u8]) -> Result<(Option<&[u8]>, &[u8]), Refused>
    ensures { Finds {Y = Option (List ℕ) × List ℕ}
        (λ x. (option_map (λ local. local.now) x.0, x.1.now)) result
        (section2_at announced room.now) }
{
    if !announced {
        return Ok((None, room));
    }
    let (octets, left) = section_at(4, Refused::Section2Length, room)?;
    Ok((Some(&octets[1..]), left))
}

/// Finds the sections of a message in its octets, without a copy. Returns the first fault of M1 to M9
/// if it has one.
#[inline(always)]
#[tactic(auto, using(crate::proofs::HeadFacts::description_at), unfolding(crate::specs::Sections::envelope_of, crate::specs::Sections::sections_of))]
pub fn find_sections(octets: &[u8]) -> Result<SectionsInPlace<'_>, Refused>
    ensures { result ≡ envelope_of octets.now }
{
    let (layout, room) = room_of(octets)?;
    let (one, room) = section_at(layout.shortest(), Refused::Section1Length, room)?;
    let announced = announces(layout, one)?;
    let (section2, room) = section2_at(announced, room)?;
    let (three, room) = section_at(9, Refused::Section3Length, room)?;
    let (four, left) = section_at(4, Refused::Section4Length, room)?;
    if !left.is_empty() {
        return Err(Refused::Section4Length);
    }
    Ok(SectionsInPlace {
        layout,
        one,
        section2,
        observed: three[3] >= 128,
        compressed: three[3] / 64 % 2 == 1,
        listed: &three[4..],
        count: number_of_two(three[1], three[2]),
        contents: &four[1..],
    })
}

/// Reads the sections of a message. Returns what they hold, or the first fault of M1 to M9.
pub fn read_sections(alloc: Global, octets: &[u8]) -> Result<Envelope<'_>, Failure<Refused>>
    ensures { Gives envelope result (envelope_of octets.now) }
{
    let found = match find_sections(octets) {
        Ok(found) => found,
        Err(why) => return Err(Failure::Fault(why)),
    };
    let head = found.copied_head(alloc)?;
    let section2 = match found.section2 {
        Some(local) => Some(Items::from_vec(Vec::from_slice(alloc, local)?)),
        None => None,
    };
    Ok(Envelope {
        head,
        section2,
        observed: found.observed,
        compressed: found.compressed,
        listed: found.listed,
        count: found.count,
        contents: found.contents,
    })
}
