//! Decodes messages.

ghost use Rattle.std.specs.Prelude.{◌≡◌, ℕ, ◌/◌, IfOk, List, length, Ok};
ghost use Rattle.bufr_bits.specs.Bits.{bits};
ghost use Rattle.bufr_base.specs.Answers.{Gives, result_map};
ghost use Rattle.bufr_fields.specs.declared.field.Subset.{Subset as ASubset};
ghost use Rattle.bufr_data.specs.Data.{subsets_in};
ghost use Rattle.bufr_sections.specs.declared.message.Message.{Message as AMessage};
ghost use Rattle.bufr_sections.specs.Sections.{descriptors_of};
ghost use Rattle.bufr_sections.specs.SectionsRead.{envelope};
ghost use Rattle.bufr_message.specs.Kept.{message_under};
ghost use Rattle.bufr_message.specs.Messages.{Spells, data_or, message_of};

use crate::alone::are_short;
use crate::kept::make_octets_first;
use crate::laws::messages_are_spelt;
use crate::message_view::view_in;
use bufr_base::{Failure, Items};
use bufr_bits::BitReader;
use bufr_data::{CachedTemplate, DataFault, DataTemplate, Subset};
use bufr_sections::{Decoded, Envelope, Message, Refused, read_sections};
use bufr_tables::Tables;
use std::alloc::Global;

/// The fewest subsets that are found before they are built. Plain ones then share a layout.
const MANY_SUBSETS: u16 = 8;

/// Returns the message that octets spell, from `BUFR` to `7777`, of edition 3 or 4. Refuses others
/// for the first cause: M1 to M9 of the sections, X1 to X9 of the descriptors, V1 to V6 of the
/// data, and last V6 for a message of edition 3 with a subset too long for a message of edition 4
/// alone.
pub fn decode(alloc: Global, tables: &Tables, octets: &[u8]) -> Result<Decoded, Failure<Refused>>
    ensures found { IfOk result (λ d. Spells tables.now d.message octets.now d.slack_octets) }
    ensures only { (m : AMessage) (z : ℕ) → Spells tables.now m octets.now z
        → Gives (λ d. d) result (Ok (record { message = m; slack_octets = z })) }
    ensures exact { Gives (λ d. d) result (message_of tables.now octets.now) }
{
    messages_are_spelt();
    decode_sections(alloc, tables, octets)
}

#[tactic(auto, unfolding(crate::specs::Messages::message_of, crate::specs::Messages::message_in))]
fn decode_sections(
    alloc: Global,
    tables: &Tables,
    octets: &[u8],
) -> Result<Decoded, Failure<Refused>>
    ensures { Gives (λ d. d) result (message_of tables.now octets.now) }
{
    let sections = read_sections(alloc, octets)?;
    let mut kept = Vec::new(alloc);
    make_octets_first(alloc, tables, &mut kept, sections.listed)?;
    if sections.compressed || sections.count >= MANY_SUBSETS {
        let view = view_in(alloc, &[], &mut kept[0], octets, sections)?;
        return Ok(view.into_decoded(alloc)?);
    }
    build(alloc, &kept[0], sections)
}

/// Builds the message of sections while it reads their subsets.
fn build(
    alloc: Global,
    kept: &CachedTemplate,
    sections: Envelope<'_>,
) -> Result<Decoded, Failure<Refused>>
    requires { kept.now.descriptors.value ≡ descriptors_of sections.listed.now }
    ensures { Gives (λ d. d) result
        (message_under kept.now.template (envelope sections.entry)) }
{
    let (subsets, slack_octets) = read_from(alloc, &kept.template, &sections)?;
    let descriptors = kept.descriptors.as_slice();
    if !are_short(descriptors, subsets.as_slice()) {
        return Err(Failure::Fault(Refused::Data(DataFault::TooLarge)));
    }
    let descriptors = Vec::from_slice(alloc, descriptors)?;
    Ok(Decoded {
        message: Message {
            head: sections.head,
            section2: sections.section2,
            observed: sections.observed,
            compressed: sections.compressed,
            descriptors: Items::from_vec(descriptors),
            subsets,
        },
        slack_octets,
    })
}

/// Builds the subsets of sections, and counts the octets after them.
fn read_from(
    alloc: Global,
    template: &DataTemplate,
    sections: &Envelope<'_>,
) -> Result<(Items<Subset>, u64), Failure<Refused>>
    ensures { Gives {Y = List ASubset × ℕ} (λ x. (x.0, x.1)) result
        (data_or (result_map (λ found. (found.0, length found.1 / 8))
        (subsets_in template.now sections.now.compressed sections.now.count
        (bits sections.now.contents.now)))) }
{
    let mut reader = BitReader::new(sections.contents);
    match template.read(alloc, sections.compressed, sections.count, &mut reader) {
        Ok(subsets) => Ok((subsets, (reader.left() / 8) as u64)),
        Err(failure) => Err(failure.map(Refused::Data)),
    }
}
