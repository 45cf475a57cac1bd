//! Encodes messages.

ghost use Rattle.std.specs.Prelude.{◌≡◌, List, Bool, IfOk};
ghost use Rattle.bufr_base.specs.Answers.{Gives, result_map};
ghost use Rattle.bufr_expand.specs.Templates.{template};
ghost use Rattle.bufr_bits.specs.Bits.{bits};
ghost use Rattle.bufr_data.specs.Data.{written_bits};
ghost use Rattle.bufr_data.specs.Subsets.{filled};
ghost use Rattle.bufr_sections.specs.SectionsRead.{message_lent};
ghost use Rattle.bufr_message.specs.Encodings.{template_or, data_or, data_bits_or};
ghost use Rattle.bufr_message.specs.Encodings.{enclosed_or, code, SpellsBare};

use crate::laws::written_messages_are_spelt;
use crate::ranges::numbers_fit;
use bufr_base::Failure;
use bufr_bits::BitSink;
use bufr_data::{Subset, TemplateCache, write_subsets};
use bufr_expand::Template;
use bufr_sections::{EncodeFault, LentSections, Message, spell};
use bufr_tables::{Fxy, Tables};
use std::alloc::Global;

/// Returns the octets of a message in edition 4, with zeros in all that readers ignore, and no
/// octet after the data. Refuses a message for its first fault, in the order of `EncodeFault`.
pub fn encode(
    alloc: Global,
    tables: &Tables,
    message: &Message,
) -> Result<Vec<u8>, Failure<EncodeFault>>
    ensures spells { IfOk result (λ v. SpellsBare tables.now message.now v.items) }
    ensures exact { Gives (λ v. v.items) result (code tables.now message.now) }
{
    written_messages_are_spelt();
    let sections = LentSections::of_message(message);
    let subsets = message.subsets.as_slice();
    numbers_fit(&sections, subsets);
    octets_of(alloc, tables, &sections, subsets)
}

/// Encodes as `encode` does, but builds no template for the last four lists of descriptors that had
/// one.
pub fn keep_and_encode(
    alloc: Global,
    templates: &mut TemplateCache<'_>,
    message: &Message,
) -> Result<Vec<u8>, Failure<EncodeFault>>
    ensures same { templates.new ≡ templates.old }
    ensures spells { IfOk result (λ v. SpellsBare templates.old message.now v.items) }
    ensures exact { Gives (λ v. v.items) result (code templates.old message.now) }
{
    written_messages_are_spelt();
    let sections = LentSections::of_message(message);
    let subsets = message.subsets.as_slice();
    numbers_fit(&sections, subsets);
    octets_keeping(alloc, templates, &sections, subsets)
}

/// Encodes sections and subsets for `keep_and_encode`.
#[tactic(auto, unfolding(crate::specs::Encodings::code))]
fn octets_keeping(
    alloc: Global,
    templates: &mut TemplateCache<'_>,
    sections: &LentSections<'_>,
    subsets: &[Subset],
) -> Result<Vec<u8>, Failure<EncodeFault>>
    ensures same { templates.new ≡ templates.old }
    ensures exact { Gives (λ v. v.items) result
        (code templates.old (message_lent sections.now subsets.now)) }
{
    let contents = contents_of(alloc, templates, sections, subsets)?;
    enclose(alloc, sections, subsets, &contents)
}

/// Encodes sections and subsets for `encode` and `canonical`.
pub(crate) fn octets_of(
    alloc: Global,
    tables: &Tables,
    sections: &LentSections<'_>,
    subsets: &[Subset],
) -> Result<Vec<u8>, Failure<EncodeFault>>
    ensures { Gives (λ v. v.items) result
        (code tables.now (message_lent sections.now subsets.now)) }
{
    let mut templates = TemplateCache::new(alloc, tables);
    octets_keeping(alloc, &mut templates, sections, subsets)
}

/// Writes the sections around `contents`, the data bits in whole octets.
fn enclose(
    alloc: Global,
    sections: &LentSections<'_>,
    subsets: &[Subset],
    contents: &[u8],
) -> Result<Vec<u8>, Failure<EncodeFault>>
    ensures { (data_bits : List Bool) → bits contents.now ≡ filled data_bits
        → Gives (λ v. v.items) result
        (enclosed_or (message_lent sections.now subsets.now) data_bits) }
{
    match spell(alloc, sections, subsets.len(), contents) {
        Ok(octets) => Ok(octets),
        Err(Failure::Fault(fault)) => Err(Failure::Fault(EncodeFault::Data(fault))),
        Err(Failure::OutOfMemory) => Err(Failure::OutOfMemory),
    }
}

/// Returns section 4 from its fifth octet on: the data bits in whole octets.
#[tactic(auto, unfolding(crate::specs::Encodings::data_bits_or))]
fn contents_of(
    alloc: Global,
    templates: &mut TemplateCache<'_>,
    sections: &LentSections<'_>,
    subsets: &[Subset],
) -> Result<Vec<u8>, Failure<EncodeFault>>
    ensures same { templates.new ≡ templates.old }
    ensures exact { Gives {Y = List Bool} (λ v. bits v.items) result
        (result_map filled (data_bits_or templates.old (message_lent sections.now subsets.now))) }
{
    let descriptors = sections.descriptors;
    if descriptors.is_empty() {
        return Err(Failure::Fault(EncodeFault::NoDescriptors));
    }
    let template = template_of(alloc, templates, descriptors)?;
    data_of(alloc, &template, sections.compressed, subsets)
}

fn template_of(
    alloc: Global,
    templates: &mut TemplateCache<'_>,
    descriptors: &[Fxy],
) -> Result<Template, Failure<EncodeFault>>
    ensures same { templates.new ≡ templates.old }
    ensures exact { Gives (λ t. t) result (template_or (template templates.old descriptors.now)) }
{
    match templates.template_of(alloc, descriptors) {
        Ok(template) => Ok(template),
        Err(failure) => Err(failure.map(EncodeFault::Template)),
    }
}

fn data_of(
    alloc: Global,
    template: &Template,
    compressed: bool,
    subsets: &[Subset],
) -> Result<Vec<u8>, Failure<EncodeFault>>
    ensures { Gives {Y = List Bool} (λ v. bits v.items) result
        (result_map filled (data_or (written_bits template.now compressed subsets.now))) }
{
    let mut sink = BitSink::new(alloc);
    match write_subsets(alloc, template, compressed, subsets, &mut sink) {
        Ok(()) => {
            sink.fill_octet();
            Ok(sink.into_bytes())
        }
        Err(failure) => Err(failure.map(EncodeFault::Data)),
    }
}
