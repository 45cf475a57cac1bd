ghost use Rattle.std.specs.Prelude.{◌≡◌, List, true, Ok, Err, IfOk, option_map};
ghost use Rattle.bufr_base.specs.Answers.{Gives};
ghost use Rattle.bufr_listing_reader.specs.Cursors.{left, past};
ghost use Rattle.bufr_listing_reader.specs.Lines.{Line, Listed};
ghost use Rattle.bufr_listing_reader.specs.FirstFaults.{FirstFault};
ghost use Rattle.bufr_listing_reader.specs.Reading.{messages_listed, message_read, MessageRead, head_read};
ghost use Rattle.bufr_listing_reader.specs.Reading.{head_with, are_below, section1_limits, time_limits};
ghost use Rattle.bufr_sections.specs.declared.message.Message.{Message};
ghost use Rattle.bufr_listing.specs.declared.fault.ListingFault.{ListingFault};

use crate::head_lines::{
    read_descriptors, read_flags, read_local, read_numbers, read_section2, read_word,
};
use crate::laws::{faults_of_listings_are_the_first, listings_list_messages};
use crate::lines::Lines;
use crate::subsets::read_subsets;
use crate::unread::Messages;
use bufr_base::{Failure, Items};
use bufr_data::TemplateCache;
use bufr_listing::ListingFault;
use bufr_sections::{Head, Message};
use bufr_tables::Tables;
use std::alloc::Global;

/// A number of one octet is below this.
pub(crate) const ONE_OCTET: u64 = 256;

/// A number of two octets is below this.
pub(crate) const TWO_OCTETS: u64 = 65_536;

/// The limits of the numbers in the line `section1`.
const SECTION1_LIMITS: [u64; 8] = [
    TWO_OCTETS, TWO_OCTETS, ONE_OCTET, ONE_OCTET, ONE_OCTET, ONE_OCTET, ONE_OCTET, ONE_OCTET,
];

/// The limits of the numbers in the line `time`.
const TIME_LIMITS: [u64; 6] = [
    TWO_OCTETS, ONE_OCTET, ONE_OCTET, ONE_OCTET, ONE_OCTET, ONE_OCTET,
];

/// Returns the messages that a text lists, perhaps none. Lines end with LF or CR LF; the last may
/// have no end. Skips lines that are empty or begin with `#`, but counts them. Else returns the
/// first fault by lines; on one line L3 comes first, then L1, then L2. X1 to X9 come at the line of
/// the descriptors, V1 and V6 at the line of the next field or subset end. Items count over the
/// message.
pub fn read(
    alloc: Global,
    tables: &Tables,
    text: &[u8],
) -> Result<Vec<Message>, Failure<ListingFault>>
    ensures found { IfOk result (λ v. Listed tables.now text.now v.items) }
    ensures only { (messages : List Message) → Listed tables.now text.now messages
        → Gives (λ v. v.items) result (Ok messages) }
    ensures first { (fault : ListingFault) → result ≡ Err (Failure.Fault fault)
        → FirstFault tables.now text.now fault }
    ensures told { (fault : ListingFault) → FirstFault tables.now text.now fault
        → Gives {Y = List Message} (λ v. v.items) result (Err fault) }
    ensures exact { Gives (λ v. v.items) result (messages_listed tables.now text.now) }
{
    listings_list_messages();
    faults_of_listings_are_the_first();
    messages_listed(alloc, tables, text)
}

/// Reads all messages for `read`.
fn messages_listed(
    alloc: Global,
    tables: &Tables,
    text: &[u8],
) -> Result<Vec<Message>, Failure<ListingFault>>
    ensures exact { Gives (λ v. v.items) result (messages_listed tables.now text.now) }
{
    let mut left = Messages::of(alloc, tables, text);
    let mut messages = Vec::new(alloc);
    while let Some(message) = left.next(alloc)? {
        messages.push(message)?;
    }
    Ok(messages)
}

pub(crate) fn read_message(
    alloc: Global,
    templates: &mut TemplateCache<'_>,
    lines: &mut Lines,
) -> Result<Message, Failure<ListingFault>>
    ensures read { Gives {Y = MessageRead} (λ m. (m, left lines.new)) result
        (message_read templates.old (past lines.old) (left lines.old)) }
    ensures past { past lines.new ≡ past lines.old }
    ensures same { templates.new ≡ templates.old }
{
    let head = read_head(alloc, lines)?;
    let section2 = read_section2(alloc, lines)?;
    let flags = read_flags(lines)?;
    let (descriptors, template) = read_descriptors(alloc, templates, lines)?;
    let subsets = read_subsets(alloc, &template, lines)?;
    Ok(Message {
        head,
        section2,
        observed: flags.observed,
        compressed: flags.compressed,
        descriptors: Items::from_vec(descriptors),
        subsets: Items::from_vec(subsets),
    })
}

fn read_head(alloc: Global, lines: &mut Lines) -> Result<Head, Failure<ListingFault>>
    ensures read { Gives {Y = Head × List Line} (λ h. (h, left lines.new)) result
        (head_read (past lines.old) (left lines.old)) }
    ensures past { past lines.new ≡ past lines.old }
{
    read_word(lines, b"message")?;
    let numbers = read_numbers(alloc, lines, b"section1", &SECTION1_LIMITS)?;
    let time = read_numbers(alloc, lines, b"time", &TIME_LIMITS)?;
    let local = read_local(alloc, lines)?;
    Ok(head_of(alloc, &numbers, &time, local))
}

/// Makes section 1 from its numbers and its octets for local use.
#[tactic(auto, using(crate::proofs::AnswerFacts::local_items))]
fn head_of(alloc: Global, numbers: &[u64], time: &[u64], local: Option<Vec<u8>>) -> Head
    requires numbers { are_below section1_limits numbers.now ≡ true }
    requires time { are_below time_limits time.now ≡ true }
    ensures { result ≡ head_with numbers.now time.now (option_map (λ v. v.items) local) }
{
    Head {
        centre: numbers[0] as u16,
        sub_centre: numbers[1] as u16,
        update: numbers[2] as u8,
        category: numbers[3] as u8,
        international: numbers[4] as u8,
        local_category: numbers[5] as u8,
        master_version: numbers[6] as u8,
        local_version: numbers[7] as u8,
        year: time[0] as u16,
        month: time[1] as u8,
        day: time[2] as u8,
        hour: time[3] as u8,
        minute: time[4] as u8,
        second: time[5] as u8,
        local: Items::from_vec(local.unwrap_or(Vec::new(alloc))),
    }
}
