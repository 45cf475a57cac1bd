ghost use Rattle.std.specs.Prelude.{◌≡◌, ◌≤◌, ◌++◌, ℕ, List, [], false, IfErr, Ok, OnOk};
ghost use Rattle.bufr_base.specs.Answers.{Fails, Gives, result_map};
ghost use Rattle.bufr_io.specs.Engines.{IsFresh};
ghost use Rattle.bufr_io.specs.Limits.{most_reads};
ghost use Rattle.bufr_engines.specs.Encoding.{Encodes, EncodesListing, PassesAll, ReadsMessage};
ghost use Rattle.bufr_engines.specs.Encoding.{TellsFault, code_as_asked};

use bufr_base::Failure;
use bufr_bits::{Sink, Source};
use bufr_io::{Input, Tally, ToolFault, read_all, write_out};
use bufr_listing_reader::Messages;
use bufr_message::{EncodeFault, Message, TemplateCache, keep_and_encode};
use bufr_tables::Tables;
use std::alloc::Global;

/// A number of messages, and their octets joined.
#[derive(Drop)]
struct Encoded {
    octets: Vec<u8>,
    count: u128,
}

/// Writes the octets of each message of a listing, compressed if `compressed`. It reads the whole
/// listing and encodes all messages before it writes the first octet. A fault of the listing comes
/// before one of a message. It holds the listing, the octets and one message at a time.
pub fn run_encode<S: Source, W: Sink>(
    alloc: Global,
    reads: u64,
    tables: &Tables,
    compressed: bool,
    reader: &mut S,
    writer: &mut W,
) -> Result<Tally, ToolFault>
    requires few { reads ≤ most_reads }
    requires fresh { IsFresh (S.reading reader.old) }
    requires works { (W.writing writer.old).failed ≡ false }
    ensures bounded { (S.reading reader.new).reads ≤ reads }
    ensures encodes { Encodes compressed tables.now reads (S.reading reader.old)
        (S.reading reader.new) (W.writing writer.old) (W.writing writer.new) result }
{
    let text = read_all(alloc, reads, Input::Number(1), reader)?;
    let encoded = octets_of(alloc, tables, compressed, &text)?;
    write_out(writer, 0, &encoded.octets)?;
    Ok(Tally {
        frames: encoded.count,
        refused: 0,
        skipped: 0,
        reports: 0,
    })
}

fn octets_of(
    alloc: Global,
    tables: &Tables,
    compressed: bool,
    text: &[u8],
) -> Result<Encoded, ToolFault>
    ensures { EncodesListing tables.now compressed text.now result }
{
    let mut templates = TemplateCache::new(alloc, tables);
    let mut octets = Vec::new(alloc);
    let count = add_listed(alloc, tables, &mut templates, compressed, text, &mut octets)?;
    Ok(Encoded { octets, count })
}

/// Adds the octets of the messages of a listing, and returns their number. It encodes each message
/// before it reads the next. If a message has no encoding, it still reads the rest, since a fault of
/// the listing comes first.
fn add_listed(
    alloc: Global,
    tables: &Tables,
    templates: &mut TemplateCache<'_>,
    compressed: bool,
    text: &[u8],
    octets: &mut Vec<u8>,
) -> Result<u128, ToolFault>
    requires kept { templates.old ≡ tables.now }
    requires none { octets.old.items ≡ [] }
    ensures { EncodesListing tables.now compressed text.now
        (result_map (λ count. record { octets = octets.new; count = count }) result) }
{
    let mut messages = Messages::of(alloc, tables, text);
    let mut count: u128 = 0;
    while let Some(message) = next_of(alloc, &mut messages)? {
        count += 1;
        if let Err(failure) = add_octets(alloc, templates, compressed, message, octets) {
            return Err(fault_of(alloc, messages, count, failure));
        }
    }
    Ok(count)
}

fn next_of(alloc: Global, messages: &mut Messages<'_>) -> Result<Option<Message>, ToolFault>
    ensures { ReadsMessage messages.old messages.new result }
{
    match messages.next(alloc) {
        Ok(next) => Ok(next),
        Err(Failure::Fault(why)) => Err(ToolFault::Listing(why)),
        Err(Failure::OutOfMemory) => Err(ToolFault::OutOfMemory),
    }
}

/// Returns the fault of the rest of a listing, or else the fault of a message without encoding.
fn fault_of(
    alloc: Global,
    messages: Messages<'_>,
    number: u128,
    failure: Failure<EncodeFault>,
) -> ToolFault
    ensures { TellsFault messages.entry number failure result }
{
    match failure {
        Failure::OutOfMemory => ToolFault::OutOfMemory,
        Failure::Fault(why) => match pass_all(alloc, messages) {
            Ok(()) => ToolFault::Encode(number, why),
            Err(fault) => fault,
        },
    }
}

fn pass_all(alloc: Global, mut messages: Messages<'_>) -> Result<(), ToolFault>
    ensures { PassesAll messages.entry result }
{
    while next_of(alloc, &mut messages)?.is_some() {}
    Ok(())
}

/// Adds the octets of a message.
fn add_octets(
    alloc: Global,
    templates: &mut TemplateCache<'_>,
    compressed: bool,
    message: Message,
    octets: &mut Vec<u8>,
) -> Result<(), Failure<EncodeFault>>
    ensures same { templates.new ≡ templates.old }
    ensures ok { OnOk result ((more : List ℕ)
        × (code_as_asked templates.old compressed message ≡ Ok more)
        × (octets.new.items ≡ octets.old.items ++ more)) }
    ensures err { IfErr result (λ failure.
        Fails failure (code_as_asked templates.old compressed message)) }
{
    let more = octets_as_asked(alloc, templates, compressed, message)?;
    octets.extend_from_slice(&more)?;
    Ok(())
}

/// Encodes a message, compressed if it has that flag or `compressed` is set.
fn octets_as_asked(
    alloc: Global,
    templates: &mut TemplateCache<'_>,
    compressed: bool,
    mut message: Message,
) -> Result<Vec<u8>, Failure<EncodeFault>>
    ensures same { templates.new ≡ templates.old }
    ensures exact { Gives (λ v. v.items) result (code_as_asked templates.old compressed message) }
{
    message.compressed |= compressed;
    keep_and_encode(alloc, templates, &message)
}
