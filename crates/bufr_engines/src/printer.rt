//! The printer of frames: it holds lines, and writes them when they are many.

ghost use Rattle.std.specs.Prelude.{◌≡◌, ◌≤◌, ◌<◌, ◌+◌, ◌*◌, ◌^◌, ◌++◌, ℕ, List, false, [], length};
ghost use Rattle.std.specs.Prelude.{Err, IfErr, IfOk, OnErr, OnOk};
ghost use Rattle.std.specs.Int.{from_bool};
ghost use Rattle.bufr_bits.specs.Devices.{Writing};
ghost use Rattle.bufr_listing.specs.Listings.{listing};
ghost use Rattle.bufr_message.specs.Messages.{message_of};
ghost use Rattle.bufr_base.specs.Answers.{Gives};
ghost use Rattle.bufr_io.specs.Lines.{AreWholeLines};
ghost use Rattle.bufr_engines.specs.Refusals.{frame_refused};
ghost use Rattle.bufr_engines.specs.ShortListings.{HasShortListing};
ghost use Rattle.bufr_io.specs.Taking.{frame_at};
ghost use Rattle.bufr_engines.specs.Output.{fields_text, frame_text};
ghost use Rattle.bufr_engines.specs.declared.frame_lines.OutputForm.TheVariants.{Shown, Checked};
ghost use Rattle.bufr_engines.specs.StreamEngines.{Adds, Fits, Keeps, PrintsFrame};
ghost use Rattle.bufr_engines.specs.StreamEngines.{Stops, StopsWithin, WritesAllBut, WritesHeld};
ghost use Rattle.bufr_engines.specs.StreamEngines.{WritesPart};

use crate::frame_lines::{OutputForm, hold_checked, hold_field, hold_refused};
use bufr_base::{Failure, OutOfMemory};
use bufr_bits::Sink;
use bufr_io::{ToolFault, write_after};
use bufr_listing::laws::{listings_are_joined_parts, subsets_are_joined_lines};
use bufr_listing::{LastHeading, end_text, push_subset_line};
use bufr_message::laws::subsets_are_small;
use bufr_message::{Fields, MessageReader, Refused, View};
use bufr_tables::Tables;
use std::alloc::Global;

/// The number of held octets at which the printer writes them.
const LONGEST_HELD: usize = 65_536;

/// A printer of the frames of a stream.
#[derive(Drop)]
pub(crate) struct Printer<'t> {
    /// What it prints.
    pub(crate) printing: OutputForm,
    /// The reader of messages.
    pub(crate) message_reader: MessageReader<'t>,
    /// All frames that it printed.
    pub(crate) frames: u128,
    /// The refused frames.
    pub(crate) refused: u128,
    /// The octets of all frames.
    pub(crate) octets: u64,
    /// The octets that it wrote.
    pub(crate) written: u128,
    /// The lines that it did not write yet.
    pub(crate) held: Vec<u8>,
    /// The lines of the last message before its first subset.
    pub(crate) heading: LastHeading,
}

impl<'t> Printer<'t> {
    pub(crate) fn new(alloc: Global, printing: OutputForm, tables: &'t Tables) -> Printer<'t>
        ensures printing { result.printing ≡ printing }
        ensures tables { result.message_reader ≡ tables.now }
        ensures frames { result.frames ≡ 0 }
        ensures refused { result.refused ≡ 0 }
        ensures octets { result.octets ≡ 0 }
        ensures written { result.written ≡ 0 }
        ensures held { result.held.items ≡ [] }
    {
        Printer {
            printing,
            message_reader: MessageReader::new(alloc, tables),
            frames: 0,
            refused: 0,
            octets: 0,
            written: 0,
            held: Vec::new(alloc),
            heading: LastHeading::new(alloc),
        }
    }

    pub(crate) fn write_held<W: Sink>(&mut self, writer: &mut W) -> Result<(), ToolFault>
        requires works { (W.writing writer.old).failed ≡ false }
        requires fits { Fits self.old }
        ensures writes { WritesHeld self.old self.new (W.writing writer.old) (W.writing writer.new)
            result }
        ensures keeps { Keeps self.old self.new }
        ensures short { self.new.written + length self.new.held.items
            < self.old.written + 2 ^ 64 }
    {
        if self.held.is_empty() {
            return Ok(());
        }
        let length = self.held.len() as u128;
        write_after(writer, self.written, &self.held)?;
        self.written += length;
        self.held.clear();
        Ok(())
    }

    /// Writes all lines that it holds, if they are long.
    fn write_long<W: Sink>(&mut self, writer: &mut W) -> Result<(), ToolFault>
        requires works { (W.writing writer.old).failed ≡ false }
        requires fits { self.old.written + 2 ^ 64 ≤ 2 ^ 128 }
        requires lines { AreWholeLines self.old.held.items }
        ensures writes { WritesPart self.old self.new (W.writing writer.old) (W.writing writer.new)
            result }
        ensures keeps { Keeps self.old self.new }
        ensures short { self.new.written + length self.new.held.items
            < self.old.written + 2 ^ 64 }
    {
        if self.held.len() < LONGEST_HELD {
            return Ok(());
        }
        self.write_held(writer)
    }

    /// Prints the line of each field.
    fn print_fields<W: Sink>(
        &mut self,
        alloc: Global,
        mut fields: Fields<'_>,
        writer: &mut W,
    ) -> Result<(), ToolFault>
        requires works { (W.writing writer.old).failed ≡ false }
        requires fits { self.old.written + length self.old.held.items
            + length (fields_text fields) + 2 ^ 64 ≤ 2 ^ 128 }
        requires lines { AreWholeLines self.old.held.items }
        ensures prints { Adds (fields_text fields.entry) self.old self.new (W.writing writer.old)
            (W.writing writer.new) result }
        ensures keeps { Keeps self.old self.new }
        ensures short { self.new.written < self.old.written
            + length self.old.held.items + length (fields_text fields.entry) + 2 ^ 64 }
    {
        'fields: while hold_field(alloc, &mut self.held, &mut fields)? {
            self.write_long(writer)?;
        }
        Ok(())
    }

    /// Prints the listing of a message. It builds one field at a time. It holds at most the lines
    /// before the first subset, or `LONGEST_HELD` octets, and the line of one field.
    fn print_listing<W: Sink>(
        &mut self,
        alloc: Global,
        found: &View<'_>,
        writer: &mut W,
    ) -> Result<(), ToolFault>
        requires works { (W.writing writer.old).failed ≡ false }
        requires listed { HasShortListing found.now.message }
        requires fits { self.old.written + 2 ^ 80 ≤ 2 ^ 128 }
        requires lines { AreWholeLines self.old.held.items }
        ensures prints { Adds (listing found.now.message) self.old self.new (W.writing writer.old)
            (W.writing writer.new) result }
        ensures keeps { Keeps self.old self.new }
        ensures short { self.new.written + 2 ^ 64 ≤ self.old.written + 2 ^ 80 }
    {
        listings_are_joined_parts();
        subsets_are_joined_lines();
        self.heading.set(alloc, &found.sections())?;
        self.held.extend_from_slice(self.heading.as_slice())?;
        self.write_long(writer)?;
        for index in 0..found.count() {
            let fields = found.fields(alloc, index)?;
            push_subset_line(&mut self.held)?;
            self.print_fields(alloc, fields, writer)?;
        }
        self.held.extend_from_slice(end_text())?;
        Ok(())
    }

    /// Prints the listing of the message that a frame spells, or why the frame is refused, and returns
    /// whether it is.
    fn show_frame<W: Sink>(
        &mut self,
        alloc: Global,
        place: u64,
        octets: &[u8],
        writer: &mut W,
    ) -> Result<bool, ToolFault>
        requires works { (W.writing writer.old).failed ≡ false }
        requires fits { self.old.written + 2 ^ 80 ≤ 2 ^ 128 }
        requires lines { AreWholeLines self.old.held.items }
        ensures prints { OnOk result (WritesAllBut self.new.held.items (self.old.held.items
            ++ frame_text Shown self.old.message_reader (frame_at place octets.now))
            self.old.written self.new.written (W.writing writer.old) (W.writing writer.new)) }
        ensures stops { IfErr result (λ fault. Adds
            (frame_text Shown self.old.message_reader (frame_at place octets.now))
            self.old self.new (W.writing writer.old) (W.writing writer.new) (Err fault)) }
        ensures told { IfOk result (λ refused. from_bool refused
            ≡ frame_refused self.old.message_reader (frame_at place octets.now)) }
        ensures keeps { Keeps self.old self.new }
        ensures short { self.new.written + 2 ^ 64 ≤ self.old.written + 2 ^ 80 }
    {
        subsets_are_small();
        match self.message_reader.read(alloc, octets) {
            Ok(found) => {
                self.print_listing(alloc, &found, writer)?;
                Ok(false)
            }
            Err(Failure::Fault(why)) => {
                hold_refused(
                    alloc,
                    &mut self.held,
                    OutputForm::Shown,
                    place,
                    octets,
                    &why,
                )?;
                Ok(true)
            }
            Err(Failure::OutOfMemory) => Err(ToolFault::OutOfMemory),
        }
    }

    /// Holds the line of `check` of a frame, and returns whether the frame is refused. It makes no
    /// view. If memory runs out, it holds no line for the frame.
    fn check_frame(&mut self, alloc: Global, place: u64, octets: &[u8]) -> Result<bool, OutOfMemory>
        ensures ok { OnOk result (self.new.held.items ≡ self.old.held.items
            ++ frame_text Checked self.old.message_reader (frame_at place octets.now)) }
        ensures told { IfOk result (λ refused. from_bool refused
            ≡ frame_refused self.old.message_reader (frame_at place octets.now)) }
        ensures err { OnErr result (self.new.held.items ≡ self.old.held.items) }
        ensures keeps { Keeps self.old self.new }
        ensures written { self.new.written ≡ self.old.written }
    {
        match self.message_reader.check(alloc, octets) {
            Ok(said) => {
                hold_checked(&mut self.held, place, octets, &said)?;
                Ok(false)
            }
            Err(Failure::Fault(why)) => {
                hold_refused(
                    alloc,
                    &mut self.held,
                    OutputForm::Checked,
                    place,
                    octets,
                    &why,
                )?;
                Ok(true)
            }
            Err(Failure::OutOfMemory) => Err(OutOfMemory),
        }
    }

    /// Prints a frame, and returns whether it is refused.
    fn print_message<W: Sink>(
        &mut self,
        alloc: Global,
        place: u64,
        octets: &[u8],
        writer: &mut W,
    ) -> Result<bool, ToolFault>
        requires works { (W.writing writer.old).failed ≡ false }
        requires fits { self.old.written + 2 ^ 80 ≤ 2 ^ 128 }
        requires lines { AreWholeLines self.old.held.items }
        ensures prints { OnOk result (WritesAllBut self.new.held.items (self.old.held.items
            ++ frame_text self.old.printing self.old.message_reader (frame_at place octets.now))
            self.old.written self.new.written (W.writing writer.old) (W.writing writer.new)) }
        ensures stops { IfErr result (λ fault. Adds
            (frame_text self.old.printing self.old.message_reader (frame_at place octets.now))
            self.old self.new (W.writing writer.old) (W.writing writer.new) (Err fault)) }
        ensures told { IfOk result (λ refused. from_bool refused
            ≡ frame_refused self.old.message_reader (frame_at place octets.now)) }
        ensures keeps { Keeps self.old self.new }
        ensures short { self.new.written + 2 ^ 64 ≤ self.old.written + 2 ^ 80 }
    {
        match self.printing {
            OutputForm::Shown => self.show_frame(alloc, place, octets, writer),
            OutputForm::Checked => Ok(self.check_frame(alloc, place, octets)?),
        }
    }

    fn count(&mut self, octets: &[u8], refused: bool)
        requires frames { self.old.frames + 1 < 2 ^ 128 }
        requires refused { self.old.refused + 1 < 2 ^ 128 }
        requires octets { self.old.octets + length octets.now < 2 ^ 64 }
        ensures { self.new ≡ record self.old {
          frames = self.old.frames + 1;
          refused = self.old.refused + from_bool refused;
          octets = self.old.octets + length octets.now;
        } }
    {
        self.frames += 1;
        self.refused += u128::from(refused);
        self.octets += octets.len() as u64;
    }

    pub(crate) fn print_frame<W: Sink>(
        &mut self,
        alloc: Global,
        place: u64,
        octets: &[u8],
        writer: &mut W,
    ) -> Result<(), ToolFault>
        requires works { (W.writing writer.old).failed ≡ false }
        requires lines { AreWholeLines self.old.held.items }
        requires few { self.old.frames + 1 ≤ 2 ^ 48 }
        requires refused { self.old.refused ≤ self.old.frames }
        requires octets { self.old.octets + length octets.now < 2 ^ 64 }
        requires short { self.old.written + length self.old.held.items
            + self.old.frames ≤ 2 ^ 80 * self.old.frames }
        ensures prints { PrintsFrame self.old.printing self.old.message_reader
            (frame_at place octets.now) self.old self.new (W.writing writer.old)
            (W.writing writer.new) result }
        ensures printing { self.new.printing ≡ self.old.printing }
        ensures tables { self.new.message_reader ≡ self.old.message_reader }
    {
        let refused = self.print_message(alloc, place, octets, writer)?;
        self.count(octets, refused);
        self.write_long(writer)
    }

    /// Writes all lines that it holds after want of memory. Returns the fault, or that of the writer if
    /// it fails now.
    pub(crate) fn stop<W: Sink>(&mut self, fault: ToolFault, writer: &mut W) -> ToolFault
        requires stopped { (first : Writing) × (text : List ℕ)
            × StopsWithin text first self.old (W.writing writer.old) fault }
        ensures { (first : Writing) (text : List ℕ)
            → StopsWithin text first self.old (W.writing writer.old) fault
            → Stops text first (W.writing writer.new) result }
    {
        match fault {
            ToolFault::OutOfMemory => match self.write_held(writer) {
                Ok(()) => fault,
                Err(failed) => failed,
            },
            _ => fault,
        }
    }
}
