//! Inputs, read to their end.

ghost use Rattle.std.specs.Prelude.{◌≡◌, ◌≤◌, ◌<◌, ◌+◌, ℕ, List, false, IfOk, OnOk, length, vec_len};
ghost use Rattle.std.specs.Option.{option_map};
ghost use Rattle.bufr_base.specs.Answers.{result_map};
ghost use Rattle.bufr_bits.specs.Devices.{Reading};
ghost use Rattle.bufr_io.specs.declared.fault.Input.{Input as InputKind};
ghost use Rattle.bufr_io.specs.Engines.{IsFresh};
ghost use Rattle.bufr_io.specs.Inputs.{HasRead, ReadsAll, ReadsOn};
ghost use Rattle.bufr_io.specs.Limits.{most_reads, longest_piece};

use crate::fault::{Input, ToolFault};
use bufr_base::OutOfMemory;
use bufr_bits::Source;
use std::alloc::Global;

/// The most octets that a read asks for.
pub const LONGEST_PIECE: usize = 65_536;

/// The most reads of one input that a caller can allow.
pub const MOST_READS: u64 = 4_294_967_296;

/// Makes room for one read.
pub fn read_buffer(alloc: Global) -> Result<Vec<u8>, OutOfMemory>
    ensures { IfOk result (λ buffer. vec_len buffer ≡ longest_piece) }
{
    vec![in alloc; 0u8; LONGEST_PIECE]
}

/// A count of the reads of an input.
#[derive(Drop)]
pub struct Pieces {
    /// The number of reads.
    pub made: u64,
    /// The most reads.
    pub most: u64,
    /// The input.
    pub name: Input,
}

impl Pieces {
    /// Reads the next piece, which has an octet at least, or `None` at the end.
    pub fn next<'r, S: Source>(
        &mut self,
        reader: &mut S,
        buffer: &'r mut [u8],
    ) -> Result<Option<&'r [u8]>, ToolFault>
        requires works { (S.reading reader.old).failed ≡ false }
        requires counted { (S.reading reader.old).reads ≡ self.old.made }
        requires some { 0 < length buffer.old }
        requires short { length buffer.old ≤ longest_piece }
        ensures counts { OnOk result (self.new.made ≡ self.old.made + 1) }
        ensures reads { (name : InputKind) (most : ℕ) (first : Reading) (octets : List ℕ)
            → HasRead name most first (S.reading reader.old) self.old octets
            → ReadsOn name most first (S.reading reader.new) self.new octets
            (result_map (option_map (λ piece. piece.now)) result) }
    {
        if self.made >= self.most {
            return Err(ToolFault::EndlessInput(self.name));
        }
        self.made += 1;
        let Ok(given) = reader.read(&mut *buffer) else {
            return Err(ToolFault::ReadFailed(self.name));
        };
        if given == 0 {
            return Ok(None);
        }
        Ok(Some(&buffer[..given]))
    }
}

/// Reads all octets of a reader.
pub fn read_all<S: Source>(
    alloc: Global,
    reads: u64,
    name: Input,
    reader: &mut S,
) -> Result<Vec<u8>, ToolFault>
    requires few { reads ≤ most_reads }
    requires fresh { IsFresh (S.reading reader.old) }
    ensures bounded { (S.reading reader.new).reads ≤ reads }
    ensures all { ReadsAll name reads (S.reading reader.old) (S.reading reader.new)
        (result_map (λ octets. octets.items) result) }
{
    let mut buffer = read_buffer(alloc)?;
    let mut octets = Vec::new(alloc);
    let mut pieces = Pieces {
        made: 0,
        most: reads,
        name,
    };
    while let Some(piece) = pieces.next(reader, &mut buffer)? {
        octets.extend_from_slice(piece)?;
    }
    Ok(octets)
}
