//! Writes bits. A call that can't grow returns `OutOfMemory` and puts nothing.

ghost use Rattle.std.specs.Prelude.{◌≡◌, ◌≤◌, ◌<◌, ◌^◌, ◌++◌, ◌%◌, ◌-◌, [], length, take};
ghost use Rattle.std.specs.Prelude.{replicate, false, IfOk, OnOk, OnErr};
ghost use Rattle.bufr_bits.specs.Bits.{bin, bits};

use super::append::{append, append_octets, cut_after};
use bufr_base::OutOfMemory;
use std::alloc::Global;
use std::marker::Model;

/// A growing list of bits, in whole octets on the heap; zero bits fill the last.
#[derive(Drop)]
pub struct BitSink {
    octets: Vec<u8>,
    len: u128,
}

impl Model for BitSink {
    ghost use Rattle.std.specs.Prelude.{Bool, List, take};
    ghost use Rattle.bufr_bits.specs.Bits.{bits};
    ghost use Rattle.bufr_bits.specs.Filled.{IsFilled};

    ghost Value = { List Bool };

    ghost view = { λ s. take s.len (bits s.octets.items) };

    ghost invariant = { λ s. IsFilled s.len s.octets.items };
}

impl BitSink {
    /// Makes an empty sink.
    pub fn new(alloc: Global) -> Self
        ensures { result ≡ [] }
    {
        BitSink {
            octets: Vec::new(alloc),
            len: 0,
        }
    }

    /// Makes an empty sink with room for `octets` octets.
    pub fn with_capacity(alloc: Global, octets: usize) -> Result<Self, OutOfMemory>
        ensures { IfOk result (λ sink. sink ≡ []) }
    {
        let octets = Vec::with_capacity(alloc, octets)?;
        Ok(BitSink { octets, len: 0 })
    }

    /// Returns the number of bits.
    pub fn len_bits(&self) -> u128
        ensures { result ≡ length self.now }
    {
        self.len
    }

    /// Appends a number as `width` bits, in at most nine octets.
    pub fn put(&mut self, width: u32, number: u64) -> Result<(), OutOfMemory>
        requires width { width ≤ 64 }
        requires fits { number < 2 ^ width }
        ensures ok { OnOk result (self.new ≡ self.old ++ bin width number) }
        ensures err { OnErr result (self.new ≡ self.old) }
    {
        append(&mut self.octets, self.len, width, number)?;
        self.len += u128::from(width);
        Ok(())
    }

    /// Appends octets at any bit.
    pub fn put_bytes(&mut self, octets: &[u8]) -> Result<(), OutOfMemory>
        ensures ok { OnOk result (self.new ≡ self.old ++ bits octets.now) }
        ensures err { OnErr result (self.new ≡ self.old) }
    {
        append_octets(&mut self.octets, self.len, octets)?;
        self.len += 8 * octets.len() as u128;
        Ok(())
    }

    /// Keeps the first `bits` bits.
    pub fn cut(&mut self, bits: u128)
        requires { bits ≤ length self.old }
        ensures { self.new ≡ take bits self.old }
    {
        cut_after(&mut self.octets, bits);
        self.len = bits;
    }

    /// Appends zero bits up to the end of the last octet.
    pub fn fill_octet(&mut self)
        ensures whole { length self.new % 8 ≡ 0 }
        ensures filled { self.new ≡ self.old ++ replicate ((8 - length self.old % 8) % 8) false }
    {
        self.len = 8 * self.octets.len() as u128;
    }

    /// Returns the octets.
    pub fn into_bytes(self) -> Vec<u8>
        requires { length self % 8 ≡ 0 }
        ensures { bits result.items ≡ self }
    {
        self.octets
    }
}
