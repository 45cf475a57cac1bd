//! Reads bits. A refused call leaves the reader where it was.

ghost use Rattle.std.specs.Prelude.{◌≡◌, ◌+◌, ◌-◌, ◌*◌, ◌^◌, ◌<◌, ◌≤◌, length, drop, Some, None, IfSome};
ghost use Rattle.std.specs.Prelude.{IfNone, OnSome, OnErr, OnOk, IfOk, option_map};
ghost use Rattle.std.specs.Bool.{OnTrue, OnFalse};
ghost use Rattle.bufr_bits.specs.Bits.{number_at, octets_at};
ghost use Rattle.bufr_bits.specs.Ends.{BitPlace, left};

use super::field::{field, short_field};
use super::octets::octets_from;
use bufr_base::OutOfMemory;
use std::alloc::Global;
use std::marker::Model;

/// A reader of bits, the most significant of each octet first.
#[derive(Drop)]
pub struct BitReader<'a> {
    octets: &'a [u8],
    place: u128,
}

impl<'a> Model for BitReader<'a> {
    ghost use Rattle.std.specs.Prelude.{◌*◌, ◌≤◌, length};
    ghost use Rattle.bufr_bits.specs.Ends.{BitPlace};

    ghost Value = { BitPlace };

    ghost view = { λ r. record { octets = r.octets.now; place = r.place } };

    ghost invariant = { λ r. r.place ≤ 8 * length r.octets.now };
}

impl<'a> BitReader<'a> {
    /// Makes a reader of all bits.
    pub fn new(octets: &'a [u8]) -> Self
        ensures { result ≡ record { octets = octets.now; place = 0 } }
    {
        BitReader { octets, place: 0 }
    }

    /// Makes a reader that begins at a bit, counted from 0.
    pub fn at(octets: &'a [u8], bit: u128) -> Self
        requires { bit ≤ 8 * length octets.now }
        ensures { result ≡ record { octets = octets.now; place = bit } }
    {
        BitReader { octets, place: bit }
    }

    /// Returns the number of bits before the next one.
    pub fn place(&self) -> u128
        ensures { result ≡ self.now.place }
    {
        self.place
    }

    /// Returns all octets. They may outlive the reader.
    pub fn octets(&self) -> &'a [u8]
        ensures { result.now ≡ self.now.octets }
    {
        self.octets
    }

    /// Returns the number of bits left.
    pub fn left(&self) -> u128
        ensures bits { result ≡ length (left self.now) }
        ensures rest { self.now.place + result ≡ 8 * length self.now.octets }
    {
        8 * self.octets.len() as u128 - self.place
    }

    /// Goes back to a bit that was passed.
    pub fn return_to(&mut self, bit: u128)
        requires { bit ≤ self.old.place }
        ensures { self.new ≡ record self.old { place = bit } }
    {
        self.place = bit;
    }

    /// Skips `bits` bits, or returns false if fewer are left.
    pub fn pass(&mut self, bits: u128) -> bool
        ensures enough { OnTrue result (bits ≤ length (left self.old)) }
        ensures passed { OnTrue result
            (self.new ≡ record self.old { place = self.old.place + bits }) }
        ensures rest { OnTrue result (left self.new ≡ drop bits (left self.old)) }
        ensures short { OnFalse result (length (left self.old) < bits) }
        ensures unmoved { OnFalse result (self.new ≡ self.old) }
    {
        if self.left() < bits {
            return false;
        }
        self.place += bits;
        true
    }

    /// Takes `width` bits as a number, or returns `None` if fewer are left.
    pub fn take(&mut self, width: u32) -> Option<u64>
        requires { width ≤ 64 }
        ensures found { IfSome result
            (λ n. number_at width (left self.old) ≡ Some (n, left self.new)) }
        ensures moved { OnSome result
            (self.new ≡ record self.old { place = self.old.place + width }) }
        ensures short { IfNone result (number_at width (left self.old) ≡ None) }
        ensures unmoved { IfNone result (self.new ≡ self.old) }
    {
        if self.left() < u128::from(width) {
            return None;
        }
        let number = field(self.octets, self.place, width);
        self.place += u128::from(width);
        Some(number)
    }

    /// Takes `width` bits that are there as a number.
    pub fn take_left(&mut self, width: u32) -> u64
        requires narrow { width ≤ 64 }
        requires enough { width ≤ length (left self.old) }
        ensures found { number_at width (left self.old) ≡ Some (result, left self.new) }
        ensures moved { self.new ≡ record self.old { place = self.old.place + width } }
    {
        let number = field(self.octets, self.place, width);
        self.place += u128::from(width);
        number
    }

    /// Takes at most 16 bits that are there as a number; `greatest` is the greatest of as many bits.
    #[inline(always)]
    pub fn take_short(&mut self, width: u32, greatest: u16) -> u16
        requires narrow { width ≤ 16 }
        requires ones { greatest ≡ 2 ^ width - 1 }
        requires enough { width ≤ length (left self.old) }
        ensures found { number_at width (left self.old) ≡ Some (result, left self.new) }
        ensures moved { self.new ≡ record self.old { place = self.old.place + width } }
    {
        let number = short_field(self.octets, self.place, width, greatest);
        self.place += u128::from(width);
        number
    }

    /// Copies `n` octets from any bit on, or returns `None` if fewer are left.
    pub fn take_bytes(&mut self, alloc: Global, n: u64) -> Result<Option<Vec<u8>>, OutOfMemory>
        ensures found { IfOk result (λ o. IfSome o
            (λ v. octets_at n (left self.old) ≡ Some (v.items, left self.new))) }
        ensures moved { IfOk result (λ o. OnSome o
            (self.new ≡ record self.old { place = self.old.place + 8 * n })) }
        ensures short { IfOk result (λ o. IfNone o
            ((octets_at n (left self.old) ≡ None) × (self.new ≡ self.old))) }
        ensures err { OnErr result (self.new ≡ self.old) }
    {
        let width = 8 * u128::from(n);
        if self.left() < width {
            return Ok(None);
        }
        let octets = octets_from(alloc, self.octets, self.place, n as usize)?;
        self.place += width;
        Ok(Some(octets))
    }
}
