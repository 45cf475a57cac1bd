//! Reads the bits of fields with a layout.

ghost use Rattle.std.specs.Prelude.{◌≡◌, ◌+◌, ◌-◌, ◌*◌, ◌^◌, ◌<◌, ◌≤◌, drop, length, take, Bool, List, Ok};
ghost use Rattle.std.specs.Prelude.{IsOk, IfSome, IfNone, OnErr};
ghost use Rattle.bufr_base.specs.Answers.{Gives};
ghost use Rattle.bufr_bits.specs.Bits.{number};
ghost use Rattle.bufr_bits.specs.Ends.{left};
ghost use Rattle.bufr_fields.specs.declared.field.Raw.TheVariants.{Number};
ghost use Rattle.bufr_tables.specs.declared.element.Kind.TheVariants.{Text};
ghost use Rattle.bufr_data.specs.Handed.{moved_on};
ghost use Rattle.bufr_data.specs.Plain.{raw_at};
ghost use Rattle.bufr_data.specs.Plain.Reads.{raw_or_ends};

use crate::plain::index::MOST_COUNTED_OCTETS;
use crate::plain::read::read_raw;
use bufr_base::Failure;
use bufr_bits::BitReader;
use bufr_expand::Spec;
use bufr_fields::{DataFault, Raw};
use bufr_tables::Kind;
use std::alloc::Global;
use std::marker::Model;

/// A reader of bits that 64 bits can count. Contracts see it as a `BitReader`.
#[derive(Drop)]
pub(crate) struct LaidReader<'a> {
    octets: &'a [u8],
    bit: u64,
}

impl<'a> Model for LaidReader<'a> {
    ghost use Rattle.std.specs.Prelude.{◌*◌, ◌^◌, ◌<◌, ◌≤◌, length};
    ghost use Rattle.bufr_bits.specs.Ends.{BitPlace};

    ghost Value = { BitPlace };

    ghost view = { λ r. record { octets = r.octets.now; place = r.bit } };

    ghost invariant = { λ r. (r.bit ≤ 8 * length r.octets.now)
        × (8 * length r.octets.now < 2 ^ 64) };
}

impl<'a> LaidReader<'a> {
    /// Makes a reader that begins at a bit, counted from 0.
    #[inline(always)]
    pub(crate) fn at(octets: &'a [u8], bit: u64) -> LaidReader<'a>
        requires inside { bit ≤ 8 * length octets.now }
        requires counted { 8 * length octets.now < 2 ^ 64 }
        ensures { result ≡ record { octets = octets.now; place = bit } }
    {
        LaidReader { octets, bit }
    }

    /// Makes a reader at the place of another if 64 bits can count all bits.
    pub(crate) fn of(reader: &BitReader<'a>) -> Option<LaidReader<'a>>
        ensures { IfSome result (λ laid. laid ≡ reader.now) }
    {
        let octets = reader.octets();
        if octets.len() > MOST_COUNTED_OCTETS {
            return None;
        }
        // The bits left bound the place.
        let _left = reader.left();
        Some(LaidReader::at(octets, reader.place() as u64))
    }

    /// Makes another reader at the same place.
    #[inline(always)]
    pub(crate) fn again(&self) -> LaidReader<'a>
        ensures { result ≡ self.now }
    {
        LaidReader {
            octets: self.octets,
            bit: self.bit,
        }
    }

    /// Returns a `BitReader` at the same place.
    #[inline(always)]
    fn here(&self) -> BitReader<'a>
        ensures { result ≡ self.now }
    {
        BitReader::at(self.octets, u128::from(self.bit))
    }

    /// Returns the number of bits left.
    #[inline(always)]
    pub(crate) fn left(&self) -> u64
        ensures bits { result ≡ length (left self.now) }
        ensures rest { self.now.place + result ≡ 8 * length self.now.octets }
        ensures counted { 8 * length self.now.octets < 2 ^ 64 }
    {
        let _ = &self.octets;
        self.here().left() as u64
    }

    /// Skips `bits` bits that are there.
    #[inline(always)]
    pub(crate) fn move_on(&mut self, bits: u64)
        requires { bits ≤ length (left self.old) }
        ensures { self.new ≡ moved_on self.old bits }
    {
        let _left = self.left();
        self.bit += bits;
    }

    /// Takes a number of `width` bits that are there.
    #[inline(always)]
    pub(crate) fn take_bits(&mut self, width: u32) -> u64
        requires narrow { width ≤ 64 }
        requires enough { width ≤ length (left self.old) }
        ensures found { result ≡ number (take width (left self.old)) }
        ensures moved { self.new ≡ moved_on self.old width }
    {
        let number = self.here().take_left(width);
        self.move_on(u64::from(width));
        number
    }

    /// Takes a number that is there; at a text returns `None` without moving.
    #[inline(always)]
    pub(crate) fn take_number(&mut self, spec: Spec) -> Option<u64>
        requires { IsOk (raw_or_ends 1 1 (raw_at spec (left self.old))) }
        ensures found { IfSome result (λ number.
            raw_or_ends 1 1 (raw_at spec (left self.old)) ≡ Ok (Number number, left self.new)) }
        ensures unmoved { IfNone result (self.new ≡ self.old) }
    {
        match spec.kind {
            Kind::Text => None,
            _ => {
                let number = self.here().take_left(spec.width);
                self.move_on(u64::from(spec.width));
                Some(number)
            }
        }
    }

    /// Takes a number that is there after `gap` bits; at a text returns `None` without moving.
    #[inline(always)]
    pub(crate) fn number_after(&mut self, gap: u64, spec: Spec) -> Option<u64>
        requires within { gap ≤ length (left self.old) }
        requires there { IsOk (raw_or_ends 1 1 (raw_at spec (drop gap (left self.old)))) }
        ensures found { IfSome result (λ number. raw_or_ends 1 1
            (raw_at spec (drop gap (left self.old))) ≡ Ok (Number number, left self.new)) }
        ensures unmoved { IfNone result (self.new ≡ self.old) }
    {
        match spec.kind {
            Kind::Text => None,
            _ => {
                self.move_on(gap);
                let number = self.here().take_left(spec.width);
                self.move_on(u64::from(spec.width));
                Some(number)
            }
        }
    }

    /// Takes a number of at most 16 bits that is there after `gap` bits; `greatest` is the greatest of
    /// as many bits.
    #[inline(always)]
    pub(crate) fn short_after(&mut self, gap: u64, spec: Spec, greatest: u16) -> u16
        requires within { gap ≤ length (left self.old) }
        requires there { IsOk (raw_or_ends 1 1 (raw_at spec (drop gap (left self.old)))) }
        requires other { spec.kind ≡ Text → ⊥ }
        requires narrow { spec.width ≤ 16 }
        requires ones { greatest ≡ 2 ^ spec.width - 1 }
        ensures found { raw_or_ends 1 1
            (raw_at spec (drop gap (left self.old))) ≡ Ok (Number result, left self.new) }
    {
        self.move_on(gap);
        let number = self.here().take_short(spec.width, greatest);
        self.move_on(u64::from(spec.width));
        number
    }

    /// Takes a value that is there after `gap` bits.
    pub(crate) fn raw_after(
        &mut self,
        alloc: Global,
        gap: u64,
        spec: Spec,
    ) -> Result<Raw, Failure<DataFault>>
        requires within { gap ≤ length (left self.old) }
        requires there { IsOk (raw_or_ends 1 1 (raw_at spec (drop gap (left self.old)))) }
        ensures exact { Gives {Y = Raw × List Bool} (λ raw. (raw, left self.new)) result
            (raw_or_ends 1 1 (raw_at spec (drop gap (left self.old)))) }
        ensures err { OnErr result (self.new ≡ self.old) }
    {
        let mut later = self.again();
        later.move_on(gap);
        let raw = later.take_raw(alloc, spec)?;
        *self = later;
        Ok(raw)
    }

    /// Takes a value that is there.
    #[inline(always)]
    pub(crate) fn take_raw(&mut self, alloc: Global, spec: Spec) -> Result<Raw, Failure<DataFault>>
        requires { IsOk (raw_or_ends 1 1 (raw_at spec (left self.old))) }
        ensures exact { Gives {Y = Raw × List Bool} (λ raw. (raw, left self.new)) result
            (raw_or_ends 1 1 (raw_at spec (left self.old))) }
        ensures err { OnErr result (self.new ≡ self.old) }
    {
        if let Some(number) = self.take_number(spec) {
            return Ok(Raw::Number(number));
        }
        let mut reader = self.here();
        let raw = read_raw(alloc, spec, &mut reader, 1)?;
        let _left = reader.left();
        self.bit = reader.place() as u64;
        Ok(raw)
    }
}
