//! The sections of a message, as they are in its octets.

ghost use Rattle.std.specs.Prelude.{◌≡◌, ◌≤◌, drop, length, IfOk};
ghost use Rattle.bufr_sections.specs.Sections.{year_of_century};
ghost use Rattle.bufr_sections.specs.SectionsRead.{head3_with, head4_with};

use crate::layout::Layout;
use crate::listed::number_of_two;
use crate::message::Head;
use bufr_base::{Items, OutOfMemory};
use std::alloc::Global;
use std::marker::Model;

/// A message's sections, lent from its octets. Contracts see an `Envelope`.
#[derive(Drop)]
pub struct SectionsInPlace<'a> {
    pub(crate) layout: Layout,
    // The octets of section 1 after its length.
    pub(crate) one: &'a [u8],
    /// The octets for local use of section 2, if there is one.
    pub section2: Option<&'a [u8]>,
    /// The flag for observed data.
    pub observed: bool,
    /// The flag for compressed data.
    pub compressed: bool,
    /// The octets of section 3 from the eighth on: two for each descriptor, perhaps one more.
    pub listed: &'a [u8],
    /// The number of subsets.
    pub count: u16,
    /// The octets of section 4 from the fifth on.
    pub contents: &'a [u8],
}

impl<'a> Model for SectionsInPlace<'a> {
    ghost use Rattle.std.specs.Prelude.{◌≤◌, ◌+◌, length, option_map};
    ghost use Rattle.bufr_sections.specs.Sections.{Envelope, descriptors_of, shortest1};
    ghost use Rattle.bufr_sections.specs.InPlace.{head_in};

    ghost Value = { Envelope };

    ghost view = { λ s. record {
      head = head_in s.layout s.one.now;
      section2 = option_map (λ local. local.now) s.section2;
      observed = s.observed;
      compressed = s.compressed;
      descriptors = descriptors_of s.listed.now;
      count = s.count;
      contents = s.contents.now;
    } };

    ghost invariant = { λ s. shortest1 s.layout ≤ 3 + length s.one.now };
}

impl<'a> SectionsInPlace<'a> {
    /// Returns the originating centre.
    #[inline(always)]
    pub fn centre(&self) -> u16
        ensures { result ≡ self.now.head.centre }
    {
        match self.layout {
            Layout::Edition4 => number_of_two(self.one[1], self.one[2]),
            Layout::Edition3 => u16::from(self.one[2]),
        }
    }

    /// Returns the originating sub-centre.
    #[inline(always)]
    pub fn sub_centre(&self) -> u16
        ensures { result ≡ self.now.head.sub_centre }
    {
        match self.layout {
            Layout::Edition4 => number_of_two(self.one[3], self.one[4]),
            Layout::Edition3 => u16::from(self.one[1]),
        }
    }

    /// Returns the update sequence number.
    #[inline(always)]
    pub fn update(&self) -> u8
        ensures { result ≡ self.now.head.update }
    {
        match self.layout {
            Layout::Edition4 => self.one[5],
            Layout::Edition3 => self.one[3],
        }
    }

    /// Returns the data category.
    #[inline(always)]
    pub fn category(&self) -> u8
        ensures { result ≡ self.now.head.category }
    {
        match self.layout {
            Layout::Edition4 => self.one[7],
            Layout::Edition3 => self.one[5],
        }
    }

    /// Returns the international data sub-category.
    #[inline(always)]
    pub fn international(&self) -> u8
        ensures { result ≡ self.now.head.international }
    {
        match self.layout {
            Layout::Edition4 => self.one[8],
            Layout::Edition3 => 255,
        }
    }

    /// Returns the local data sub-category.
    #[inline(always)]
    pub fn local_category(&self) -> u8
        ensures { result ≡ self.now.head.local_category }
    {
        match self.layout {
            Layout::Edition4 => self.one[9],
            Layout::Edition3 => self.one[6],
        }
    }

    /// Returns the version of the master tables.
    #[inline(always)]
    pub fn master_version(&self) -> u8
        ensures { result ≡ self.now.head.master_version }
    {
        match self.layout {
            Layout::Edition4 => self.one[10],
            Layout::Edition3 => self.one[7],
        }
    }

    /// Returns the version of the local tables.
    #[inline(always)]
    pub fn local_version(&self) -> u8
        ensures { result ≡ self.now.head.local_version }
    {
        match self.layout {
            Layout::Edition4 => self.one[11],
            Layout::Edition3 => self.one[8],
        }
    }

    /// Returns the year.
    #[inline(always)]
    pub fn year(&self) -> u16
        ensures { result ≡ self.now.head.year }
    {
        match self.layout {
            Layout::Edition4 => number_of_two(self.one[12], self.one[13]),
            Layout::Edition3 => year_of_century(self.one[9]),
        }
    }

    /// Returns the month.
    #[inline(always)]
    pub fn month(&self) -> u8
        ensures { result ≡ self.now.head.month }
    {
        match self.layout {
            Layout::Edition4 => self.one[14],
            Layout::Edition3 => self.one[10],
        }
    }

    /// Returns the day of the month.
    #[inline(always)]
    pub fn day(&self) -> u8
        ensures { result ≡ self.now.head.day }
    {
        match self.layout {
            Layout::Edition4 => self.one[15],
            Layout::Edition3 => self.one[11],
        }
    }

    /// Returns the hour.
    #[inline(always)]
    pub fn hour(&self) -> u8
        ensures { result ≡ self.now.head.hour }
    {
        match self.layout {
            Layout::Edition4 => self.one[16],
            Layout::Edition3 => self.one[12],
        }
    }

    /// Returns the minute.
    #[inline(always)]
    pub fn minute(&self) -> u8
        ensures { result ≡ self.now.head.minute }
    {
        match self.layout {
            Layout::Edition4 => self.one[17],
            Layout::Edition3 => self.one[13],
        }
    }

    /// Returns the second.
    #[inline(always)]
    pub fn second(&self) -> u8
        ensures { result ≡ self.now.head.second }
    {
        match self.layout {
            Layout::Edition4 => self.one[18],
            Layout::Edition3 => 0,
        }
    }

    /// Copies section 1.
    // A call would copy the head once more.
    #[inline(always)]
    pub(crate) fn copied_head(&self, alloc: Global) -> Result<Head, OutOfMemory>
        ensures { IfOk result (λ head. head ≡ self.now.head) }
    {
        match self.layout {
            Layout::Edition4 => head4(alloc, self.one),
            Layout::Edition3 => head3(alloc, self.one),
        }
    }
}

/// Completes a year of the century: 0 to 69 become 2000 to 2069, others count from 1900.
#[inline(always)]
fn year_of_century(octet: u8) -> u16
    ensures { result ≡ year_of_century octet }
{
    if octet < 70 {
        2000 + octet as u16
    } else {
        1900 + octet as u16
    }
}

/// Copies section 1 of edition 4 after its length.
#[inline(always)]
fn head4(alloc: Global, one: &[u8]) -> Result<Head, OutOfMemory>
    requires { 19 ≤ length one.now }
    ensures { IfOk result (λ head. head ≡ head4_with one.now (drop 19 one.now)) }
{
    let local = Items::from_vec(Vec::from_slice(alloc, &one[19..])?);
    Ok(Head {
        centre: number_of_two(one[1], one[2]),
        sub_centre: number_of_two(one[3], one[4]),
        update: one[5],
        category: one[7],
        international: one[8],
        local_category: one[9],
        master_version: one[10],
        local_version: one[11],
        year: number_of_two(one[12], one[13]),
        month: one[14],
        day: one[15],
        hour: one[16],
        minute: one[17],
        second: one[18],
        local,
    })
}

/// Copies section 1 of edition 3 after its length.
#[inline(always)]
fn head3(alloc: Global, one: &[u8]) -> Result<Head, OutOfMemory>
    requires { 14 ≤ length one.now }
    ensures { IfOk result (λ head. head ≡ head3_with one.now (drop 14 one.now)) }
{
    let local = Items::from_vec(Vec::from_slice(alloc, &one[14..])?);
    Ok(Head {
        centre: u16::from(one[2]),
        sub_centre: u16::from(one[1]),
        update: one[3],
        category: one[5],
        international: 255,
        local_category: one[6],
        master_version: one[7],
        local_version: one[8],
        year: year_of_century(one[9]),
        month: one[10],
        day: one[11],
        hour: one[12],
        minute: one[13],
        second: 0,
        local,
    })
}
