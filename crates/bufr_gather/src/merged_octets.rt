//! The octets of two merged texts, lent one entry at a time.
ghost use Rattle.std.specs.Prelude.{◌≡◌, ◌++◌, [], length, IfNone, IfOk};
ghost use Rattle.std.specs.Option.{option_map, option_to_list};
ghost use Rattle.std.specs.List.{flat_map};
ghost use Rattle.bufr_gather.specs.MergedOctets.{handed_out};

use crate::reading::split_first;
use bufr_base::OutOfMemory;
use std::alloc::Global;
use std::marker::Model;

/// A text that a kept entry is from: it alone has an entry of the slot, or both have one.
#[derive(Clone, Copy, Drop, PartialEq, Eq)]
pub(crate) enum EntrySource {
    Left,
    Right,
    LeftOfBoth,
    RightOfBoth,
}

/// An iterator over the octets of the kept entries of two texts, in order of slots, lent from their
/// texts. Contracts see the octets left.
#[derive(Drop)]
pub struct MergedOctets<'a> {
    origins: Vec<EntrySource>,
    left: &'a [u8],
    right: &'a [u8],
}

impl<'a> Model for MergedOctets<'a> {
    ghost use Rattle.std.specs.Prelude.{ℕ, List, reverse};
    ghost use Rattle.bufr_gather.specs.MergedOctets.{handed_out};

    ghost Value = { List (List ℕ) };

    // The origins, in reverse.
    ghost view = { λ m. handed_out (reverse m.origins.items) m.left.now m.right.now };
}

impl<'a> MergedOctets<'a> {
    pub(crate) fn new(mut origins: Vec<EntrySource>, left: &'a [u8], right: &'a [u8]) -> Self
        ensures { result ≡ handed_out origins.items left.now right.now }
    {
        origins.reverse();
        MergedOctets {
            origins,
            left,
            right,
        }
    }

    /// Counts the entries left.
    pub fn len(&self) -> usize
        ensures { result ≡ length self.now }
    {
        self.origins.len()
    }

    /// Returns the octets of the next entry.
    pub fn next(&mut self) -> Option<&'a [u8]>
        ensures taken { self.old ≡ option_to_list (option_map (λ s. s.now) result) ++ self.new }
        ensures none { IfNone result (self.old ≡ []) }
    {
        let origin = self.origins.pop()?;
        match origin {
            EntrySource::Left => {
                let (left, behind_left) = split_first(self.left);
                self.left = behind_left;
                Some(left)
            }
            EntrySource::Right => {
                let (right, behind_right) = split_first(self.right);
                self.right = behind_right;
                Some(right)
            }
            EntrySource::LeftOfBoth => {
                let (left, behind_left) = split_first(self.left);
                self.left = behind_left;
                self.right = split_first(self.right).1;
                Some(left)
            }
            EntrySource::RightOfBoth => {
                let (right, behind_right) = split_first(self.right);
                self.left = split_first(self.left).1;
                self.right = behind_right;
                Some(right)
            }
        }
    }

    /// Joins the octets left; reserves `room` octets first.
    pub(crate) fn into_text(mut self, alloc: Global, room: usize) -> Result<Vec<u8>, OutOfMemory>
        ensures { IfOk result (λ octets. octets.items ≡ flat_map (λ o. o) self.entry) }
    {
        let mut text = Vec::with_capacity(alloc, room)?;
        while let Some(octets) = self.next() {
            text.extend_from_slice(octets)?;
        }
        text.shrink_to_fit();
        Ok(text)
    }
}
