//! The starts of a message's plain subsets.

ghost use Rattle.std.specs.Prelude.{◌≡◌, ◌<◌, length, slice_get, Some};

use crate::plain::fixed_size::Alike;
use crate::plain::index::SubsetStart;
use std::marker::Model;

/// A spacing of starts: a list, or the first bit, the common size and the number of subsets.
#[derive(Drop)]
pub(crate) enum Spacing {
    Listed(Vec<SubsetStart>),
    Even(u64, Alike, usize),
}

/// A list of the starts of all subsets. Contracts see it as a list.
#[derive(Drop)]
pub(crate) struct Starts {
    pub(crate) spacing: Spacing,
}

const _: () = prove!(size_of::<Starts>() == 40);

impl Model for Starts {
    ghost use Rattle.std.specs.Prelude.{List};
    ghost use Rattle.bufr_data.specs.declared.plain.index.SubsetStart.{SubsetStart};
    ghost use Rattle.bufr_data.specs.Plain.Even.{starts_in, HasRoom};

    ghost Value = { List SubsetStart };

    ghost view = { λ s. starts_in s.spacing };

    ghost invariant = { λ s. HasRoom s.spacing };
}

impl Starts {
    pub(crate) fn len(&self) -> usize
        ensures { result ≡ length self.now }
    {
        match &self.spacing {
            Spacing::Listed(starts) => starts.len(),
            Spacing::Even(_, _, count) => *count,
        }
    }

    /// Returns the start of the subset at an index, from 0.
    pub(crate) fn at(&self, index: usize) -> SubsetStart
        requires { index < length self.now }
        ensures { slice_get self.now index ≡ Some result }
    {
        match &self.spacing {
            Spacing::Listed(starts) => starts[index],
            Spacing::Even(bit, each, _) => {
                let before = index as u64;
                let begins = *bit + before * each.bits;
                let end = begins + each.bits;
                SubsetStart {
                    bit: begins as u128,
                    end: end as u128,
                    used: before * each.items,
                }
            }
        }
    }
}
