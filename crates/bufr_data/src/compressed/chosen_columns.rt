//! Lends the columns of chosen fields.

ghost use Rattle.std.specs.Prelude.{◌≡◌, ◌<◌, length, option_map, slice_get, Some, IfSome};
ghost use Rattle.bufr_data.specs.Compressed.{subset_of};
ghost use Rattle.bufr_data.specs.LentTexts.{HasOctets};
ghost use Rattle.bufr_fields.specs.declared.field.Field.{Field as AField};
ghost use Rattle.bufr_fields.specs.Values.{as_field};

use crate::compressed::index::{ColumnStart, number_there, text_there};
use crate::fields::by_parts;
use crate::plain::copy::SUBSET_ROOM;
use crate::text::LentText;
use bufr_fields::NumberField;
use bufr_tables::Fxy;
use std::marker::Model;

/// The columns of the descriptors asked for. Contracts see their values.
#[derive(Drop)]
pub struct ChosenColumns<'v> {
    pub(crate) octets: &'v [u8],
    pub(crate) subsets: u16,
    pub(crate) places: &'v [ColumnStart],
}

impl<'v> Model for ChosenColumns<'v> {
    ghost use Rattle.std.specs.Prelude.{map};
    ghost use Rattle.bufr_data.specs.Compressed.Indexed.{Indexed, AllOpen, column_from};

    ghost Value = { Indexed };

    ghost view = { λ c. record {
      subsets = c.subsets;
      columns = map (column_from c.octets.now c.subsets) c.places.now;
    } };

    ghost invariant = { λ c. AllOpen c.octets.now c.subsets c.places.now };
}

impl<'v> ChosenColumns<'v> {
    /// Returns the number of columns.
    pub fn len(&self) -> usize
        ensures { result ≡ length self.now.columns }
    {
        self.places.len()
    }

    /// Returns the descriptor of the column at an index, from 0.
    pub fn fxy_at(&self, column: usize) -> Option<Fxy>
        ensures { result ≡ option_map (λ c. c.fxy) (slice_get self.now.columns column) }
    {
        match self.places.get(column) {
            Some(place) => Some(place.fxy),
            None => None,
        }
    }

    /// Returns the value in the column at an index, for the subset at an index, if it is a number.
    #[inline(always)]
    pub fn number_at(&self, column: usize, subset: usize) -> Option<NumberField>
        requires { subset < self.now.subsets }
        ensures { IfSome result (λ number.
            slice_get (subset_of self.now.columns subset).fields column ≡ Some (as_field number)) }
    {
        let Some(place) = self.places.get(column) else {
            return None;
        };
        let number = number_there(self.octets, self.subsets, *place, subset as u16)?;
        Some(NumberField {
            fxy: place.fxy,
            spec: by_parts(place.spec),
            number,
        })
    }

    /// Returns the value in the column at an index, for the subset at an index, if it is a text of
    /// at most 64 octets. Its octets are in `room`.
    pub fn text_at<'r>(
        &self,
        column: usize,
        subset: usize,
        room: &'r mut [u8; SUBSET_ROOM],
    ) -> Option<LentText<'r>>
        requires { subset < self.now.subsets }
        ensures { IfSome result (λ text. (f : AField) × HasOctets f text.fxy text.octets.now
            × (slice_get (subset_of self.now.columns subset).fields column ≡ Some f)) }
    {
        let Some(place) = self.places.get(column) else {
            return None;
        };
        let octets = text_there(self.octets, self.subsets, *place, subset as u16, room)?;
        Some(LentText {
            fxy: place.fxy,
            octets,
        })
    }
}
