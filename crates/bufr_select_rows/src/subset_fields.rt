//! Sources of the fields that are asked for.

ghost use Rattle.std.specs.Prelude.{◌≡◌, List, Some, IfOk, IfSome, IfNone};
ghost use Rattle.std.specs.Bool.{OnTrue};
ghost use Rattle.bufr_fields.specs.declared.field.Field.{Field as AField};
ghost use Rattle.bufr_fields.specs.Values.{as_field};
ghost use Rattle.bufr_data.specs.Handed.{HandsOutAsked, NoneAsked, PassesUnasked};
ghost use Rattle.bufr_data.specs.Short.{HandsOutShort};
ghost use Rattle.bufr_data.specs.LentTexts.{HasOctets};
ghost use Rattle.bufr_select_rows.specs.Asks.{flagged};
ghost use Rattle.bufr_select_rows.specs.Cells.{is_awaited};
ghost use Rattle.bufr_data.specs.Turns.{TakesTurns};

use crate::awaited::Awaited;
use crate::column_descriptors::ColumnDescriptors;
use bufr_base::OutOfMemory;
use bufr_data::{
    ChosenFields, LaidFields, LentText, NumberField, NumberTurns, SUBSET_ROOM, ShortNumber,
};
use bufr_expand::Asks;
use bufr_message::{Field, Fields};
use bufr_tables::Fxy;
use std::alloc::Global;

/// A source of the fields of a subset.
pub(crate) trait SubsetFields<'v> {
    /// The fields that are left.
    ghost left: { Self → List AField };

    /// Hands out the next field if it has a short number. It may return `None` at any other field.
    fn pick_short(&mut self) -> Option<ShortNumber>
        ensures found { IfSome result (λ short. HandsOutShort (left self.old) short
            (left self.new)) }
        ensures others { IfNone result (left self.new ≡ left self.old) };

    /// Hands out the next field that is asked for, if it is a number. Else returns `None`, and
    /// `pick` takes the field.
    fn pick_number(&mut self, asked: &ColumnDescriptors) -> Option<NumberField>
        ensures found { IfSome result (λ number. HandsOutAsked (flagged asked.now) (left self.old)
            (Some (as_field number)) (left self.new)) }
        ensures others { IfNone result (PassesUnasked (flagged asked.now) (left self.old)
            (left self.new)) };

    /// Hands out the next field that is asked for, its octets in `room`, if it is a text. It may
    /// return `None` at any field, and `pick` takes that.
    fn pick_text<'r>(
        &mut self,
        asked: &ColumnDescriptors,
        room: &'r mut [u8; SUBSET_ROOM],
    ) -> Option<LentText<'r>>
        ensures found { IfSome result (λ text. (f : AField) × HasOctets f text.fxy text.octets.now
            × HandsOutAsked (flagged asked.now) (left self.old) (Some f) (left self.new)) }
        ensures others { IfNone result (PassesUnasked (flagged asked.now) (left self.old)
            (left self.new)) };

    /// Hands out the next field that is asked for, or `None` if none is left.
    fn pick(
        &mut self,
        alloc: Global,
        asked: &ColumnDescriptors,
    ) -> Result<Option<Field>, OutOfMemory>
        ensures { IfOk result (λ found.
            HandsOutAsked (flagged asked.now) (left self.old) found (left self.new)) };

    /// Takes all but the last of the turns that come next, if each is a span of numbers.
    fn pick_turns(
        &mut self,
        alloc: Global,
        asked: &ColumnDescriptors,
        opener: Fxy,
    ) -> Result<Option<NumberTurns<'v>>, OutOfMemory>
        ensures taken { IfOk result (λ found. IfSome found (λ turns.
            TakesTurns (flagged asked.now) opener (left self.old) turns (left self.new))) }
        ensures others { IfOk result (λ found. IfNone found (left self.new ≡ left self.old)) };

    /// Returns true if it is known that no cell waits for one of the fields.
    fn has_no_more(&self, awaited: &Awaited<'_>) -> bool
        ensures { OnTrue result (NoneAsked (is_awaited awaited.now.cells.now) (left self.now)) };
}

impl<'v> SubsetFields<'v> for Fields<'v> {
    ghost left = { λ f. f };

    #[inline(always)]
    fn pick_short(&mut self) -> Option<ShortNumber> {
        None
    }

    #[inline(always)]
    fn pick_number(&mut self, asked: &ColumnDescriptors) -> Option<NumberField> {
        self.next_asked_number(asked)
    }

    #[inline(always)]
    fn pick_text<'r>(
        &mut self,
        _asked: &ColumnDescriptors,
        _room: &'r mut [u8; SUBSET_ROOM],
    ) -> Option<LentText<'r>> {
        None
    }

    #[inline(always)]
    fn pick(
        &mut self,
        alloc: Global,
        asked: &ColumnDescriptors,
    ) -> Result<Option<Field>, OutOfMemory> {
        self.next_asked(alloc, asked)
    }

    #[inline(always)]
    fn pick_turns(
        &mut self,
        alloc: Global,
        asked: &ColumnDescriptors,
        opener: Fxy,
    ) -> Result<Option<NumberTurns<'v>>, OutOfMemory> {
        self.take_turns(alloc, asked, opener)
    }

    fn has_no_more(&self, awaited: &Awaited<'_>) -> bool {
        Fields::has_no_more(self, awaited)
    }
}

impl<'v> SubsetFields<'v> for ChosenFields<'v> {
    ghost left = { λ f. f };

    #[inline(always)]
    fn pick_short(&mut self) -> Option<ShortNumber> {
        self.next_short()
    }

    #[inline(always)]
    fn pick_number(&mut self, asked: &ColumnDescriptors) -> Option<NumberField> {
        // A chosen field that is not asked for may be lost, since `pick` skips it too.
        let number = self.next_number()?;
        if asked.asks(number.fxy) {
            Some(number)
        } else {
            None
        }
    }

    #[inline(always)]
    fn pick_text<'r>(
        &mut self,
        asked: &ColumnDescriptors,
        room: &'r mut [u8; SUBSET_ROOM],
    ) -> Option<LentText<'r>> {
        match self.next_text(room) {
            Some(text) => {
                if asked.asks(text.fxy) {
                    Some(text)
                } else {
                    None
                }
            }
            None => None,
        }
    }

    #[inline(always)]
    fn pick(
        &mut self,
        alloc: Global,
        asked: &ColumnDescriptors,
    ) -> Result<Option<Field>, OutOfMemory> {
        while let Some(field) = self.next(alloc)? {
            if asked.asks(field.fxy) {
                return Ok(Some(field));
            }
        }
        Ok(None)
    }

    #[inline(always)]
    fn pick_turns(
        &mut self,
        _alloc: Global,
        _asked: &ColumnDescriptors,
        _opener: Fxy,
    ) -> Result<Option<NumberTurns<'v>>, OutOfMemory> {
        Ok(None)
    }

    #[inline(always)]
    fn has_no_more(&self, _awaited: &Awaited<'_>) -> bool {
        false
    }
}

impl<'v> SubsetFields<'v> for LaidFields<'v> {
    ghost left = { λ f. f };

    #[inline(always)]
    fn pick_short(&mut self) -> Option<ShortNumber> {
        None
    }

    #[inline(always)]
    fn pick_number(&mut self, asked: &ColumnDescriptors) -> Option<NumberField> {
        self.next_asked_number(asked)
    }

    #[inline(always)]
    fn pick_text<'r>(
        &mut self,
        _asked: &ColumnDescriptors,
        _room: &'r mut [u8; SUBSET_ROOM],
    ) -> Option<LentText<'r>> {
        None
    }

    #[inline(always)]
    fn pick(
        &mut self,
        alloc: Global,
        asked: &ColumnDescriptors,
    ) -> Result<Option<Field>, OutOfMemory> {
        self.next_asked(alloc, asked)
    }

    #[inline(always)]
    fn pick_turns(
        &mut self,
        _alloc: Global,
        _asked: &ColumnDescriptors,
        _opener: Fxy,
    ) -> Result<Option<NumberTurns<'v>>, OutOfMemory> {
        Ok(None)
    }

    #[inline(always)]
    fn has_no_more(&self, _awaited: &Awaited<'_>) -> bool {
        false
    }
}
