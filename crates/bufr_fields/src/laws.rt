//! Laws of fields that fit a template, and of the texts of decimals.

ghost use Rattle.bufr_fields.specs.DecimalTexts.{UnitsOfTexts};
ghost use Rattle.bufr_fields.specs.Laws.{CountedFit, FittingAreCounted, AllCountedFit};
ghost use Rattle.bufr_fields.specs.Laws.{AllFittingAreCounted};

use bufr_expand::laws::courses_are_unrollings;

/// `items_of` counts exactly the subsets that fit the template's tree, within 16,777,216 items.
pub fn counted_subsets_fit()
    ensures fit { CountedFit }
    ensures counted { FittingAreCounted }
    ensures all_fit { AllCountedFit }
    ensures all_counted { AllFittingAreCounted }
{
    courses_are_unrollings();
}

/// A text and a scale determine the units of a decimal.
pub fn texts_have_one_decimal()
    ensures { UnitsOfTexts }
{}
