//! Laws of data, for any template.

ghost use Rattle.bufr_data.specs.Laws.{ReadAreHeld, HeldAreRead};
ghost use Rattle.bufr_data.specs.Laws.{SubsetReadIsHeld, SubsetHeldIsRead, SubsetsReadAreHeld};
ghost use Rattle.bufr_data.specs.Laws.{SubsetsHeldAreRead, WrittenFit, FittingAreWritten};
ghost use Rattle.bufr_data.specs.Laws.{NoneOnFewBits, FewBitsWhereNone};
ghost use Rattle.bufr_data.specs.Laws.{ReadRefusedIsFirst, FirstReadIsRefused};
ghost use Rattle.bufr_data.specs.Laws.{SubsetsReadRefusedIsFirst, FirstSubsetsReadIsRefused};
ghost use Rattle.bufr_data.specs.Laws.{WriteRefusedIsFirst, FirstWriteIsRefused};
ghost use Rattle.bufr_data.specs.Laws.{WrittenRefusedIsFirst, FirstWrittenIsRefused};
ghost use Rattle.std.specs.Prelude.{ℕ, Bool, List};
ghost use Rattle.bufr_expand.specs.Trees.{Tree};
ghost use Rattle.bufr_data.specs.Data.{ReadsExactly, RefusesExactly, WritesExactly, MisfitsExactly};
ghost use Rattle.bufr_data.specs.Data.{BareDataAreData, PlainDataAreBare, PackedDataCanBeBare};
ghost use Rattle.bufr_data.specs.Data.{NarrowDataCanBePacked};
ghost use Rattle.bufr_data.specs.Compressed.{Column};
ghost use Rattle.bufr_data.specs.Compressed.Laws.{ColumnReadIsHeld, HeldColumnIsRead, BestIsColumn};
ghost use Rattle.bufr_data.specs.Compressed.Laws.{BestIsShortest};
ghost use Rattle.bufr_fields.specs.declared.field.Subset.{Subset};
ghost use Rattle.bufr_fields.specs.declared.fault.DataFault.{DataFault};
ghost use Rattle.bufr_fields.specs.declared.fault.MisfitFault.{MisfitFault};

use bufr_expand::laws::{courses_are_unrollings, courses_begin_unrollings};

/// Reading plain data returns exactly the subsets that fit their course and have the first bits.
pub fn plain_data_spell_subsets()
    ensures read_stand { ReadAreHeld }
    ensures standing_are_read { HeldAreRead }
{}

/// Plain data are read exactly as subsets that fit the template's tree, and subsets are written
/// exactly if they fit. Here and in the next two laws at most 16,777,216 items come before.
pub fn fitting_subsets_are_read_and_written()
    ensures subset_stands { SubsetReadIsHeld }
    ensures subset_is_read { SubsetHeldIsRead }
    ensures subsets_stand { SubsetsReadAreHeld }
    ensures subsets_are_read { SubsetsHeldAreRead }
    ensures written_fit { WrittenFit }
    ensures fitting_are_written { FittingAreWritten }
{
    courses_are_unrollings();
}

/// Reading plain data fails with the fault of the first field that can't be read, by the template's
/// tree.
pub fn read_refusals_follow_the_tree()
    ensures refused { ReadRefusedIsFirst }
    ensures cannot_stand { FirstReadIsRefused }
    ensures subsets_refused { SubsetsReadRefusedIsFirst }
    ensures subsets_cannot_stand { FirstSubsetsReadIsRefused }
    ensures few_bits { NoneOnFewBits }
    ensures none_stands { FewBitsWhereNone }
{
    courses_are_unrollings();
    courses_begin_unrollings();
}

/// Writing plain data fails with the fault of the first misfit, by the template's tree.
pub fn write_refusals_follow_the_tree()
    ensures refused { WriteRefusedIsFirst }
    ensures misfit { FirstWriteIsRefused }
    ensures subsets_refused { WrittenRefusedIsFirst }
    ensures subsets_misfit { FirstWrittenIsRefused }
{
    courses_are_unrollings();
    courses_begin_unrollings();
}

/// Reading a column returns exactly the values that it holds. The best column holds its values, and
/// no column of the same numbers is shorter.
pub fn columns_hold_values()
    ensures stand { ColumnReadIsHeld }
    ensures is_read { HeldColumnIsRead }
    ensures best { BestIsColumn }
    ensures shortest { BestIsShortest }
{}

/// Reading data returns exactly the subsets that they hold, and writing subsets exactly their bare
/// data. Else both fail with the first fault.
pub fn data_hold_subsets()
    ensures read { (tree : Tree) (compressed : Bool) (count : ℕ) (front : List Bool)
        (found : List Subset × List Bool) → ReadsExactly tree compressed count front found }
    ensures refused { (tree : Tree) (compressed : Bool) (count : ℕ) (front : List Bool)
        (fault : DataFault) → RefusesExactly tree compressed count front fault }
    ensures written { (tree : Tree) (compressed : Bool) (subsets : List Subset)
        (data_bits : List Bool) → WritesExactly tree compressed subsets data_bits }
    ensures misfit { (tree : Tree) (compressed : Bool) (subsets : List Subset) (fault : MisfitFault)
        → MisfitsExactly tree compressed subsets fault }
    ensures bare { (tree : Tree) (compressed : Bool) (subsets : List Subset) (data_bits : List Bool)
        → BareDataAreData tree compressed subsets data_bits }
    ensures plain { (tree : Tree) (subsets : List Subset) (data_bits : List Bool)
        → PlainDataAreBare tree subsets data_bits }
    ensures packable { (tree : Tree) (subsets : List Subset) (columns : List Column)
        (data_bits : List Bool) → PackedDataCanBeBare tree subsets columns data_bits }
    ensures narrow { (tree : Tree) (subsets : List Subset) (data_bits : List Bool)
        → NarrowDataCanBePacked tree subsets data_bits }
{
    courses_are_unrollings();
    courses_begin_unrollings();
}
