//! Laws of rows and of the command line.

ghost use Rattle.std.specs.Prelude.{◌≡◌, ◌∷◌, true, false, [], ℕ, List, codes, map, None, Some};
ghost use Rattle.std.specs.List.{join_by};
ghost use Rattle.clap.specs.Words.{takes};
ghost use Rattle.bufr_sections.specs.Sections.{envelope_of};
ghost use Rattle.bufr_frame.specs.declared.frames.Found.{Found};
ghost use Rattle.bufr_ls_engine.specs.declared.column.Column.{Column};
ghost use Rattle.bufr_ls_engine.specs.Columns.{word, words_of};
ghost use Rattle.bufr_ls_engine.specs.Rows.{IsPlain, field, fields_as};
ghost use Rattle.bufr_ls_engine.specs.CommandLines.{program, value_of, values_of};
ghost use Rattle.bufr_ls_engine.specs.CommandLines.{words_alone, words_with_columns};

use bufr_sections::laws::refusals_of_sections_are_the_first;

/// States that no field of a row has a comma, a quote or the end of a line, so that none needs quotes,
/// and that the lines of rows and the header line, parted at their commas, have one field for each column.
pub fn rows_part_into_fields()
    ensures plain { (column : Column) (input message : ℕ) (frame : Found)
        → IsPlain (field column input message frame) }
    ensures fields { (first : Column) (others : List Column) (input message : ℕ) (frame : Found)
        → words_of (fields_as (first ∷ others) input message frame (envelope_of frame.bytes))
        ≡ map (λ column. field column input message frame) (first ∷ others) }
    ensures words { (first : Column) (others : List Column)
        → words_of (join_by word (44 ∷ []) (first ∷ others)) ≡ map word (first ∷ others) }
{
    refusals_of_sections_are_the_first();
}

/// States what a line with columns has.
pub fn lines_with_columns()
    ensures taken { takes program words_with_columns ≡ true }
    ensures columns { value_of (codes "columns") words_with_columns
        ≡ Some (codes "centre,category") }
    ensures files { values_of (codes "file") words_with_columns
        ≡ codes "06.bufr" ∷ codes "12.bufr" ∷ [] }
{}

/// States what a line without columns has, and that no words are no line.
pub fn lines_without_columns()
    ensures taken { takes program words_alone ≡ true }
    ensures columns { value_of (codes "columns") words_alone ≡ None }
    ensures files { values_of (codes "file") words_alone
        ≡ codes "06.bufr" ∷ codes "12.bufr" ∷ codes "18.bufr" ∷ [] }
    ensures no_file { takes program [] ≡ false }
{}
