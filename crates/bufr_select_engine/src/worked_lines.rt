//! Worked command lines.

ghost use Rattle.std.specs.Prelude.{◌≡◌, ◌∷◌, [], codes, None, Some, true};
ghost use Rattle.clap.specs.Words.{fault_of, takes};
ghost use Rattle.clap.specs.declared.error.kind.ErrorKind.TheVariants.{ArgumentConflict, DisplayHelp};
ghost use Rattle.clap.specs.declared.error.kind.ErrorKind.TheVariants.{DisplayVersion};
ghost use Rattle.clap.specs.declared.error.kind.ErrorKind.TheVariants.{MissingRequiredArgument, UnknownArgument};
ghost use Rattle.bufr_select_engine.specs.CommandLines.{IsVersion, program, value_of, values_of, words_of_one_pair};
ghost use Rattle.bufr_select_engine.specs.CommandLines.{words_of_two_pairs, words_with_another_option};
ghost use Rattle.bufr_select_engine.specs.CommandLines.{words_with_columns_twice, words_with_each_twice};
ghost use Rattle.bufr_select_engine.specs.CommandLines.{words_without_columns, words_without_elements, words_without_files};
ghost use Rattle.bufr_select_engine.specs.CommandLines.{words_without_sequences};

/// States what a line of one pair of tables has.
pub fn lines_of_one_pair()
    ensures taken { takes program words_of_one_pair ≡ true }
    ensures b { values_of (codes "b") words_of_one_pair ≡ codes "elements.csv" ∷ [] }
    ensures d { values_of (codes "d") words_of_one_pair ≡ codes "sequences.csv" ∷ [] }
    ensures versions { values_of (codes "version-limit") words_of_one_pair ≡ [] }
    ensures columns { value_of (codes "columns") words_of_one_pair
        ≡ Some (codes "001001,012101") }
    ensures each { value_of (codes "each") words_of_one_pair ≡ None }
    ensures files { values_of (codes "file") words_of_one_pair
        ≡ codes "06.bufr" ∷ codes "12.bufr" ∷ [] }
{}

/// States what a line of two pairs of tables has, with spans.
pub fn lines_of_two_pairs()
    ensures taken { takes program words_of_two_pairs ≡ true }
    ensures b { values_of (codes "b") words_of_two_pairs
        ≡ codes "b13.csv" ∷ codes "b46.csv" ∷ [] }
    ensures d { values_of (codes "d") words_of_two_pairs
        ≡ codes "d13.csv" ∷ codes "d46.csv" ∷ [] }
    ensures versions { values_of (codes "version-limit") words_of_two_pairs
        ≡ codes "13" ∷ codes "46" ∷ [] }
    ensures columns { value_of (codes "columns") words_of_two_pairs ≡ Some (codes "input") }
    ensures each { value_of (codes "each") words_of_two_pairs ≡ Some (codes "007004") }
    ensures files { values_of (codes "file") words_of_two_pairs ≡ codes "temp.bufr" ∷ [] }
{}

/// States why words are no line.
pub fn words_that_are_no_line()
    ensures none { fault_of program [] ≡ MissingRequiredArgument ∷ [] }
    ensures no_columns { fault_of program words_without_columns
        ≡ MissingRequiredArgument ∷ [] }
    ensures no_elements { fault_of program words_without_elements
        ≡ MissingRequiredArgument ∷ [] }
    ensures no_sequences { fault_of program words_without_sequences
        ≡ MissingRequiredArgument ∷ [] }
    ensures no_file { fault_of program words_without_files ≡ MissingRequiredArgument ∷ [] }
    ensures columns_twice { fault_of program words_with_columns_twice ≡ ArgumentConflict ∷ [] }
    ensures each_twice { fault_of program words_with_each_twice ≡ ArgumentConflict ∷ [] }
    ensures another_option { fault_of program words_with_another_option
        ≡ UnknownArgument ∷ [] }
    ensures help { fault_of program (codes "--help" ∷ []) ≡ DisplayHelp ∷ [] }
    ensures version { fault_of program (codes "--version" ∷ []) ≡ DisplayVersion ∷ [] }
{}

/// States which versions there are.
pub fn limits_of_versions()
    ensures least { IsVersion 0 }
    ensures most { IsVersion 255 }
    ensures too_many { IsVersion 256 → ⊥ }
{}
