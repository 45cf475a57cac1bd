//! Worked frames: their pairs of tables, rows and refusals.

ghost use Rattle.std.specs.Prelude.{◌≡◌, ◌∷◌, ◌++◌, [], codes, false, true, None, Some, Err};
ghost use Rattle.bufr_message.specs.declared.Refused.TheVariants.{Edition};
ghost use Rattle.bufr_select_rows.specs.Samples.{block, line_of, numbered, temperature};
ghost use Rattle.bufr_select_rows.specs.declared.column.Column.TheVariants.{First, Fact};
ghost use Rattle.bufr_select_rows.specs.declared.fact.Fact.TheVariants.{Centre, Compressed, Input};
ghost use Rattle.bufr_select_rows.specs.declared.fact.Fact.TheVariants.{Message, Observed, Place, Subset};
ghost use Rattle.bufr_select_engine.specs.FrameSamples.{chosen, message_with, pair_to, read};
ghost use Rattle.bufr_select_engine.specs.FrameSamples.{read_streams, refused_streams};
ghost use Rattle.bufr_select_rows.specs.Pairs.{first_reading, message_of_version, reads_version};
ghost use Rattle.bufr_select_engine.specs.Selected.{counted, message_rows, refusal_line, refusals};
ghost use Rattle.bufr_select_engine.specs.Selected.{selected};
ghost use Rattle.bufr_select_rows.specs.declared.pairs.Unread.TheVariants.{NoTables, Refused};

/// States which pair reads a version.
pub fn pairs_that_read_versions()
    ensures below { reads_version 12 (pair_to (Some 13)) ≡ true }
    ensures same { reads_version 13 (pair_to (Some 13)) ≡ true }
    ensures above { reads_version 14 (pair_to (Some 13)) ≡ false }
    ensures all { reads_version 255 (pair_to None) ≡ true }
    ensures second { first_reading 14 (pair_to (Some 13) ∷ pair_to (Some 46) ∷ pair_to None ∷ [])
        ≡ Some (pair_to (Some 46)) }
    ensures first { first_reading 13 (pair_to (Some 46) ∷ pair_to (Some 13) ∷ [])
        ≡ Some (pair_to (Some 46)) }
    ensures none { first_reading 47 (pair_to (Some 13) ∷ pair_to (Some 46) ∷ []) ≡ None }
    ensures refused { message_of_version (pair_to (Some 13) ∷ []) 14 []
        ≡ Err (NoTables 14) }
{}

/// States the lines of refused frames.
#[tactic(auto, unfolding(crate::proofs::OnLiterals::frames_on_literals))]
pub fn lines_of_refused_frames()
    ensures tables { refusal_line 3 1840 (NoTables 47)
        ≡ line_of (codes "bufr-select: input 3 at 1840: no tables of version 47") }
    ensures edition { refusal_line 12 0 (Refused (Edition 5))
        ≡ line_of (codes "bufr-select: input 12 at 0: M2 Edition 5") }
{}

/// States the rows of two subsets, of the seventh frame of the third input.
#[tactic(auto, unfolding(crate::proofs::OnLiterals::frames_on_literals))]
pub fn rows_of_messages()
    ensures facts { message_rows (chosen (Fact Input ∷ Fact Message ∷ Fact Place ∷ Fact Subset
        ∷ Fact Centre ∷ Fact Observed ∷ Fact Compressed ∷ First block ∷ []) None) 3 7 1840
        (message_with (numbered block 6 ∷ []) (numbered block 8 ∷ []))
        ≡ line_of (codes "3,7,1840,1,258,1,0,6") ++ line_of (codes "3,7,1840,2,258,1,0,8") }
    ensures spans { message_rows (chosen (Fact Subset ∷ First block ∷ First temperature ∷ [])
        (Some temperature)) 3 7 1840
        (message_with (numbered block 6 ∷ []) (numbered block 8 ∷ numbered temperature 11
        ∷ numbered block 9 ∷ numbered temperature 12 ∷ []))
        ≡ line_of (codes "2,9,11") ++ line_of (codes "2,8,12") }
{}

/// States what is printed, told and counted of frames.
#[tactic(auto, unfolding(crate::proofs::OnLiterals::frames_on_literals))]
pub fn frames_of_inputs()
    ensures printed { selected (read (Fact Input ∷ Fact Message ∷ Fact Place ∷ First temperature
        ∷ [])) read_streams
        ≡ line_of (codes "input,message,place,012101") ++ line_of (codes "3,2,12,273.15") }
    ensures told { refusals (chosen [] None) refused_streams
        ≡ line_of (codes "bufr-select: input 1 at 0: M2 Edition 5")
        ++ line_of (codes "bufr-select: input 1 at 13: M2 Edition 5")
        ++ line_of (codes "bufr-select: input 3 at 0: M2 Edition 5") }
    ensures count { counted (read []) read_streams
        ≡ record { frames = 2; refused = 1; skipped = 0; reports = 0 } }
    ensures none_read { counted (chosen [] None) refused_streams
        ≡ record { frames = 3; refused = 3; skipped = 0; reports = 0 } }
{}
