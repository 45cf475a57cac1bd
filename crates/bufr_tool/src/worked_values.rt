ghost use Rattle.std.specs.Prelude.{◌≡◌, ◌++◌, ◌∷◌, [], codes};
ghost use Rattle.bufr_engines.specs.Samples.{counted};
ghost use Rattle.bufr_tool.specs.ArchiveLines.{added_line, merged_line};

/// The lines of archives: each count at its word.
#[tactic(auto, unfolding(crate::proofs::OnLiterals::lines_on_literals))]
pub fn lines_of_archives()
    ensures add { added_line counted ≡ codes "frames 47 refused 12 reports 28" ++ 10 ∷ [] }
    ensures merge { merged_line counted ≡ codes "archives 47 reports 28" ++ 10 ∷ [] }
{}
