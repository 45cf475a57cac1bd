ghost use Rattle.std.specs.Prelude.{◌≡◌, ◌++◌, ◌∷◌, [], Ok, Err, codes};
ghost use Rattle.bufr_io.specs.Faults.{input_text};
ghost use Rattle.bufr_engines.specs.Output.{checked_as, last_text, shown_as, skipped_by};
ghost use Rattle.bufr_engines.specs.Samples.{counted, frame_of_12, three_subsets};
ghost use Rattle.bufr_engines.specs.declared.frame_lines.OutputForm.TheVariants.{Checked, Shown};

use bufr_io::Input;
use bufr_message::Refused;

/// The line of a frame: its place, its length, and the count of subsets and the octets after the
/// data, or the refusal.
#[tactic(auto, unfolding(crate::proofs::OnLiterals::lines_on_literals))]
pub fn lines_of_frames()
    ensures checked { checked_as frame_of_12 (Ok three_subsets)
        ≡ codes "1840 12 ok 3 5" ++ 10 ∷ [] }
    ensures refused { checked_as frame_of_12 (Err (Refused.Edition 5))
        ≡ codes "1840 12 refused M2 Edition 5" ++ 10 ∷ [] }
    ensures not_shown { shown_as frame_of_12 (Err (Refused.Edition 5))
        ≡ codes "# refused 1840 M2 Edition 5" ++ 10 ∷ [] }
{}

/// The last line of `check`: each count at its word, and the octets outside frames.
#[tactic(auto, unfolding(crate::proofs::OnLiterals::lines_on_literals))]
pub fn last_lines()
    ensures check { last_text Checked counted ≡ codes "frames 47 refused 12 skipped 305" ++ 10 ∷ [] }
    ensures show { last_text Shown counted ≡ [] }
    ensures skipped { skipped_by Checked 146 124 ≡ 22 }
    ensures none_counted { skipped_by Shown 146 124 ≡ 0 }
{}

/// The names of inputs in the lines of faults.
#[tactic(auto, unfolding(crate::proofs::OnLiterals::lines_on_literals))]
pub fn names_of_inputs()
    ensures elements { input_text Input.TableB ≡ codes "table B" }
    ensures sequences { input_text Input.TableD ≡ codes "table D" }
    ensures twelfth { input_text (Input.Number 12) ≡ codes "input 12" }
{}
