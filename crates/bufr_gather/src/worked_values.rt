ghost use Rattle.std.specs.Prelude.{◌≡◌, ◌++◌, ◌∷◌, [], Some, None, Ok, Err, codes};
ghost use Rattle.bufr_gather.specs.Samples.{keys_in, updates_in, text_of_both, text_told, summary, entries_of_both, key_of_original, original, updated, warmer, month_13, distinct, key_of_distinct, other_sub_centre, next_station, text_of_both_before};

/// Keys and update sequence numbers of whole messages.
#[tactic(auto, unfolding(crate::proofs::OnLiterals::archives_on_literals))]
pub fn keys()
    ensures original { keys_in original ≡ Some key_of_original ∷ [] }
    ensures distinct { keys_in distinct ≡ Some key_of_distinct ∷ [] }
    ensures month_13 { keys_in month_13 ≡ None ∷ [] }
    ensures update { updates_in distinct ≡ 5 ∷ [] }
{}

/// Texts of two reports, in either order, and of a stream.
#[tactic(auto, unfolding(crate::proofs::OnLiterals::archives_on_literals))]
pub fn texts()
    ensures update_number { text_of_both updated original ≡ updated }
    ensures update_number_after { text_of_both original updated ≡ updated }
    ensures byte_order { text_of_both warmer original ≡ warmer }
    ensures without_key { text_of_both month_13 updated ≡ updated ++ month_13 }
    ensures sub_centres_apart { text_of_both other_sub_centre original
        ≡ original ++ other_sub_centre }
    ensures told { text_told (original ++ codes "BU" ++ updated) ≡ updated }
    ensures told_at_the_end { text_told (codes "BUFR" ++ original) ≡ original }
{}

/// Texts from before, while keys had no sub-centre, and now.
#[tactic(auto, unfolding(crate::proofs::OnLiterals::archives_on_literals))]
pub fn texts_from_before()
    ensures one_key { text_of_both_before original other_sub_centre ≡ other_sub_centre }
    ensures one_key_after { text_of_both_before other_sub_centre original ≡ other_sub_centre }
    ensures update_number { text_of_both_before updated other_sub_centre ≡ updated }
    ensures stations { text_of_both_before next_station other_sub_centre
        ≡ other_sub_centre ++ next_station }
    ensures stations_now { text_of_both next_station other_sub_centre
        ≡ other_sub_centre ++ next_station }
{}

/// Texts read, and the place of the first entry that is not right.
#[tactic(auto, unfolding(crate::proofs::OnLiterals::archives_on_literals))]
pub fn reading()
    ensures read { summary (updated ++ month_13) ≡ Ok (entries_of_both updated month_13) }
    ensures empty { summary [] ≡ Ok [] }
    ensures not_in_order { summary (month_13 ++ updated) ≡ Err 62 }
    ensures one_slot_twice { summary (original ++ updated) ≡ Err 62 }
    ensures cut_short { summary (updated ++ codes "BU") ≡ Err 62 }
    ensures no_frame { summary (0 ∷ updated) ≡ Err 0 }
{}
