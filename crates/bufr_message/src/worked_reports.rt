//! Worked examples of reports and their canonical messages.

ghost use Rattle.std.specs.Prelude.{◌≡◌, false, true, [], ◌∷◌, Some, codes};
ghost use Rattle.bufr_fields.specs.declared.field.Raw.TheVariants.{Number, Text};
ghost use Rattle.bufr_message.specs.OwnBits.{has_room};
ghost use Rattle.bufr_message.specs.Samples.{elements_only, local_octets_and_slack};
ghost use Rattle.bufr_message.specs.Samples.{distinct_head, compressed, edition_3_of};
ghost use Rattle.bufr_message.specs.ReportSamples.{reports, canonicals, observed_flags};
ghost use Rattle.bufr_message.specs.ReportSamples.{report_heads, distinct_report_head};
ghost use Rattle.bufr_message.specs.ReportSamples.{in_sequences, plain_pair, distinct_alone};
ghost use Rattle.bufr_message.specs.ReportSamples.{edition_3_alone, for_flags, canonical_each};
ghost use Rattle.bufr_message.specs.ReportSamples.{temperature4, temperature4_local, front3_alone};
ghost use Rattle.bufr_message.specs.ReportSamples.{temperature3, temperature3_local};
ghost use Rattle.bufr_sections.specs.Samples.{plain1};

/// Compressed subsets have the reports of the same subsets, plain.
#[tactic(auto, unfolding(crate::proofs::OnLiterals::messages_on_literals))]
pub fn reports_of_a_pair()
    ensures { reports (compressed (codes "3050")) ≡ reports plain_pair }
{}

/// The head of a report: each number of section 1 is in its own place.
#[tactic(auto, unfolding(crate::proofs::OnLiterals::messages_on_literals))]
pub fn heads_of_reports()
    ensures { report_heads distinct_head ≡ distinct_report_head ∷ [] }
{}

/// The canonical messages of two subsets, the second with a missing temperature.
#[tactic(auto, unfolding(crate::proofs::OnLiterals::messages_on_literals))]
pub fn canonical_messages_of_a_pair()
    ensures { canonicals (compressed (codes "3050"))
        ≡ Some (in_sequences (codes "1AACC0")) ∷ Some (in_sequences (codes "3FFFC0")) ∷ [] }
{}

/// Canonical messages have no octets for local use and no section 2, and keep all else.
#[tactic(auto, unfolding(crate::proofs::OnLiterals::messages_on_literals))]
pub fn canonical_messages()
    ensures local { canonicals local_octets_and_slack ≡ Some elements_only ∷ [] }
    ensures distinct { canonicals distinct_head ≡ Some (distinct_alone (codes "80")) ∷ [] }
    ensures unobserved { canonicals (distinct_alone (codes "00"))
        ≡ Some (distinct_alone (codes "00")) ∷ [] }
    ensures edition_3 { canonicals (edition_3_of (codes "18")) ≡ Some edition_3_alone ∷ [] }
    ensures flags { observed_flags (distinct_alone (codes "00")) ≡ false ∷ [] }
{}

/// A temperature in each edition, with and without section 2, and with each pair of flags.
#[tactic(auto, unfolding(crate::proofs::OnLiterals::messages_on_literals))]
pub fn canonical_messages_of_each_kind()
    ensures edition_4 { for_flags (λ f. canonicals (temperature4 f)) ≡ canonical_each plain1 }
    ensures edition_4_section_2 { for_flags (λ f. canonicals (temperature4_local f))
        ≡ canonical_each plain1 }
    ensures edition_3 { for_flags (λ f. canonicals (temperature3 f))
        ≡ canonical_each front3_alone }
    ensures edition_3_section_2 { for_flags (λ f. canonicals (temperature3_local f))
        ≡ canonical_each front3_alone }
{}

/// Numbers that fit bits: below 2 to their power, in at most 64.
pub fn room_for_values()
    ensures least { has_room 1 (Number 1) ≡ true }
    ensures above { has_room 1 (Number 2) ≡ false }
    ensures none { has_room 0 (Number 0) ≡ true }
    ensures one_in_none { has_room 0 (Number 1) ≡ false }
    ensures widest { has_room 64 (Number 18446744073709551615) ≡ true }
    ensures wider { has_room 65 (Number 0) ≡ false }
    ensures text { has_room 0 (Text (65 ∷ [])) ≡ true }
{}
