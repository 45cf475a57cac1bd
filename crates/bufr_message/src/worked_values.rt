//! Worked examples of messages.

ghost use Rattle.std.specs.Prelude.{◌≡◌, ◌++◌, Ok, Err, codes};
ghost use Rattle.bufr_tables.specs.Descriptors.{descriptor};
ghost use Rattle.bufr_sections.specs.Samples.{hex, framed, plain1, head4};
ghost use Rattle.bufr_message.specs.Samples.{read, written_again, slack_of, head_of};
ghost use Rattle.bufr_message.specs.Samples.{elements_only, elements3, local_octets_and_slack};
ghost use Rattle.bufr_message.specs.Samples.{local_octets, distinct_head, compressed};
ghost use Rattle.bufr_message.specs.Samples.{edition_3_of, edition_3_written};

use bufr_data::DataFault;
use bufr_expand::TemplateFault;
use bufr_sections::Refused;

/// Messages, read and written again.
#[tactic(auto, unfolding(crate::proofs::OnLiterals::messages_on_literals))]
pub fn messages()
    ensures elements { written_again elements_only ≡ elements_only }
    ensures local { written_again local_octets_and_slack ≡ local_octets }
    ensures slack { slack_of (read local_octets_and_slack) ≡ Ok 2 }
    ensures distinct { head_of (read distinct_head) ≡ Ok head4 }
    ensures distinct_again { written_again distinct_head ≡ distinct_head }
{}

/// Compressed messages with a missing value, and with increments of two bits.
#[tactic(auto, unfolding(crate::proofs::OnLiterals::messages_on_literals))]
pub fn compressed_messages()
    ensures pair { written_again (compressed (codes "3050")) ≡ compressed (codes "3050") }
    ensures increments { written_again (compressed (codes "3084")) ≡ compressed (codes "3084") }
    ensures slack { slack_of (read (compressed (codes "3050"))) ≡ Ok 0 }
{}

/// Refused messages.
#[tactic(auto, unfolding(crate::proofs::OnLiterals::messages_on_literals))]
pub fn refusals()
    ensures sections { read (hex (codes "42554652 000008 05")) ≡ Err (Refused.Edition 5) }
    ensures unknown { read (framed (codes "00002F 04")
        (plain1 ++ hex (codes "000009 00 0001 80 01FA 000004 00")))
        ≡ Err (Refused.Template (TemplateFault.UnknownElement (descriptor 0 1 250))) }
    ensures data_end { read (framed (codes "000045 04")
        (plain1 ++ elements3 ++ hex (codes "00000C 00 14C03F409EC01AAC")))
        ≡ Err (Refused.Data (DataFault.DataEnds 1 8)) }
{}

/// Operators that do not act: 201 on an element of 206, 208 on the characters of 205.
#[tactic(auto, unfolding(crate::proofs::OnLiterals::messages_on_literals))]
pub fn operators_that_do_not_act()
    ensures on_206 { slack_of (read (framed (codes "000035 04")
        (plain1 ++ hex (codes "00000D 00 0001 80 8182 8610 0C65 000006 00 6AB3"))))
        ≡ Ok 0 }
    ensures on_205 { slack_of (read (framed (codes "000035 04")
        (plain1 ++ hex (codes "00000B 00 0001 80 880A 8504 000008 00 41424344"))))
        ≡ Ok 0 }
{}

/// Messages of edition 3, and the messages of edition 4 written for them.
#[tactic(auto, unfolding(crate::proofs::OnLiterals::messages_on_literals))]
pub fn edition_3()
    ensures written { written_again (edition_3_of (codes "18")) ≡ edition_3_written }
    ensures slack { slack_of (read (edition_3_of (codes "18"))) ≡ Ok 1 }
    ensures year_0 { head_of (read (edition_3_of (codes "00")))
        ≡ head_of (read (edition_3_of (codes "64"))) }
{}
