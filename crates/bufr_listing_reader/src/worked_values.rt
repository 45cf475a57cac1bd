ghost use Rattle.std.specs.Prelude.{◌≡◌, ◌+◌, ◌-◌, ◌^◌, ◌++◌, ◌∷◌, [], map, Ok, Err, Some, None};
ghost use Rattle.std.specs.Prelude.{codes, replicate, pos, negsuc, true, false};
ghost use Rattle.bufr_tables.specs.Descriptors.{descriptor};
ghost use Rattle.bufr_expand.specs.Samples.{sample};
ghost use Rattle.bufr_listing.specs.Listings.{listing};
ghost use Rattle.bufr_listing_reader.specs.Reading.{messages_listed};
ghost use Rattle.bufr_listing_reader.specs.Samples.{listed_again, listing_head, listing_fields, read_each};
ghost use Rattle.bufr_listing_reader.specs.Samples.{numbers_of_head, each_part, each_part_before};
ghost use Rattle.bufr_listing_reader.specs.Samples.{each_part_behind, listed_and_read, words_read};

use bufr_expand::{TemplateFault, WalkFault};
use bufr_fields::Raw;
use bufr_listing::{Cause, ListingFault};
use bufr_tables::Kind;

/// Reads and lists again: a comment, an empty line, CR before LF, no LF at the end.
#[tactic(auto, unfolding(crate::proofs::OnLiterals::listings_on_literals))]
pub fn listings()
    ensures missing { listed_again
        (listing_head ++ listing_fields ++ codes "# a comment\n\n012101 missing\r\nend")
        ≡ listing_head ++ listing_fields ++ codes "012101 missing\nend\n" }
{}

/// A message with different values at each place, and upper hexadecimal digits.
#[tactic(auto, unfolding(crate::proofs::OnLiterals::listings_on_literals))]
pub fn parts_of_listings()
    ensures listed { listing each_part
        ≡ each_part_before ++ codes "local1 0fa0\nsection2 abcd\n" ++ each_part_behind }
    ensures read { messages_listed sample
        (each_part_before ++ codes "local1 0fa0\nsection2 abcd\n" ++ each_part_behind)
        ≡ Ok (each_part ∷ []) }
    ensures capitals { messages_listed sample
        (each_part_before ++ codes "local1 0FA0\nsection2 AbCD\n" ++ each_part_behind)
        ≡ Ok (each_part ∷ []) }
    ensures absent { listed_again
        (numbers_of_head ++ codes "section2\nflags compressed\ndescriptors 001001\nend\n")
        ≡ numbers_of_head ++ codes "section2\nflags compressed\ndescriptors 001001\nend\n" }
    ensures two { listed_again
        (numbers_of_head ++ codes "flags\ndescriptors 301001\nend\n"
        ++ numbers_of_head ++ codes "flags\ndescriptors 301011\nend\n")
        ≡ numbers_of_head ++ codes "flags\ndescriptors 301001\nend\n"
        ++ numbers_of_head ++ codes "flags\ndescriptors 301011\nend\n" }
{}

/// Lines that reading skips before a message, and others, which are L1.
#[tactic(auto, unfolding(crate::proofs::OnLiterals::listings_on_literals))]
pub fn first_lines()
    ensures others { read_each []
        (codes " \n"
        ∷ codes " # x\n"
        ∷ codes "$ x\n"
        ∷ codes "; x\n"
        ∷ codes "mEssAgE\n"
        ∷ codes "message 1\n"
        ∷ codes "message \n"
        ∷ codes "messages\n"
        ∷ codes "end\n"
        ∷ codes "section1 1 2 3 4 5 6 7 8\n" ∷ [])
        ≡ replicate 10 (Err (ListingFault.BadLine 1)) }
    ensures returns { read_each [] ((13 ∷ []) ∷ (13 ∷ 13 ∷ 10 ∷ []) ∷ (9 ∷ 10 ∷ []) ∷ [])
        ≡ replicate 3 (Err (ListingFault.BadLine 1)) }
    ensures skipped { listed_again (codes "#\n\n" ++ 13 ∷ 10 ∷ 35 ∷ 13 ∷ []) ≡ [] }
    ensures counted { messages_listed sample (codes "#\n\n" ++ 13 ∷ codes "\nx")
        ≡ Err (ListingFault.BadLine 4) }
{}

/// Numbers of section 1 and of the time, at their limits.
#[tactic(auto, unfolding(crate::proofs::OnLiterals::listings_on_literals))]
pub fn numbers_of_heads()
    ensures greatest { read_each (codes "message\nsection1 ")
        (codes "65535 65535 255 255 255 255 255 255\n" ∷ [])
        ≡ replicate 1 (Err (ListingFault.BadLine 3)) }
    ensures above { read_each (codes "message\nsection1 ")
        (codes "65536 1 1 1 1 1 1 1\n"
        ∷ codes "1 65536 1 1 1 1 1 1\n"
        ∷ codes "1 1 256 1 1 1 1 1\n"
        ∷ codes "1 1 1 256 1 1 1 1\n"
        ∷ codes "1 1 1 1 256 1 1 1\n"
        ∷ codes "1 1 1 1 1 256 1 1\n"
        ∷ codes "1 1 1 1 1 1 256 1\n"
        ∷ codes "1 1 1 1 1 1 1 256\n" ∷ [])
        ≡ replicate 8 (Err (ListingFault.BadValue 2)) }
    ensures spelling { read_each (codes "message\nsection1 ")
        (codes "00 2 3 4 5 6 7 8\n"
        ∷ codes "01 2 3 4 5 6 7 8\n"
        ∷ codes "+1 2 3 4 5 6 7 8\n"
        ∷ codes "-1 2 3 4 5 6 7 8\n"
        ∷ codes "-0 2 3 4 5 6 7 8\n"
        ∷ codes "1. 2 3 4 5 6 7 8\n"
        ∷ codes "x 2 3 4 5 6 7 8\n"
        ∷ codes " 2 3 4 5 6 7 8\n" ∷ [])
        ≡ replicate 8 (Err (ListingFault.BadValue 2)) }
    ensures count { read_each (codes "message\nsection1 ")
        (codes "1 2 3 4 5 6 7\n"
        ∷ codes "1 2 3 4 5 6 7 8 9\n"
        ∷ codes "1 2 3 4 5 6 7 8 \n" ∷ [])
        ≡ replicate 3 (Err (ListingFault.BadLine 2)) }
    ensures times { read_each (codes "message\nsection1 1 2 3 4 5 6 7 8\ntime ")
        (codes "65535 255 255 255 255 255\n" ∷ [])
        ≡ replicate 1 (Err (ListingFault.BadLine 4)) }
    ensures times_above { read_each (codes "message\nsection1 1 2 3 4 5 6 7 8\ntime ")
        (codes "65536 1 1 1 1 1\n"
        ∷ codes "1 256 1 1 1 1\n"
        ∷ codes "1 1 256 1 1 1\n"
        ∷ codes "1 1 1 256 1 1\n"
        ∷ codes "1 1 1 1 256 1\n"
        ∷ codes "1 1 1 1 1 256\n" ∷ [])
        ≡ replicate 6 (Err (ListingFault.BadValue 3)) }
    ensures times_count { read_each (codes "message\nsection1 1 2 3 4 5 6 7 8\ntime ")
        (codes "1 2 3 4 5\n"
        ∷ codes "1 2 3 4 5 6 7\n" ∷ [])
        ≡ replicate 2 (Err (ListingFault.BadLine 3)) }
{}

/// Lines after the time.
#[tactic(auto, unfolding(crate::proofs::OnLiterals::listings_on_literals))]
pub fn later_lines()
    ensures values { read_each numbers_of_head
        (codes "local1 \n"
        ∷ codes "local1 a\n"
        ∷ codes "local1 ag\n"
        ∷ codes "local1 0G\n"
        ∷ codes "local1 @0\n"
        ∷ codes "section2 \n"
        ∷ codes "section2 0\n"
        ∷ codes "section2 g0\n"
        ∷ codes "flags \n"
        ∷ codes "flags x\n"
        ∷ codes "flags Observed\n"
        ∷ codes "flags compressed observed\n"
        ∷ codes "flags observed observed\n" ∷ [])
        ≡ replicate 13 (Err (ListingFault.BadValue 4)) }
    ensures lines { read_each numbers_of_head
        (codes "local1\n"
        ∷ codes "local1 ab cd\n"
        ∷ codes "Local1 ab\n"
        ∷ codes "section2 00 00\n"
        ∷ codes "flags observed compressed x\n"
        ∷ codes "flags observed  compressed\n"
        ∷ codes "flagsx\n"
        ∷ codes "descriptors 001001\n"
        ∷ codes "subset\n"
        ∷ codes "end\n" ∷ [])
        ≡ replicate 10 (Err (ListingFault.BadLine 4)) }
    ensures next { read_each numbers_of_head
        (codes "local1 ab\nlocal1 ab\n"
        ∷ codes "local1 ab\n"
        ∷ codes "section2 00\nlocal1 00\n"
        ∷ codes "section2\nsection2\n"
        ∷ codes "flags\n"
        ∷ codes "flags\nflags\n"
        ∷ codes "flags\ndescriptors\n"
        ∷ codes "flags\ndescriptors \n"
        ∷ codes "flags\ndescriptors 001001 \n"
        ∷ codes "flags\ndescriptors 01001\n"
        ∷ codes "flags\ndescriptors 0010010\n"
        ∷ codes "flags\ndescriptors 401001\n"
        ∷ codes "flags\ndescriptors 064001\n"
        ∷ codes "flags\ndescriptors 001256\n"
        ∷ codes "flags\ndescriptors 001250 x\n"
        ∷ codes "flags\nsubset\n"
        ∷ codes "flags\nend\n" ∷ [])
        ≡ replicate 17 (Err (ListingFault.BadLine 5)) }
    ensures unknown { messages_listed sample
        (numbers_of_head ++ codes "local1 aB\nflags\ndescriptors 001250\n")
        ≡ Err (ListingFault.Refused 6
        (Cause.Template (TemplateFault.UnknownElement (descriptor 0 1 250)))) }
{}

/// Lines of subsets, and the last line.
#[tactic(auto, unfolding(crate::proofs::OnLiterals::listings_on_literals))]
pub fn lines_of_subsets()
    ensures begins { read_each (numbers_of_head ++ codes "flags\ndescriptors 001001\n")
        ([]
        ∷ codes "END\n"
        ∷ codes "end \n"
        ∷ codes "Subset\n"
        ∷ codes "subset \n"
        ∷ codes "subset 1\n"
        ∷ codes "001001 1\n" ∷ [])
        ≡ replicate 7 (Err (ListingFault.BadLine 6)) }
    ensures fields { read_each (numbers_of_head ++ codes "flags\ndescriptors 001001\n")
        (codes "subset\n"
        ∷ codes "subset\nend\n"
        ∷ codes "subset\n001001\n"
        ∷ codes "subset\n001002 1\n"
        ∷ codes "subset\n01001 1\n"
        ∷ codes "subset\n001001x1\n" ∷ [])
        ≡ replicate 6 (Err (ListingFault.BadLine 7)) }
    ensures values { read_each (numbers_of_head ++ codes "flags\ndescriptors 001001\n")
        (codes "subset\n001001 \n"
        ∷ codes "subset\n001001  1\n"
        ∷ codes "subset\n001001 1 \n"
        ∷ codes "subset\n001001 Missing\n"
        ∷ codes "subset\n001001 1 2\n" ∷ [])
        ≡ replicate 5 (Err (ListingFault.BadValue 7)) }
    ensures behind { read_each (numbers_of_head ++ codes "flags\ndescriptors 001001\n")
        (codes "subset\n001001 1\n"
        ∷ codes "subset\n001001 1\n001001 2\n"
        ∷ codes "subset\n001001 1\nmessage\n" ∷ [])
        ≡ replicate 3 (Err (ListingFault.BadLine 8)) }
    ensures refused { read_each
        (numbers_of_head ++ codes "flags\ndescriptors 001001 201255 012101\nsubset\n001001 1\n")
        (codes "end\n" ∷ codes "#\n\nx" ∷ codes "# x\n" ∷ [])
        ≡ Err (ListingFault.Refused 8
        (Cause.Walk (WalkFault.EffectiveRange (descriptor 0 12 101))))
        ∷ Err (ListingFault.Refused 10
        (Cause.Walk (WalkFault.EffectiveRange (descriptor 0 12 101))))
        ∷ Err (ListingFault.BadLine 9) ∷ [] }
{}

/// Values of each kind: the row of Table B, the raw value, the word.
#[tactic(auto, unfolding(crate::proofs::OnLiterals::listings_on_literals))]
pub fn kinds_of_values()
    ensures whole { listed_and_read Kind.Quantity (pos 0) (pos 0) 7 (Raw.Number 10)
        ≡ (codes "10", Ok (Raw.Number 10)) }
    ensures greatest { listed_and_read Kind.Quantity (pos 0) (pos 0) 7 (Raw.Number 126)
        ≡ (codes "126", Ok (Raw.Number 126)) }
    ensures missing { listed_and_read Kind.Quantity (pos 0) (pos 0) 7 (Raw.Number 127)
        ≡ (codes "missing", Ok (Raw.Number 127)) }
    ensures hundredths { listed_and_read Kind.Quantity (pos 2) (pos 0) 16 (Raw.Number 27315)
        ≡ (codes "273.15", Ok (Raw.Number 27315)) }
    ensures below_one { listed_and_read Kind.Quantity (pos 2) (pos 0) 16 (Raw.Number 5)
        ≡ (codes "0.05", Ok (Raw.Number 5)) }
    ensures no_hundredth { listed_and_read Kind.Quantity (pos 2) (pos 0) 16 (Raw.Number 0)
        ≡ (codes "0.00", Ok (Raw.Number 0)) }
    ensures tens { listed_and_read Kind.Quantity (negsuc 0) (pos 0) 14 (Raw.Number 10132)
        ≡ (codes "101320", Ok (Raw.Number 10132)) }
    ensures no_tens { listed_and_read Kind.Quantity (negsuc 0) (pos 0) 14 (Raw.Number 0)
        ≡ (codes "0", Ok (Raw.Number 0)) }
    ensures reference { listed_and_read Kind.Quantity (pos 0) (negsuc 399) 15 (Raw.Number 0)
        ≡ (codes "-400", Ok (Raw.Number 0)) }
    ensures below_zero { listed_and_read Kind.Quantity (pos 2) (negsuc 8999) 15 (Raw.Number 8999)
        ≡ (codes "-0.01", Ok (Raw.Number 8999)) }
    ensures at_zero { listed_and_read Kind.Quantity (pos 2) (negsuc 8999) 15 (Raw.Number 9000)
        ≡ (codes "0.00", Ok (Raw.Number 9000)) }
    ensures above { listed_and_read Kind.Quantity (pos 0) (pos 400) 15 (Raw.Number 1)
        ≡ (codes "401", Ok (Raw.Number 1)) }
    ensures widest { listed_and_read Kind.Quantity (pos 0) (pos 0) 64
        (Raw.Number 18446744073709551614)
        ≡ (codes "18446744073709551614", Ok (Raw.Number 18446744073709551614)) }
    ensures widest_missing { listed_and_read Kind.Quantity (pos 0) (pos 0) 64
        (Raw.Number 18446744073709551615)
        ≡ (codes "missing", Ok (Raw.Number 18446744073709551615)) }
    ensures code { listed_and_read Kind.Code (pos 0) (pos 0) 2 (Raw.Number 2)
        ≡ (codes "2", Ok (Raw.Number 2)) }
    ensures code_missing { listed_and_read Kind.Code (pos 0) (pos 0) 2 (Raw.Number 3)
        ≡ (codes "missing", Ok (Raw.Number 3)) }
    ensures flags { listed_and_read Kind.Flag (pos 0) (pos 0) 4 (Raw.Number 8)
        ≡ (codes "8", Ok (Raw.Number 8)) }
    ensures flags_missing { listed_and_read Kind.Flag (pos 0) (pos 0) 4 (Raw.Number 15)
        ≡ (codes "missing", Ok (Raw.Number 15)) }
    ensures one_bit { listed_and_read Kind.Quantity (pos 0) (pos 0) 1 (Raw.Number 1)
        ≡ (codes "1", Ok (Raw.Number 1)) }
    ensures one_bit_code { listed_and_read Kind.Code (pos 0) (pos 0) 1 (Raw.Number 1)
        ≡ (codes "1", Ok (Raw.Number 1)) }
    ensures one_bit_flag { listed_and_read Kind.Flag (pos 0) (pos 0) 1 (Raw.Number 1)
        ≡ (codes "1", Ok (Raw.Number 1)) }
    ensures no_bit { listed_and_read Kind.Flag (pos 0) (pos 0) 1 (Raw.Number 0)
        ≡ (codes "0", Ok (Raw.Number 0)) }
    ensures count { listed_and_read Kind.Count (pos 0) (pos 0) 8 (Raw.Number 254)
        ≡ (codes "254", Ok (Raw.Number 254)) }
    ensures greatest_count { listed_and_read Kind.Count (pos 0) (pos 0) 8 (Raw.Number 255)
        ≡ (codes "255", Ok (Raw.Number 255)) }
    ensures one_bit_count { listed_and_read Kind.Count (pos 0) (pos 0) 1 (Raw.Number 1)
        ≡ (codes "1", Ok (Raw.Number 1)) }
    ensures no_count { listed_and_read Kind.Count (pos 0) (pos 0) 8 (Raw.Number 0)
        ≡ (codes "0", Ok (Raw.Number 0)) }
    ensures text { listed_and_read Kind.Text (pos 0) (pos 0) 16 (Raw.Text (65 ∷ 32 ∷ []))
        ≡ (34 ∷ codes "A " ++ 34 ∷ [], Ok (Raw.Text (65 ∷ 32 ∷ []))) }
    ensures escaped { listed_and_read Kind.Text (pos 0) (pos 0) 24 (Raw.Text (34 ∷ 92 ∷ 10 ∷ []))
        ≡ (
          34 ∷ 92 ∷ codes "22" ++ 92 ∷ codes "5c" ++ 92 ∷ codes "0a" ++ 34 ∷ [],
          Ok (Raw.Text (34 ∷ 92 ∷ 10 ∷ [])),
        ) }
    ensures text_missing { listed_and_read Kind.Text (pos 0) (pos 0) 16 (Raw.Text (255 ∷ 255 ∷ []))
        ≡ (codes "missing", Ok (Raw.Text (255 ∷ 255 ∷ []))) }
    ensures nearly_missing { listed_and_read Kind.Text (pos 0) (pos 0) 16
        (Raw.Text (255 ∷ 254 ∷ []))
        ≡ (34 ∷ 92 ∷ codes "ff" ++ 92 ∷ codes "fe" ++ 34 ∷ [], Ok (Raw.Text (255 ∷ 254 ∷ []))) }
    ensures letter { listed_and_read Kind.Text (pos 0) (pos 0) 8 (Raw.Text (65 ∷ []))
        ≡ (34 ∷ 65 ∷ 34 ∷ [], Ok (Raw.Text (65 ∷ []))) }
{}

/// Words that no field of a kind can have.
#[tactic(auto, unfolding(crate::proofs::OnLiterals::listings_on_literals))]
pub fn refused_words()
    ensures hundredths { words_read Kind.Quantity (pos 2) (pos 0) 16
        (codes "273.1"
        ∷ codes "273.150"
        ∷ codes "0273.15"
        ∷ codes "+273.15"
        ∷ codes ".15"
        ∷ codes "273,15"
        ∷ codes "655.35"
        ∷ codes "655.36"
        ∷ codes "-0.01"
        ∷ codes "-0.00"
        ∷ []
        ∷ codes "Missing" ∷ [])
        ≡ replicate 12 (Err (ListingFault.BadValue 7)) }
    ensures tens { words_read Kind.Quantity (negsuc 0) (pos 0) 14
        (codes "101321"
        ∷ codes "00"
        ∷ codes "1"
        ∷ codes "163830"
        ∷ codes "163840" ∷ [])
        ≡ replicate 5 (Err (ListingFault.BadValue 7)) }
    ensures below { words_read Kind.Quantity (pos 0) (negsuc 399) 15
        (codes "-401"
        ∷ codes "32367"
        ∷ codes "32368" ∷ [])
        ≡ replicate 3 (Err (ListingFault.BadValue 7)) }
    ensures codes { words_read Kind.Code (pos 0) (pos 0) 2
        (codes "3"
        ∷ codes "4"
        ∷ codes "02" ∷ [])
        ≡ replicate 3 (Err (ListingFault.BadValue 7)) }
    ensures one_bit { words_read Kind.Flag (pos 0) (pos 0) 1
        (codes "missing"
        ∷ codes "2" ∷ [])
        ≡ replicate 2 (Err (ListingFault.BadValue 7)) }
    ensures counts { words_read Kind.Count (pos 0) (pos 0) 8
        (codes "missing"
        ∷ codes "256" ∷ [])
        ≡ replicate 2 (Err (ListingFault.BadValue 7)) }
    ensures texts { words_read Kind.Text (pos 0) (pos 0) 16
        ((34 ∷ 34 ∷ [])
        ∷ (34 ∷ 65 ∷ 34 ∷ [])
        ∷ (34 ∷ codes "ABC" ++ 34 ∷ [])
        ∷ (34 ∷ codes "AB")
        ∷ codes "AB"
        ∷ (34 ∷ codes "AB" ++ 34 ∷ 32 ∷ [])
        ∷ (34 ∷ 65 ∷ 34 ∷ 34 ∷ [])
        ∷ (34 ∷ 65 ∷ 9 ∷ 34 ∷ []) ∷ [])
        ≡ replicate 8 (Err (ListingFault.BadValue 7)) }
    ensures escapes { words_read Kind.Text (pos 0) (pos 0) 8
        ((34 ∷ 92 ∷ codes "41" ++ 34 ∷ [])
        ∷ (34 ∷ 92 ∷ codes "5C" ++ 34 ∷ [])
        ∷ (34 ∷ 92 ∷ codes "ff" ++ 34 ∷ [])
        ∷ (34 ∷ 92 ∷ codes "a" ++ 34 ∷ [])
        ∷ (34 ∷ 92 ∷ 34 ∷ []) ∷ [])
        ≡ replicate 5 (Err (ListingFault.BadValue 7)) }
{}
