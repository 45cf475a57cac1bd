//! Reads and writes sections.

use bufr_base::Items;
use bufr_sections::{
    Envelope, Head, LentSections, append_spelling, are_listed, descriptors_of, read_sections, spell,
};
use bufr_tables::Fxy;
use std::alloc::Global;
use std::fmt::Debug;
use std::process::Abort;

/// Sections of edition 4 with different numbers and a section 2.
const EDITION_4: &str = "\
42554652 00003B 04
000018 00 0102 0304 05 80 06 07 08 09 0A 0B0C 0D 0E 0F 10 11 1213
000005 00 14
00000B 00 1516 80 1718 191A
000007 00 1B1C1D
37373737";

/// `EDITION_4` without section 2.
const WITHOUT_SECTION_2: &str = "\
42554652 000036 04
000018 00 0102 0304 05 00 06 07 08 09 0A 0B0C 0D 0E 0F 10 11 1213
00000B 00 1516 80 1718 191A
000007 00 1B1C1D
37373737";

/// `EDITION_4` without octets for local use in section 1.
const WITHOUT_LOCAL: &str = "\
42554652 000039 04
000016 00 0102 0304 05 80 06 07 08 09 0A 0B0C 0D 0E 0F 10 11
000005 00 14
00000B 00 1516 80 1718 191A
000007 00 1B1C1D
37373737";

/// `EDITION_4` with neither.
const WITH_NEITHER: &str = "\
42554652 000034 04
000016 00 0102 0304 05 00 06 07 08 09 0A 0B0C 0D 0E 0F 10 11
00000B 00 1516 80 1718 191A
000007 00 1B1C1D
37373737";

/// `EDITION_4` with ones in all that readers ignore, and an odd octet in section 3.
const EDITION_4_FILLED: &str = "\
42554652 00003C 04
000018 00 0102 0304 05 FF 06 07 08 09 0A 0B0C 0D 0E 0F 10 11 1213
000005 FF 14
00000C FF 1516 BF 1718 191A FF
000007 FF 1B1C1D
37373737";

/// Decodes hexadecimal digits with spaces between them. `S1` is the usual section 1, `NONE` no
/// octets.
fn octets(rt: &impl Abort, alloc: Global, text: &str) -> Vec<u8> {
    let mut digits = String::new(alloc);
    for word in text.split_whitespace() {
        let part = match word {
            "S1" => "00001600006200000000000200250007E8010F0C0000",
            "NONE" => "",
            other => other,
        };
        digits.push_str(part).expect(rt, "an answer");
    }
    hex::decode(alloc, digits.as_str()).expect(rt, "an answer")
}

fn head_4(rt: &impl Abort, alloc: Global) -> Head {
    Head {
        centre: 258,
        sub_centre: 772,
        update: 5,
        category: 6,
        international: 7,
        local_category: 8,
        master_version: 9,
        local_version: 10,
        year: 2828,
        month: 13,
        day: 14,
        hour: 15,
        minute: 16,
        second: 17,
        local: Items::from_vec(octets(rt, alloc, "1213")),
    }
}

fn section2_4(rt: &impl Abort, alloc: Global) -> Option<Items<u8>> {
    Some(Items::from_vec(octets(rt, alloc, "14")))
}

fn descriptors_4() -> [Fxy; 2] {
    [Fxy::from_bits(0x1718), Fxy::from_bits(0x191A)]
}

/// A message's sections, with the number of subsets and the octets of section 4.
#[derive(Clone, Copy)]
struct Said<'a> {
    sections: LentSections<'a>,
    count: usize,
    contents: &'a [u8],
}

fn said_4<'a>(head: &'a Head, section2: &'a Option<Items<u8>>, descriptors: &'a [Fxy]) -> Said<'a> {
    let sections = LentSections {
        head,
        section2,
        observed: true,
        compressed: false,
        descriptors,
    };
    Said {
        sections,
        count: 5398,
        contents: &[27, 28, 29],
    }
}

/// Inline it would lengthen the proof.
fn same<T: PartialEq + Debug + Drop>(rt: &impl Abort, found: T, wanted: T) {
    assert_eq!(rt; found, wanted);
}

fn assert_listed(rt: &impl Abort, alloc: Global, octets: &[u8], wanted: &[Fxy]) {
    let list = descriptors_of(alloc, octets).expect(rt, "an answer");
    same(rt, list.as_slice(), wanted);
    same(rt, are_listed(octets, wanted), true);
}

fn assert_found(rt: &impl Abort, alloc: Global, found: &Envelope<'_>, wanted: &Said<'_>) {
    let sections = &wanted.sections;
    same(rt, &found.head, sections.head);
    same(rt, &found.section2, sections.section2);
    same(rt, found.observed, sections.observed);
    same(rt, found.compressed, sections.compressed);
    same(rt, usize::from(found.count), wanted.count);
    same(rt, found.contents, wanted.contents);
    assert_listed(rt, alloc, found.listed, sections.descriptors);
}

fn assert_read(rt: &impl Abort, alloc: Global, text: &str, wanted: &Said<'_>) {
    let all = octets(rt, alloc, text);
    let found = read_sections(alloc, all.as_slice()).expect(rt, "an answer");
    assert_found(rt, alloc, &found, wanted);
    drop(found);
}

#[test]
fn each_octet_at_its_place(rt: HostRuntime) {
    let alloc = rt.alloc();
    let (head, section2) = (head_4(&rt, alloc), section2_4(&rt, alloc));
    let descriptors = descriptors_4();
    let said = said_4(&head, &section2, descriptors.as_slice());
    assert_read(&rt, alloc, EDITION_4, &said);
    assert_read(&rt, alloc, EDITION_4_FILLED, &said);
    drop(section2);
    drop(head);
}

fn assert_spelt(rt: &impl Abort, alloc: Global, said: &Said<'_>, text: &str) {
    let written = spell(alloc, &said.sections, said.count, said.contents).expect(rt, "an answer");
    let wanted = octets(rt, alloc, text);
    same(rt, written.as_slice(), wanted.as_slice());
    assert_behind(rt, alloc, said, wanted.as_slice());
}

/// `append_spelling` adds `wanted`, and keeps two octets before it.
fn assert_behind(rt: &impl Abort, alloc: Global, said: &Said<'_>, wanted: &[u8]) {
    let mut out = octets(rt, alloc, "1C1D");
    append_spelling(&mut out, &said.sections, said.count, said.contents).expect(rt, "an answer");
    let others = [0x1C, 0x1D];
    same(rt, out.as_slice().get(..2), Some(others.as_slice()));
    same(rt, out.as_slice().get(2..), Some(wanted));
}

/// Octets for local use, whether there is a section 2, and the message.
const WRITTEN: &[(&str, bool, &str)] = &[
    ("1213", true, EDITION_4),
    ("1213", false, WITHOUT_SECTION_2),
    ("NONE", true, WITHOUT_LOCAL),
    ("NONE", false, WITH_NEITHER),
];

/// `spell` writes `wanted` for sections with these octets for local use, with or without section 2.
fn assert_row(rt: &impl Abort, alloc: Global, local: &str, has_section2: bool, wanted: &str) {
    let mut head = head_4(rt, alloc);
    head.local = Items::from_vec(octets(rt, alloc, local));
    let section2 = if has_section2 {
        section2_4(rt, alloc)
    } else {
        None
    };
    let descriptors = descriptors_4();
    let said = said_4(&head, &section2, descriptors.as_slice());
    assert_spelt(rt, alloc, &said, wanted);
    drop(section2);
    drop(head);
}

#[test]
fn each_octet_written_at_its_place(rt: HostRuntime) {
    for (local, has_section2, wanted) in WRITTEN {
        assert_row(&rt, rt.alloc(), local, *has_section2, wanted);
    }
}

#[test]
fn refused_behind_others(rt: HostRuntime) {
    let alloc = rt.alloc();
    let (head, descriptors) = (head_4(&rt, alloc), descriptors_4());
    let said = said_4(&head, &None, descriptors.as_slice());
    let mut out = octets(&rt, alloc, "1C1D");
    let added = append_spelling(&mut out, &said.sections, 65_536, said.contents);
    same(&rt, added.is_err(), true);
    let others = [0x1C, 0x1D];
    same(&rt, out.as_slice(), others.as_slice());
    drop(head);
}
