//! Commands on files that the test writes: their exit status, what they print and say, and OUT.

use super::same;
use super::samples::{
    CHECKED, COMPRESSED_PAIR, COMPRESSED_PAIR_LISTING, ELEMENTS_ONLY, LISTING, PAIR_COMPRESSED,
    PAIR_LISTING, Part, SEQUENCES, SEQUENCES_LISTING, TABLE_B, TABLE_D, TWO_FRAMES, joined,
};
use bufr_tool::{line, run_command};
use std::alloc::Global;
use std::fs;
use std::process::Abort;
use std::rt::Files;

/// What a command prints, and what it says on standard error.
type Told<'a> = (&'a [u8], &'a str);

fn words_in(rt: &impl Abort, alloc: Global, words: &str) -> Vec<String> {
    let mut list = Vec::new(alloc);
    for word in words.split_whitespace() {
        let word = format!(in alloc; "{word}").expect(rt, "room");
        list.push(word).expect(rt, "room");
    }
    list
}

/// Runs a command of these words. Returns the exit status, the output and the errors.
fn ended<R: Abort + Files>(rt: &R, alloc: Global, words: &str) -> (u8, Vec<u8>, Vec<u8>) {
    let list = words_in(rt, alloc, words);
    let (mut out, mut err) = (Vec::new(alloc), Vec::new(alloc));
    let status = run_command(rt, alloc, &list, &mut out, &mut err);
    (status, out, err)
}

/// A command of these words ends with this status, and prints and says this.
fn assert_ended<R: Abort + Files>(
    rt: &R,
    alloc: Global,
    words: &str,
    status: u8,
    (output, errors): Told<'_>,
) {
    let (found, out, err) = ended(rt, alloc, words);
    same(rt, (words, found), (words, status));
    same(rt, (words, out.as_slice()), (words, output));
    same(rt, err.as_slice(), errors.as_bytes());
}

fn put<R: Abort + Files>(rt: &R, name: &str, octets: &[u8]) {
    fs::write(rt, name, octets).expect(rt, "a file");
}

fn assert_holds<R: Abort + Files + AllocGlobal>(rt: &R, name: &str, octets: &[u8]) {
    let found = fs::read(rt, name).expect(rt, "a file");
    same(rt, found.as_slice(), octets);
}

/// Files that commands read: messages, listings, and an archive of month 13.
const FILES: &[(&str, &[Part<'static>])] = &[
    ("b", &[(TABLE_B, 1)]),
    ("d", &[(TABLE_D, 1), (b"301250,301250\n", 1)]),
    ("elements", &[(ELEMENTS_ONLY, 1)]),
    ("elements.txt", &[(LISTING, 1)]),
    ("sequences", &[(SEQUENCES, 1)]),
    ("sequences.txt", &[(SEQUENCES_LISTING, 1)]),
    ("compressed", &[(COMPRESSED_PAIR, 1)]),
    ("compressed.txt", &[(COMPRESSED_PAIR_LISTING, 1)]),
    ("pair.txt", &[(PAIR_LISTING, 1)]),
    ("numbers", &[(NUMBERS, 1)]),
    ("numbers.txt", &[(NUMBERS_LISTING, 1)]),
    ("unequal.txt", &[(UNEQUAL_LISTING, 2)]),
    ("second.txt", &[(LISTING, 1), (UNEQUAL_LISTING, 1)]),
    ("bad.txt", &[(UNEQUAL_LISTING, 1), (b"end\n", 1)]),
    ("local", &[(LOCAL, 1)]),
    ("local.txt", &[(LOCAL_LISTING, 1)]),
    ("edition_3", &[(EDITION_3, 1)]),
    ("edition_3.txt", &[(EDITION_3_LISTING, 1)]),
    ("empty", &[]),
    ("front", &[(FRONT, 1)]),
    ("stream", TWO_FRAMES),
    ("updates", &[(SEQUENCES, 1), (LATER, 1)]),
    ("later", &[(LATER, 1)]),
    ("edition_5", &[(EDITION_5, 1)]),
    ("refused", &[(REFUSED, 1)]),
    ("out", &[(b"before", 1)]),
];

/// `SEQUENCES` with update sequence number 1 and 274.00 K.
const LATER: &[u8] = b"BUFR\x00\x00\x3E\x04\
\x00\x00\x16\x00\x00\x62\x00\x00\x01\x00\x00\x02\x00\x25\x00\x07\xE8\x01\x0F\x0C\x00\x00\
\x00\x00\x0F\x00\x00\x01\x80\xC1\x01\xC1\x0B\xC1\x0C\x0C\x65\
\x00\x00\x0D\x00\x14\xC0\x3F\x40\x9E\xC0\x1A\xC2\x00\
7777";

/// Numbers of section 1 that all differ, octets for local use and a section 2. Its data are not
/// observed.
const NUMBERS: &[u8] = b"BUFR\x00\x00\x46\x04\
\x00\x00\x18\x00\x01\x02\x03\x04\x05\x80\x06\x07\x08\x09\x0A\x0B\x0C\x0D\x0E\x0F\x10\x11\x12\x13\
\x00\x00\x06\x00\xAB\xCD\
\x00\x00\x0F\x00\x00\x01\x00\xC1\x01\xC1\x0B\xC1\x0C\x0C\x65\
\x00\x00\x0D\x00\x14\xC0\x3F\x40\x9E\xC0\x1A\xAC\xC0\
7777";

const NUMBERS_LISTING: &[u8] = b"message\n\
section1 258 772 5 6 7 8 9 10\n\
time 2828 13 14 15 16 17\n\
local1 1213\n\
section2 abcd\n\
flags\n\
descriptors 301001 301011 301012 012101\n\
subset\n\
001001 10\n\
001002 384\n\
004001 2024\n\
004002 1\n\
004003 15\n\
004004 12\n\
004005 0\n\
012101 273.15\n\
end\n";

const EDITION_5: &[u8] = b"BUFR\x00\x00\x3E\x05\
\x00\x00\x16\x00\x00\x62\x00\x00\x00\x00\x00\x02\x00\x25\x00\x07\xE8\x01\x0F\x0C\x00\x00\
\x00\x00\x0F\x00\x00\x01\x80\xC1\x01\xC1\x0B\xC1\x0C\x0C\x65\
\x00\x00\x0D\x00\x14\xC0\x3F\x40\x9E\xC0\x1A\xAC\xC0\
7777";

/// Octets for local use, a section 2, an odd octet, and slack.
const LOCAL: &[u8] = b"BUFR\x00\x00\x51\x04\
\x00\x00\x18\x00\x00\x62\x00\x00\x00\x80\x00\x02\x00\x25\x00\x07\xE8\x01\x0F\x0C\x00\x00\xAB\xCD\
\x00\x00\x06\x00\x01\x02\
\x00\x00\x18\x00\x00\x01\x80\x01\x01\x01\x02\x04\x01\x04\x02\x04\x03\x04\x04\x04\x05\x0C\x65\xFF\
\x00\x00\x0F\x00\x14\xC0\x3F\x40\x9E\xC0\x1A\xAC\xC0\x00\x00\
7777";

const LOCAL_LISTING: &[u8] = b"message\n\
section1 98 0 0 0 2 0 37 0\n\
time 2024 1 15 12 0 0\n\
local1 abcd\n\
section2 0102\n\
flags observed\n\
descriptors 001001 001002 004001 004002 004003 004004 004005 012101\n\
subset\n\
001001 10\n\
001002 384\n\
004001 2024\n\
004002 1\n\
004003 15\n\
004004 12\n\
004005 0\n\
012101 273.15\n\
end\n";

const LOCAL_WRITTEN: &[u8] = b"BUFR\x00\x00\x4E\x04\
\x00\x00\x18\x00\x00\x62\x00\x00\x00\x80\x00\x02\x00\x25\x00\x07\xE8\x01\x0F\x0C\x00\x00\xAB\xCD\
\x00\x00\x06\x00\x01\x02\
\x00\x00\x17\x00\x00\x01\x80\x01\x01\x01\x02\x04\x01\x04\x02\x04\x03\x04\x04\x04\x05\x0C\x65\
\x00\x00\x0D\x00\x14\xC0\x3F\x40\x9E\xC0\x1A\xAC\xC0\
7777";

/// An octet for local use and one of slack.
const EDITION_3: &[u8] = b"BUFR\x00\x00\x3C\x03\
\x00\x00\x12\x00\x00\x62\x00\x00\x00\x02\x0D\x00\x18\x01\x0F\x0C\x00\x00\
\x00\x00\x10\x00\x00\x01\x80\xC1\x01\xC1\x0B\xC1\x0C\x0C\x65\x00\
\x00\x00\x0E\x00\x14\xC0\x3F\x40\x9E\xC0\x1A\xAC\xC0\x00\
7777";

const EDITION_3_LISTING: &[u8] = b"message\n\
section1 98 0 0 0 255 2 13 0\n\
time 2024 1 15 12 0 0\n\
local1 00\n\
flags observed\n\
descriptors 301001 301011 301012 012101\n\
subset\n\
001001 10\n\
001002 384\n\
004001 2024\n\
004002 1\n\
004003 15\n\
004004 12\n\
004005 0\n\
012101 273.15\n\
end\n";

/// In edition 4.
const EDITION_3_WRITTEN: &[u8] = b"BUFR\x00\x00\x3F\x04\
\x00\x00\x17\x00\x00\x62\x00\x00\x00\x00\x00\xFF\x02\x0D\x00\x07\xE8\x01\x0F\x0C\x00\x00\x00\
\x00\x00\x0F\x00\x00\x01\x80\xC1\x01\xC1\x0B\xC1\x0C\x0C\x65\
\x00\x00\x0D\x00\x14\xC0\x3F\x40\x9E\xC0\x1A\xAC\xC0\
7777";

const SEQUENCES_COMPRESSED: &[u8] = b"BUFR\x00\x00\x44\x04\
\x00\x00\x16\x00\x00\x62\x00\x00\x00\x00\x00\x02\x00\x25\x00\x07\xE8\x01\x0F\x0C\x00\x00\
\x00\x00\x0F\x00\x00\x01\xC0\xC1\x01\xC1\x0B\xC1\x0C\x0C\x65\
\x00\x00\x13\x00\x14\x03\x00\x03\xF4\x00\x20\x1E\x03\x00\x00\x06\xAB\x30\x00\
7777";

/// The first 30 octets of `SEQUENCES`.
const FRONT: &[u8] = b"BUFR\x00\x00\x3E\x04\
\x00\x00\x16\x00\x00\x62\x00\x00\x00\x00\x00\x02\x00\x25\x00\x07\xE8\x01\x0F\x0C\x00\x00";

/// Two compressed subsets of counts 0 and 1.
const UNEQUAL_LISTING: &[u8] = b"message\n\
section1 98 0 0 0 2 0 37 0\n\
time 2024 1 15 12 0 0\n\
flags observed compressed\n\
descriptors 101000 031001 012101\n\
subset\n\
031001 0\n\
subset\n\
031001 1\n\
012101 273.15\n\
end\n";

/// Messages that are refused: edition 5; section 3 of 8
/// octets; descriptors 001250, 203012 and 222000; eight data octets for 66 bits; descriptors 101000
/// 031011 012101, and 301250. Last comes `SEQUENCES` with a total of 63, which is no frame.
const REFUSED: &[u8] = b"BUFR\x00\x00\x3E\x05\
\x00\x00\x16\x00\x00\x62\x00\x00\x00\x00\x00\x02\x00\x25\x00\x07\xE8\x01\x0F\x0C\x00\x00\
\x00\x00\x0F\x00\x00\x01\x80\xC1\x01\xC1\x0B\xC1\x0C\x0C\x65\
\x00\x00\x0D\x00\x14\xC0\x3F\x40\x9E\xC0\x1A\xAC\xC0\
7777\
BUFR\x00\x00\x2E\x04\
\x00\x00\x16\x00\x00\x62\x00\x00\x00\x00\x00\x02\x00\x25\x00\x07\xE8\x01\x0F\x0C\x00\x00\
\x00\x00\x08\x00\x00\x01\x80\x00\
\x00\x00\x04\x00\
7777\
BUFR\x00\x00\x30\x04\
\x00\x00\x16\x00\x00\x62\x00\x00\x00\x00\x00\x02\x00\x25\x00\x07\xE8\x01\x0F\x0C\x00\x00\
\x00\x00\x09\x00\x00\x01\x80\x01\xFA\
\x00\x00\x05\x00\x00\
7777\
BUFR\x00\x00\x30\x04\
\x00\x00\x16\x00\x00\x62\x00\x00\x00\x00\x00\x02\x00\x25\x00\x07\xE8\x01\x0F\x0C\x00\x00\
\x00\x00\x09\x00\x00\x01\x80\x83\x0C\
\x00\x00\x05\x00\x00\
7777\
BUFR\x00\x00\x30\x04\
\x00\x00\x16\x00\x00\x62\x00\x00\x00\x00\x00\x02\x00\x25\x00\x07\xE8\x01\x0F\x0C\x00\x00\
\x00\x00\x09\x00\x00\x01\x80\x96\x00\
\x00\x00\x05\x00\x00\
7777\
BUFR\x00\x00\x45\x04\
\x00\x00\x16\x00\x00\x62\x00\x00\x00\x00\x00\x02\x00\x25\x00\x07\xE8\x01\x0F\x0C\x00\x00\
\x00\x00\x17\x00\x00\x01\x80\x01\x01\x01\x02\x04\x01\x04\x02\x04\x03\x04\x04\x04\x05\x0C\x65\
\x00\x00\x0C\x00\x14\xC0\x3F\x40\x9E\xC0\x1A\xAC\
7777\
BUFR\x00\x00\x34\x04\
\x00\x00\x16\x00\x00\x62\x00\x00\x00\x00\x00\x02\x00\x25\x00\x07\xE8\x01\x0F\x0C\x00\x00\
\x00\x00\x0D\x00\x00\x01\x80\x41\x00\x1F\x0B\x0C\x65\
\x00\x00\x05\x00\x00\
7777\
BUFR\x00\x00\x30\x04\
\x00\x00\x16\x00\x00\x62\x00\x00\x00\x00\x00\x02\x00\x25\x00\x07\xE8\x01\x0F\x0C\x00\x00\
\x00\x00\x09\x00\x00\x01\x80\xC1\xFA\
\x00\x00\x05\x00\x00\
7777\
BUFR\x00\x00\x3F\x04\
\x00\x00\x16\x00\x00\x62\x00\x00\x00\x00\x00\x02\x00\x25\x00\x07\xE8\x01\x0F\x0C\x00\x00\
\x00\x00\x0F\x00\x00\x01\x80\xC1\x01\xC1\x0B\xC1\x0C\x0C\x65\
\x00\x00\x0D\x00\x14\xC0\x3F\x40\x9E\xC0\x1A\xAC\xC0\
7777";

const REFUSALS: &[u8] = b"0 62 refused M2 Edition 5\n\
62 46 refused M8 Section3Length\n\
108 48 refused X1 UnknownElement 001250\n\
156 48 refused X3 UnsupportedOperator 203012\n\
204 48 refused X3 UnsupportedOperator 222000\n\
252 69 refused V2 DataEnds 1 8\n\
321 52 refused X5 BadFactor 031011\n\
373 48 refused X8 TooDeep\n\
frames 8 refused 8 skipped 62\n";

/// Words of commands, their status, and what they print and say.
const COMMANDS: &[(&str, u8, Told<'static>)] = &[
    ("show -b b -d d elements", 0, (LISTING, "")),
    ("encode -b b -d d elements.txt", 0, (ELEMENTS_ONLY, "")),
    ("show -b b -d d local", 0, (LOCAL_LISTING, "")),
    ("encode -b b -d d local.txt", 0, (LOCAL_WRITTEN, "")),
    ("show -b b -d d sequences", 0, (SEQUENCES_LISTING, "")),
    ("encode -b b -d d sequences.txt", 0, (SEQUENCES, "")),
    (
        "encode -b b -d d --compressed sequences.txt",
        0,
        (SEQUENCES_COMPRESSED, ""),
    ),
    ("encode -b b -d d empty", 0, (b"", "")),
    (
        "check -b b -d d edition_3",
        0,
        (b"0 60 ok 1 1\nframes 1 refused 0 skipped 0\n", ""),
    ),
    ("show -b b -d d edition_3", 0, (EDITION_3_LISTING, "")),
    ("encode -b b -d d edition_3.txt", 0, (EDITION_3_WRITTEN, "")),
    (
        "check -b b -d d front",
        0,
        (b"frames 0 refused 0 skipped 30\n", ""),
    ),
    (
        "show -b b -d d compressed",
        0,
        (COMPRESSED_PAIR_LISTING, ""),
    ),
    ("encode -b b -d d compressed.txt", 0, (COMPRESSED_PAIR, "")),
    (
        "encode -b b -d d --compressed pair.txt",
        0,
        (PAIR_COMPRESSED, ""),
    ),
    ("check -b b -d d stream", 0, (CHECKED, "")),
    (
        "check -b b -d d edition_5",
        1,
        (
            b"0 62 refused M2 Edition 5\nframes 1 refused 1 skipped 0\n",
            "",
        ),
    ),
    (
        "show -b b -d d edition_5",
        1,
        (b"# refused 0 M2 Edition 5\n", ""),
    ),
    ("check -b b -d d refused", 1, (REFUSALS, "")),
    ("show -b b -d d numbers", 0, (NUMBERS_LISTING, "")),
    ("encode -b b -d d numbers.txt", 0, (NUMBERS, "")),
    (
        "encode -b b -d d --compressed compressed.txt",
        0,
        (COMPRESSED_PAIR, ""),
    ),
    // OUT stays
    (
        "merge -b b -d d -o out sequences stream",
        2,
        (b"", "bufr: not an archive input 2 at 0\n"),
    ),
    (
        "merge -b b -d d -o out edition_3",
        2,
        (b"", "bufr: not an archive input 1 at 0\n"),
    ),
    (
        "add -b b -d d -o out stream none",
        2,
        (b"", "bufr: cannot open none\n"),
    ),
    (
        "show -b b -d none sequences",
        2,
        (b"", "bufr: cannot open none\n"),
    ),
    ("check -b b -d d none", 2, (b"", "bufr: cannot open none\n")),
    (
        "check -b d -d d sequences",
        2,
        (b"", "bufr: table B: B1 NoColumn FXY\n"),
    ),
    (
        "check -b b -d b sequences",
        2,
        (b"", "bufr: table D: B1 NoColumn FXY1\n"),
    ),
    (
        "encode -b b -d d b",
        2,
        (b"", "bufr: listing: L1 BadLine 1\n"),
    ),
    (
        "encode -b b -d d unequal.txt",
        2,
        (b"", "bufr: message 1: E2 NotCompressible 1\n"),
    ),
    (
        "encode -b b -d d second.txt",
        2,
        (b"", "bufr: message 2: E2 NotCompressible 1\n"),
    ),
    (
        "encode -b b -d d bad.txt",
        2,
        (b"", "bufr: listing: L1 BadLine 12\n"),
    ),
];

/// Words that are no line, or ask for help, and their status. The texts are those of the option parser.
const WORDS: &[(&str, u8)] = &[
    ("", 0),
    ("--help", 0),
    ("merge --help", 0),
    ("--version", 0),
    ("none", 2),
    ("check", 2),
    ("check -b b -d d", 2),
    ("check -b b sequences", 2),
    ("check -d d sequences", 2),
    ("check -b b -d d --compressed sequences", 2),
    ("show -b b -d d -o other sequences", 2),
    ("encode -b b -d d -o other pair.txt", 2),
    ("add -b b -d d stream", 2),
    ("add -b b -d d --compressed -o other stream", 2),
    ("show -b b -d d sequences stream", 2),
    ("encode -b b -d d elements.txt pair.txt", 2),
    ("encode -b b -d d -c pair.txt", 2),
    ("encode -b b -d d --compressed --compressed pair.txt", 2),
    ("show --b b -d d sequences", 2),
    ("show -b b -b b -d d sequences", 2),
    ("add -b b -d d -o other -o another stream", 2),
    ("merge -b b -d d -o other", 2),
];

fn assert_status<R: Abort + Files>(rt: &R, alloc: Global, words: &str, status: u8) {
    let (found, out, err) = ended(rt, alloc, words);
    same(rt, (words, found), (words, status));
    same(
        rt,
        (words, line(alloc, &words_in(rt, alloc, words)).is_err()),
        (words, true),
    );
    same(rt, out.is_empty(), status == 2);
    same(rt, err.is_empty(), status == 0);
}

/// Archives that `add` and `merge` write, and the lines that these print.
fn assert_archives<R: Abort + Files + AllocGlobal>(rt: &R) {
    assert_holds(rt, "out", b"before");
    let added: Told<'_> = (b"frames 2 refused 0 reports 1\n", "");
    assert_ended(rt, rt.alloc(), "add -b b -d d -o out stream", 0, added);
    assert_holds(rt, "out", SEQUENCES);
    assert_ended(rt, rt.alloc(), "add -b b -d d -o latest updates", 0, added);
    assert_holds(rt, "latest", LATER);
    let refused: Told<'_> = (b"frames 2 refused 1 reports 1\n", "");
    let words = "add -b b -d d -o kept edition_5 later";
    assert_ended(rt, rt.alloc(), words, 1, refused);
    assert_holds(rt, "kept", LATER);
    let merged: Told<'_> = (b"archives 2 reports 1\n", "");
    assert_ended(
        rt,
        rt.alloc(),
        "merge -b b -d d -o both out kept",
        0,
        merged,
    );
    assert_holds(rt, "both", LATER);
}

#[test]
fn commands(rt: HostRuntime) {
    for (name, parts) in FILES {
        let octets = joined(&rt, rt.alloc(), *parts);
        put(&rt, *name, &octets);
    }
    for (words, status, told) in COMMANDS {
        assert_ended(&rt, rt.alloc(), *words, *status, *told);
    }
    for (words, status) in WORDS {
        assert_status(&rt, rt.alloc(), *words, *status);
    }
    assert_archives(&rt);
}
