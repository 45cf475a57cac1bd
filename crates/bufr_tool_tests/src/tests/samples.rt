//! Tables, messages and their listings, typed from the rules of the formats.

use bufr_tables::{TableB, TableD, Tables};
use std::alloc::Global;
use std::process::Abort;

pub(super) const TABLE_B: &[u8] =
    b"FXY,BUFR_Unit,BUFR_Scale,BUFR_ReferenceValue,BUFR_DataWidth_Bits\n\
001001,Numeric,0,0,7\n\
001002,Numeric,0,0,10\n\
001011,CCITT IA5,0,0,72\n\
002001,Code table,0,0,2\n\
004001,a,0,0,12\n\
004002,mon,0,0,4\n\
004003,d,0,0,6\n\
004004,h,0,0,5\n\
004005,min,0,0,6\n\
012101,K,2,0,16\n\
031000,Numeric,0,0,1\n\
031001,Numeric,0,0,8\n";

pub(super) const TABLE_D: &[u8] = b"FXY1,FXY2\n\
301001,001001\n\
301001,001002\n\
301011,004001\n\
301011,004002\n\
301011,004003\n\
301012,004004\n\
301012,004005\n";

/// One plain subset of eight elements.
pub(super) const ELEMENTS_ONLY: &[u8] = b"BUFR\x00\x00\x46\x04\
\x00\x00\x16\x00\x00\x62\x00\x00\x00\x00\x00\x02\x00\x25\x00\x07\xE8\x01\x0F\x0C\x00\x00\
\x00\x00\x17\x00\x00\x01\x80\x01\x01\x01\x02\x04\x01\x04\x02\x04\x03\x04\x04\x04\x05\x0C\x65\
\x00\x00\x0D\x00\x14\xC0\x3F\x40\x9E\xC0\x1A\xAC\xC0\
7777";

/// Its listing.
pub(super) const LISTING: &[u8] = b"message\n\
section1 98 0 0 0 2 0 37 0\n\
time 2024 1 15 12 0 0\n\
flags observed\n\
descriptors 001001 001002 004001 004002 004003 004004 004005 012101\n\
subset\n\
001001 10\n\
001002 384\n\
004001 2024\n\
004002 1\n\
004003 15\n\
004004 12\n\
004005 0\n\
012101 273.15\n\
end\n";

/// One plain subset of a station, a time and a temperature.
pub(super) const SEQUENCES: &[u8] = b"BUFR\x00\x00\x3E\x04\
\x00\x00\x16\x00\x00\x62\x00\x00\x00\x00\x00\x02\x00\x25\x00\x07\xE8\x01\x0F\x0C\x00\x00\
\x00\x00\x0F\x00\x00\x01\x80\xC1\x01\xC1\x0B\xC1\x0C\x0C\x65\
\x00\x00\x0D\x00\x14\xC0\x3F\x40\x9E\xC0\x1A\xAC\xC0\
7777";

pub(super) const SEQUENCES_LISTING: &[u8] = b"message\n\
section1 98 0 0 0 2 0 37 0\n\
time 2024 1 15 12 0 0\n\
flags observed\n\
descriptors 301001 301011 301012 012101\n\
subset\n\
001001 10\n\
001002 384\n\
004001 2024\n\
004002 1\n\
004003 15\n\
004004 12\n\
004005 0\n\
012101 273.15\n\
end\n";

/// Two compressed subsets, the second without its temperature.
pub(super) const COMPRESSED_PAIR: &[u8] = b"BUFR\x00\x00\x44\x04\
\x00\x00\x16\x00\x00\x62\x00\x00\x00\x00\x00\x02\x00\x25\x00\x07\xE8\x01\x0F\x0C\x00\x00\
\x00\x00\x0F\x00\x00\x02\xC0\xC1\x01\xC1\x0B\xC1\x0C\x0C\x65\
\x00\x00\x13\x00\x14\x03\x00\x03\xF4\x00\x20\x1E\x03\x00\x00\x06\xAB\x30\x50\
7777";

pub(super) const COMPRESSED_PAIR_LISTING: &[u8] = b"message\n\
section1 98 0 0 0 2 0 37 0\n\
time 2024 1 15 12 0 0\n\
flags observed compressed\n\
descriptors 301001 301011 301012 012101\n\
subset\n\
001001 10\n\
001002 384\n\
004001 2024\n\
004002 1\n\
004003 15\n\
004004 12\n\
004005 0\n\
012101 273.15\n\
subset\n\
001001 10\n\
001002 384\n\
004001 2024\n\
004002 1\n\
004003 15\n\
004004 12\n\
004005 0\n\
012101 missing\n\
end\n";

/// A plain listing of two subsets, the second with another temperature.
pub(super) const PAIR_LISTING: &[u8] = b"message\n\
section1 98 0 0 0 2 0 37 0\n\
time 2024 1 15 12 0 0\n\
flags observed\n\
descriptors 301001 301011 301012 012101\n\
subset\n\
001001 10\n\
001002 384\n\
004001 2024\n\
004002 1\n\
004003 15\n\
004004 12\n\
004005 0\n\
012101 273.15\n\
subset\n\
001001 10\n\
001002 384\n\
004001 2024\n\
004002 1\n\
004003 15\n\
004004 12\n\
004005 0\n\
012101 273.16\n\
end\n";

/// Its compressed message.
pub(super) const PAIR_COMPRESSED: &[u8] = b"BUFR\x00\x00\x44\x04\
\x00\x00\x16\x00\x00\x62\x00\x00\x00\x00\x00\x02\x00\x25\x00\x07\xE8\x01\x0F\x0C\x00\x00\
\x00\x00\x0F\x00\x00\x02\xC0\xC1\x01\xC1\x0B\xC1\x0C\x0C\x65\
\x00\x00\x13\x00\x14\x03\x00\x03\xF4\x00\x20\x1E\x03\x00\x00\x06\xAB\x30\x84\
7777";

/// A report of another update number, and one of month 13, which has no key: an archive.
pub(super) const ARCHIVE: &[u8] = b"BUFR\x00\x00\x3E\x04\
\x00\x00\x16\x00\x00\x62\x00\x00\x01\x00\x00\x02\x00\x25\x00\x07\xE8\x01\x0F\x0C\x00\x00\
\x00\x00\x0F\x00\x00\x01\x80\xC1\x01\xC1\x0B\xC1\x0C\x0C\x65\
\x00\x00\x0D\x00\x14\xC0\x3F\x40\x9E\xC0\x1A\xC2\x00\
7777\
BUFR\x00\x00\x3E\x04\
\x00\x00\x16\x00\x00\x62\x00\x00\x00\x00\x00\x02\x00\x25\x00\x07\xE8\x01\x0F\x0C\x00\x00\
\x00\x00\x0F\x00\x00\x01\x80\xC1\x01\xC1\x0B\xC1\x0C\x0C\x65\
\x00\x00\x0D\x00\x14\xC0\x3F\x46\x9E\xC0\x1A\xAC\xC0\
7777";

/// Sixty characters that no listing has as themselves.
pub(super) const TEXT: &[u8] = b"BUFR\x00\x00\x6B\x04\
\x00\x00\x16\x00\x00\x62\x00\x00\x00\x00\x00\x02\x00\x25\x00\x07\xE8\x01\x0F\x0C\x00\x00\
\x00\x00\x09\x00\x00\x01\x80\x85\x3C\
\x00\x00\x40\x00\
\xE9\xE9\xE9\xE9\xE9\xE9\xE9\xE9\xE9\xE9\xE9\xE9\xE9\xE9\xE9\xE9\xE9\xE9\xE9\xE9\
\xE9\xE9\xE9\xE9\xE9\xE9\xE9\xE9\xE9\xE9\xE9\xE9\xE9\xE9\xE9\xE9\xE9\xE9\xE9\xE9\
\xE9\xE9\xE9\xE9\xE9\xE9\xE9\xE9\xE9\xE9\xE9\xE9\xE9\xE9\xE9\xE9\xE9\xE9\xE9\xE9\
7777";

/// Its listing.
pub(super) const TEXT_LISTING: &[u8] = b"message\n\
section1 98 0 0 0 2 0 37 0\n\
time 2024 1 15 12 0 0\n\
flags observed\n\
descriptors 205060\n\
subset\n\
205060 \"\\e9\\e9\\e9\\e9\\e9\\e9\\e9\\e9\\e9\\e9\\e9\\e9\\e9\\e9\\e9\\e9\\e9\\e9\\e9\\e9\
\\e9\\e9\\e9\\e9\\e9\\e9\\e9\\e9\\e9\\e9\\e9\\e9\\e9\\e9\\e9\\e9\\e9\\e9\\e9\\e9\
\\e9\\e9\\e9\\e9\\e9\\e9\\e9\\e9\\e9\\e9\\e9\\e9\\e9\\e9\\e9\\e9\\e9\\e9\\e9\\e9\"\n\
end\n";

/// Four thousand compressed subsets of one element, all alike.
pub(super) const MANY_SUBSETS: &[u8] = b"BUFR\x00\x00\x31\x04\
\x00\x00\x16\x00\x00\x62\x00\x00\x00\x00\x00\x02\x00\x25\x00\x07\xE8\x01\x0F\x0C\x00\x00\
\x00\x00\x09\x00\x0F\xA0\xC0\x01\x01\
\x00\x00\x06\x00\x14\x00\
7777";

/// The lines of its listing before the first subset.
pub(super) const HEADING: &[u8] = b"message\n\
section1 98 0 0 0 2 0 37 0\n\
time 2024 1 15 12 0 0\n\
flags observed compressed\n\
descriptors 001001\n";

/// The lines of a subset.
pub(super) const SUBSET: &[u8] = b"subset\n001001 10\n";

/// Octets, and how often they come, one after another.
pub(super) type Part<'a> = (&'a [u8], u32);

/// A bulletin's heading, the message, a stray `BUFR`, and the message again.
pub(super) const TWO_FRAMES: &[Part<'static>] = &[
    (b"ISMD01 EDZW 151200", 1),
    (SEQUENCES, 1),
    (b"BUFR", 1),
    (SEQUENCES, 1),
];

/// The output of `check` for them.
pub(super) const CHECKED: &[u8] = b"18 62 ok 1 0\n84 62 ok 1 0\nframes 2 refused 0 skipped 22\n";

pub(super) fn tables(rt: &impl Abort, alloc: Global) -> Tables {
    Tables::new(
        TableB::parse(alloc, TABLE_B).expect(rt, "an answer"),
        TableD::parse(alloc, TABLE_D).expect(rt, "an answer"),
    )
}

/// Joins parts.
pub(super) fn joined(rt: &impl Abort, alloc: Global, parts: &[Part<'_>]) -> Vec<u8> {
    let mut octets = Vec::new(alloc);
    for (part, times) in parts {
        for _ in 0..*times {
            octets.extend_from_slice(*part).expect(rt, "room");
        }
    }
    octets
}
