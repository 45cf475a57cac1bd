//! The callers on messages of one station. Octets are typed from the layout of messages.

mod archive_face;
mod faces;
mod fault_face;
mod part_face;
mod tool_face;

use super::*;
use bufr_archive::NotAnArchive;
use bufr_frame::Found;
use bufr_message::{Failure, Refused};
use bufr_tables::{TableB, TableD, Tables};
use std::alloc::Global;
use std::process::Abort;

const TABLE_B: &[u8] = b"FXY,BUFR_Unit,BUFR_Scale,BUFR_ReferenceValue,BUFR_DataWidth_Bits\n\
001001,Numeric,0,0,7\n\
001002,Numeric,0,0,10\n\
004001,a,0,0,12\n\
004002,mon,0,0,4\n\
004003,d,0,0,6\n\
004004,h,0,0,5\n\
004005,min,0,0,6\n\
004006,s,0,0,6\n\
012101,K,2,0,16\n";

/// 273.15 K, with an octet after the data.
const SLACK: &[u8] = b"BUFR\x00\x00\x32\x04\
\x00\x00\x16\x00\x00\x62\x00\x00\x00\x00\x00\x02\x00\x25\x00\x07\xE8\x01\x0F\x0C\x00\x00\
\x00\x00\x09\x00\x00\x01\x80\x0C\x65\
\x00\x00\x07\x00\x6A\xB3\xFF\
7777";

/// 273.15 K without that octet.
const BARE: &[u8] = b"BUFR\x00\x00\x31\x04\
\x00\x00\x16\x00\x00\x62\x00\x00\x00\x00\x00\x02\x00\x25\x00\x07\xE8\x01\x0F\x0C\x00\x00\
\x00\x00\x09\x00\x00\x01\x80\x0C\x65\
\x00\x00\x06\x00\x6A\xB3\
7777";

/// 273.16 K.
const WARMER: &[u8] = b"BUFR\x00\x00\x31\x04\
\x00\x00\x16\x00\x00\x62\x00\x00\x00\x00\x00\x02\x00\x25\x00\x07\xE8\x01\x0F\x0C\x00\x00\
\x00\x00\x09\x00\x00\x01\x80\x0C\x65\
\x00\x00\x06\x00\x6A\xB4\
7777";

/// Both messages.
const ARCHIVE: &[u8] = b"BUFR\x00\x00\x31\x04\
\x00\x00\x16\x00\x00\x62\x00\x00\x00\x00\x00\x02\x00\x25\x00\x07\xE8\x01\x0F\x0C\x00\x00\
\x00\x00\x09\x00\x00\x01\x80\x0C\x65\
\x00\x00\x06\x00\x6A\xB3\
7777\
BUFR\x00\x00\x31\x04\
\x00\x00\x16\x00\x00\x62\x00\x00\x00\x00\x00\x02\x00\x25\x00\x07\xE8\x01\x0F\x0C\x00\x00\
\x00\x00\x09\x00\x00\x01\x80\x0C\x65\
\x00\x00\x06\x00\x6A\xB4\
7777";

/// The archive and one more octet.
const ARCHIVE_AND_MORE: &[u8] = b"BUFR\x00\x00\x31\x04\
\x00\x00\x16\x00\x00\x62\x00\x00\x00\x00\x00\x02\x00\x25\x00\x07\xE8\x01\x0F\x0C\x00\x00\
\x00\x00\x09\x00\x00\x01\x80\x0C\x65\
\x00\x00\x06\x00\x6A\xB3\
7777\
BUFR\x00\x00\x31\x04\
\x00\x00\x16\x00\x00\x62\x00\x00\x00\x00\x00\x02\x00\x25\x00\x07\xE8\x01\x0F\x0C\x00\x00\
\x00\x00\x09\x00\x00\x01\x80\x0C\x65\
\x00\x00\x06\x00\x6A\xB4\
7777B";

/// The message with an octet after the data, a stray `BUFR`, and the message without it.
const STREAM: &[u8] = b"BUFR\x00\x00\x32\x04\
\x00\x00\x16\x00\x00\x62\x00\x00\x00\x00\x00\x02\x00\x25\x00\x07\xE8\x01\x0F\x0C\x00\x00\
\x00\x00\x09\x00\x00\x01\x80\x0C\x65\
\x00\x00\x07\x00\x6A\xB3\xFF\
7777\
BUFR\
BUFR\x00\x00\x31\x04\
\x00\x00\x16\x00\x00\x62\x00\x00\x00\x00\x00\x02\x00\x25\x00\x07\xE8\x01\x0F\x0C\x00\x00\
\x00\x00\x09\x00\x00\x01\x80\x0C\x65\
\x00\x00\x06\x00\x6A\xB3\
7777";

/// Both as compressed subsets, with increments of three bits: 011010101011 0011, 000011, 000, 001.
const BOTH: &[u8] = b"BUFR\x00\x00\x33\x04\
\x00\x00\x16\x00\x00\x62\x00\x00\x00\x00\x00\x02\x00\x25\x00\x07\xE8\x01\x0F\x0C\x00\x00\
\x00\x00\x09\x00\x00\x02\xC0\x0C\x65\
\x00\x00\x08\x00\x6A\xB3\x0C\x10\
7777";

/// Both with increments of two bits, the fewest: 011010101011 0011, 000010, 00, 01.
const NARROW: &[u8] = b"BUFR\x00\x00\x33\x04\
\x00\x00\x16\x00\x00\x62\x00\x00\x00\x00\x00\x02\x00\x25\x00\x07\xE8\x01\x0F\x0C\x00\x00\
\x00\x00\x09\x00\x00\x02\xC0\x0C\x65\
\x00\x00\x08\x00\x6A\xB3\x08\x40\
7777";

/// 273.15 K in edition 3, with sub-category 2.
const EDITION_3: &[u8] = b"BUFR\x00\x00\x2C\x03\
\x00\x00\x11\x00\x00\x62\x00\x00\x00\x02\x25\x00\x18\x01\x0F\x0C\x00\
\x00\x00\x09\x00\x00\x01\x80\x0C\x65\
\x00\x00\x06\x00\x6A\xB3\
7777";

/// 273.15 K in edition 4: international sub-category 255, local one 2.
const EDITION_4: &[u8] = b"BUFR\x00\x00\x31\x04\
\x00\x00\x16\x00\x00\x62\x00\x00\x00\x00\x00\xFF\x02\x25\x00\x07\xE8\x01\x0F\x0C\x00\x00\
\x00\x00\x09\x00\x00\x01\x80\x0C\x65\
\x00\x00\x06\x00\x6A\xB3\
7777";

/// No subset.
const EMPTY: &[u8] = b"BUFR\x00\x00\x2F\x04\
\x00\x00\x16\x00\x00\x62\x00\x00\x00\x00\x00\x02\x00\x25\x00\x07\xE8\x01\x0F\x0C\x00\x00\
\x00\x00\x09\x00\x00\x00\x80\x0C\x65\
\x00\x00\x04\x00\
7777";

/// Station 10384 at 2023-05-17 13:34:56, with other numbers in section 1.
const STATION: &[u8] = b"BUFR\x00\x00\x44\x04\
\x00\x00\x16\x00\x00\x62\x00\x07\x01\x00\x02\x03\x29\x25\x05\x07\xE8\x04\x0F\x0C\x1E\x2D\
\x00\x00\x17\x00\x00\x01\x80\x01\x01\x01\x02\x04\x01\x04\x02\x04\x03\x04\x04\x04\x05\x04\x06\
\x00\x00\x0B\x00\x14\xC0\x3F\x3A\xA2\xD8\xB8\
7777";

fn tables(rt: &impl Abort, alloc: Global) -> Tables {
    let elements = TableB::parse(alloc, TABLE_B).expect(rt, "a table");
    let sequences = TableD::parse(alloc, b"FXY1,FXY2\n".as_slice()).expect(rt, "a table");
    Tables::new(elements, sequences)
}

fn gives<E: Drop>(answer: Result<Vec<u8>, E>, wanted: &[u8]) -> bool {
    match answer {
        Ok(octets) => octets.as_slice() == wanted,
        Err(_) => false,
    }
}

const COUNTED: [(&[u8], usize); 4] = [(EMPTY, 0), (BARE, 1), (EDITION_3, 1), (BOTH, 2)];

#[test]
fn reports_are_counted(rt: HostRuntime) {
    let tables = tables(&rt, rt.alloc());
    for &(octets, reports) in &COUNTED {
        assert!(rt; count(rt.alloc(), &tables, octets) == Ok(reports));
    }
    let refused = count(rt.alloc(), &tables, &BARE[..40]);
    drop(tables);
    assert!(rt; refused == Err(Failure::Fault(Refused::TotalLength)));
}

const REWRITTEN: [(&[u8], &[u8]); 5] = [
    (SLACK, BARE),
    (BARE, BARE),
    (EMPTY, EMPTY),
    (BOTH, NARROW),
    (EDITION_3, EDITION_4),
];

/// Whether a message was refused as cut.
fn is_cut(answer: Result<Vec<u8>, RewriteFault>) -> bool {
    matches!(answer, Err(RewriteFault::Refused(Refused::TotalLength)))
}

#[test]
fn slack_is_not_rewritten(rt: HostRuntime) {
    let tables = tables(&rt, rt.alloc());
    for &(octets, wanted) in &REWRITTEN {
        assert!(rt; gives(rewritten(rt.alloc(), &tables, octets), wanted));
    }
    assert!(rt; is_cut(rewritten(rt.alloc(), &tables, &SLACK[..40])));
    drop(tables);
}

fn is_frame(found: &[Found], place: u64, octets: &[u8]) -> bool {
    match found {
        [frame] => frame.place == place && frame.bytes.as_slice() == octets,
        _ => false,
    }
}

#[test]
fn frames_before_and_at_the_end(rt: HostRuntime) {
    let frames = frames_of(rt.alloc(), STREAM).expect(&rt, "room");
    assert!(rt; is_frame(&frames.sure, 0, SLACK));
    assert!(rt; is_frame(&frames.last, 54, BARE));
    drop(frames);
}

/// An archive's file, a message, and the file with the message: in place of, after or before
/// others.
const TAKEN_IN: [(&[u8], &[u8], &[u8]); 6] = [
    (b"", SLACK, BARE),
    (BARE, SLACK, BARE),
    (BARE, WARMER, ARCHIVE),
    (WARMER, BARE, ARCHIVE),
    (b"", BOTH, ARCHIVE),
    (ARCHIVE, EMPTY, ARCHIVE),
];

/// Whether a file is no archive from this place on.
fn breaks(answer: Result<Vec<u8>, KeepFault>, at: u64) -> bool {
    match answer {
        Err(KeepFault::NotAnArchive(NotAnArchive { place })) => place == at,
        _ => false,
    }
}

/// A file that is no archive is a fault, whatever the message.
#[test]
fn messages_taken_in(rt: HostRuntime) {
    let tables = tables(&rt, rt.alloc());
    for &(file, message, text) in &TAKEN_IN {
        assert!(rt; gives(with_message(rt.alloc(), &tables, file, message), text));
    }
    assert!(rt; breaks(with_message(rt.alloc(), &tables, SLACK, BARE), 0));
    assert!(rt;
        breaks(
            with_message(rt.alloc(), &tables, ARCHIVE_AND_MORE, b"BUFR"),
            98
        )
    );
    drop(tables);
}
