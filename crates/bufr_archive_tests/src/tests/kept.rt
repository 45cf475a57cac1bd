//! Messages added to archives, archives merged, copied and read: what they keep, over both shelves.
ghost use Rattle.std.specs.Prelude.{◌≡◌};

use super::{EDITION_5, MONTH_13, ROW_1, UPDATED, same, tables};
use bufr_archive::{AddFault, Added, Archive, MapShelf, NotAnArchive, Shelf, SortedShelf};
use bufr_base::Failure;
use bufr_bits::device::IntoWrite;
use bufr_message::Refused;
use bufr_tables::Tables;
use std::alloc::Global;
use std::process::Abort;

/// The first message with 273.16 K.
const WARMER: &[u8] = b"BUFR\x00\x00\x3E\x04\
\x00\x00\x16\x00\x00\x62\x00\x00\x00\x00\x00\x02\x00\x25\x00\x07\xE8\x01\x0F\x0C\x00\x00\
\x00\x00\x0F\x00\x00\x01\x80\xC1\x01\xC1\x0B\xC1\x0C\x0C\x65\
\x00\x00\x0D\x00\x14\xC0\x3F\x40\x9E\xC0\x1A\xAD\x00\
7777";

/// The first message with a missing temperature.
const MISSING_TEMPERATURE: &[u8] = b"BUFR\x00\x00\x3E\x04\
\x00\x00\x16\x00\x00\x62\x00\x00\x00\x00\x00\x02\x00\x25\x00\x07\xE8\x01\x0F\x0C\x00\x00\
\x00\x00\x0F\x00\x00\x01\x80\xC1\x01\xC1\x0B\xC1\x0C\x0C\x65\
\x00\x00\x0D\x00\x14\xC0\x3F\x40\x9E\xC0\x3F\xFF\xC0\
7777";

/// The reports of the first message and of that with a missing temperature, compressed.
const COMPRESSED_PAIR: &[u8] = b"BUFR\x00\x00\x44\x04\
\x00\x00\x16\x00\x00\x62\x00\x00\x00\x00\x00\x02\x00\x25\x00\x07\xE8\x01\x0F\x0C\x00\x00\
\x00\x00\x0F\x00\x00\x02\xC0\xC1\x01\xC1\x0B\xC1\x0C\x0C\x65\
\x00\x00\x13\x00\x14\x03\x00\x03\xF4\x00\x20\x1E\x03\x00\x00\x06\xAB\x30\x50\
7777";

/// The first message without a subset.
const NO_SUBSETS: &[u8] = b"BUFR\x00\x00\x35\x04\
\x00\x00\x16\x00\x00\x62\x00\x00\x00\x00\x00\x02\x00\x25\x00\x07\xE8\x01\x0F\x0C\x00\x00\
\x00\x00\x0F\x00\x00\x00\x80\xC1\x01\xC1\x0B\xC1\x0C\x0C\x65\
\x00\x00\x04\x00\
7777";

/// No temperature by a delayed count, and so no station.
const COUNT_0: &[u8] = b"BUFR\x00\x00\x34\x04\
\x00\x00\x16\x00\x00\x62\x00\x00\x00\x00\x00\x02\x00\x25\x00\x07\xE8\x01\x0F\x0C\x00\x00\
\x00\x00\x0D\x00\x00\x01\x80\x41\x00\x1F\x01\x0C\x65\
\x00\x00\x05\x00\x00\
7777";

/// One temperature by a delayed count.
const COUNT_1: &[u8] = b"BUFR\x00\x00\x36\x04\
\x00\x00\x16\x00\x00\x62\x00\x00\x00\x00\x00\x02\x00\x25\x00\x07\xE8\x01\x0F\x0C\x00\x00\
\x00\x00\x0D\x00\x00\x01\x80\x41\x00\x1F\x01\x0C\x65\
\x00\x00\x07\x00\x01\x6A\xB3\
7777";

/// Both counts as two plain subsets.
const COUNTS: &[u8] = b"BUFR\x00\x00\x37\x04\
\x00\x00\x16\x00\x00\x62\x00\x00\x00\x00\x00\x02\x00\x25\x00\x07\xE8\x01\x0F\x0C\x00\x00\
\x00\x00\x0D\x00\x00\x02\x80\x41\x00\x1F\x01\x0C\x65\
\x00\x00\x08\x00\x00\x01\x6A\xB3\
7777";

/// No temperature twice, as two plain subsets.
const COUNT_0_TWICE: &[u8] = b"BUFR\x00\x00\x35\x04\
\x00\x00\x16\x00\x00\x62\x00\x00\x00\x00\x00\x02\x00\x25\x00\x07\xE8\x01\x0F\x0C\x00\x00\
\x00\x00\x0D\x00\x00\x02\x80\x41\x00\x1F\x01\x0C\x65\
\x00\x00\x06\x00\x00\x00\
7777";

/// The first message with a one among the bits that fill its last octet of data.
const FILL_BIT: &[u8] = b"BUFR\x00\x00\x3E\x04\
\x00\x00\x16\x00\x00\x62\x00\x00\x00\x00\x00\x02\x00\x25\x00\x07\xE8\x01\x0F\x0C\x00\x00\
\x00\x00\x0F\x00\x00\x01\x80\xC1\x01\xC1\x0B\xC1\x0C\x0C\x65\
\x00\x00\x0D\x00\x14\xC0\x3F\x40\x9E\xC0\x1A\xAC\xC1\
7777";

/// The first message with sub-centre 1.
const SUB_CENTRE_1: &[u8] = b"BUFR\x00\x00\x3E\x04\
\x00\x00\x16\x00\x00\x62\x00\x01\x00\x00\x00\x02\x00\x25\x00\x07\xE8\x01\x0F\x0C\x00\x00\
\x00\x00\x0F\x00\x00\x01\x80\xC1\x01\xC1\x0B\xC1\x0C\x0C\x65\
\x00\x00\x0D\x00\x14\xC0\x3F\x40\x9E\xC0\x1A\xAC\xC0\
7777";

/// The first message with station 385.
const NEXT_STATION: &[u8] = b"BUFR\x00\x00\x3E\x04\
\x00\x00\x16\x00\x00\x62\x00\x00\x00\x00\x00\x02\x00\x25\x00\x07\xE8\x01\x0F\x0C\x00\x00\
\x00\x00\x0F\x00\x00\x01\x80\xC1\x01\xC1\x0B\xC1\x0C\x0C\x65\
\x00\x00\x0D\x00\x14\xC0\xBF\x40\x9E\xC0\x1A\xAC\xC0\
7777";

/// A message of edition 3 of the first station, time and temperature.
const EDITION_3: &[u8] = b"BUFR\x00\x00\x3C\x03\
\x00\x00\x12\x00\x00\x62\x00\x00\x00\x02\x0D\x00\x18\x01\x0F\x0C\x00\x00\
\x00\x00\x10\x00\x00\x01\x80\xC1\x01\xC1\x0B\xC1\x0C\x0C\x65\x00\
\x00\x00\x0E\x00\x14\xC0\x3F\x40\x9E\xC0\x1A\xAC\xC0\x00\
7777";

/// The canonical message of its report.
const EDITION_3_CANONICAL: &[u8] = b"BUFR\x00\x00\x3E\x04\
\x00\x00\x16\x00\x00\x62\x00\x00\x00\x00\x00\xFF\x02\x0D\x00\x07\xE8\x01\x0F\x0C\x00\x00\
\x00\x00\x0F\x00\x00\x01\x80\xC1\x01\xC1\x0B\xC1\x0C\x0C\x65\
\x00\x00\x0D\x00\x14\xC0\x3F\x40\x9E\xC0\x1A\xAC\xC0\
7777";

/// Canonical messages in order: what an archive holds.
type Messages = &'static [&'static [u8]];

fn joined(rt: &impl Abort, alloc: Global, parts: &[&[u8]]) -> Vec<u8> {
    let mut octets = Vec::new(alloc);
    for part in parts {
        octets.extend_from_slice(part).expect(rt, "room");
    }
    octets
}

fn assert_holds<S: Shelf>(rt: &impl Abort, alloc: Global, archive: &Archive<S>, held: &[&[u8]]) {
    same(rt, archive.len(), held.len());
    let text = joined(rt, alloc, held);
    let mut sink = IntoWrite::new(Vec::new(alloc));
    archive.write(&mut sink).expect(rt, "room");
    same(rt, sink.into_inner().as_slice(), text.as_slice());
}

/// A message, its reports, and those that change the archive.
type Add = (&'static [u8], u128, u128);

/// Messages added one by one to an empty archive, and what it then holds.
const ADDED: &[(&[Add], Messages)] = &[
    // the greater update number stays, whichever comes first
    (
        &[(&ROW_1, 1, 1), (&UPDATED, 1, 1), (&ROW_1, 1, 0)],
        &[&UPDATED],
    ),
    (&[(&UPDATED, 1, 1), (&ROW_1, 1, 0)], &[&UPDATED]),
    // of equal update numbers the greater octets
    (&[(&ROW_1, 1, 1), (WARMER, 1, 1)], &[WARMER]),
    (&[(WARMER, 1, 1), (&ROW_1, 1, 0)], &[WARMER]),
    // without a key: each different message once, in order of octets
    (
        &[
            (COUNT_1, 1, 1),
            (&MONTH_13, 1, 1),
            (COUNT_1, 1, 0),
            (&MONTH_13, 1, 0),
            (COUNT_1, 1, 0),
            (&MONTH_13, 1, 0),
        ],
        &[COUNT_1, &MONTH_13],
    ),
    (
        &[(COUNTS, 2, 2), (COUNT_0, 1, 0), (COUNTS, 2, 0)],
        &[COUNT_0, COUNT_1],
    ),
    (&[(COUNT_1, 1, 1), (COUNTS, 2, 1)], &[COUNT_0, COUNT_1]),
    // one report twice in a message
    (&[(COUNT_0_TWICE, 2, 1), (COUNT_0_TWICE, 2, 0)], &[COUNT_0]),
    // two reports of one key, of which the second has greater octets
    (
        &[(COMPRESSED_PAIR, 2, 2), (&ROW_1, 1, 0)],
        &[MISSING_TEMPERATURE],
    ),
    (
        &[(MISSING_TEMPERATURE, 1, 1), (COMPRESSED_PAIR, 2, 0)],
        &[MISSING_TEMPERATURE],
    ),
    (&[(NO_SUBSETS, 0, 0)], &[]),
    // the bits that fill an octet are no part of a report
    (&[(FILL_BIT, 1, 1), (&ROW_1, 1, 0)], &[&ROW_1]),
    // a sub-centre has reports of its own
    (
        &[(&ROW_1, 1, 1), (SUB_CENTRE_1, 1, 1)],
        &[&ROW_1, SUB_CENTRE_1],
    ),
    (
        &[(SUB_CENTRE_1, 1, 1), (&ROW_1, 1, 1)],
        &[&ROW_1, SUB_CENTRE_1],
    ),
    // another sub-category has another key
    (
        &[(EDITION_3, 1, 1), (&ROW_1, 1, 1)],
        &[&ROW_1, EDITION_3_CANONICAL],
    ),
];

/// Adds a message, and one that is refused, which changes nothing.
fn add<S: Shelf>(rt: &impl Abort, archive: &mut Archive<S>, row: &Add) {
    let (octets, reports, changed) = row;
    let wanted = Added {
        reports: *reports,
        changed: *changed,
    };
    same(rt, archive.add_message(octets), Ok(wanted));
    let refused = Err(AddFault::Refused(Refused::Edition(5)));
    same(rt, archive.add_message(&EDITION_5), refused);
}

fn add_on<S: Shelf>(rt: &impl Abort, alloc: Global, tables: &Tables) {
    for (rows, held) in ADDED {
        let mut archive: Archive<S> = Archive::new(alloc, tables);
        for row in *rows {
            add(rt, &mut archive, row);
        }
        assert_holds(rt, alloc, &archive, *held);
        drop(archive);
    }
}

#[test]
fn messages_added(rt: HostRuntime) {
    let tables = tables(&rt, rt.alloc());
    add_on::<MapShelf>(&rt, rt.alloc(), &tables);
    add_on::<SortedShelf>(&rt, rt.alloc(), &tables);
    drop(tables);
}

fn archive_of<'t, S: Shelf>(
    rt: &impl Abort,
    alloc: Global,
    tables: &'t Tables,
    text: &[u8],
) -> Archive<'t, S>
    ensures { result.tables ≡ tables.now }
{
    Archive::read(alloc, tables, text).expect(rt, "an archive")
}

/// What an archive takes in: the archive of a text, or a copy of itself.
enum Taken {
    Text(&'static [u8]),
    Itself,
}

use Taken::{Itself, Text};

/// What an archive takes in, and what it then holds.
type Step = (Taken, Messages);

/// A message, and what its archive takes in, one by one.
const MERGED: &[(&'static [u8], &'static [Step])] = &[
    (
        &ROW_1,
        &[
            (Text(&UPDATED), &[&UPDATED]),
            (Text(&MONTH_13), &[&UPDATED, &MONTH_13]),
            (Text(&UPDATED), &[&UPDATED, &MONTH_13]),
        ],
    ),
    (
        &ROW_1,
        &[
            (Text(&MONTH_13), &[&ROW_1, &MONTH_13]),
            (Text(&UPDATED), &[&UPDATED, &MONTH_13]),
            (Text(&ROW_1), &[&UPDATED, &MONTH_13]),
        ],
    ),
    (
        &ROW_1,
        &[
            (Itself, &[&ROW_1]),
            (Text(&UPDATED), &[&UPDATED]),
            (Text(&MONTH_13), &[&UPDATED, &MONTH_13]),
        ],
    ),
    (
        &ROW_1,
        &[
            (Text(WARMER), &[WARMER]),
            (Text(&ROW_1), &[WARMER]),
            (Itself, &[WARMER]),
        ],
    ),
    (
        &MONTH_13,
        &[
            (Text(b""), &[&MONTH_13]),
            (Text(COUNT_1), &[COUNT_1, &MONTH_13]),
            (Itself, &[COUNT_1, &MONTH_13]),
        ],
    ),
];

fn take_in<'t, S: Shelf>(
    rt: &impl Abort,
    alloc: Global,
    tables: &'t Tables,
    mut archive: Archive<'t, S>,
    taken: &Taken,
) -> Archive<'t, S>
    requires { archive.tables ≡ tables.now }
    ensures { result.tables ≡ tables.now }
{
    let other = match taken {
        Text(text) => archive_of(rt, alloc, tables, *text),
        Itself => archive.copy().expect(rt, "room"),
    };
    if let Itself = taken {
        same(rt, other.len(), archive.len());
    }
    archive.merge(&other).expect(rt, "room");
    drop(other);
    archive
}

fn merge_all<S: Shelf>(
    rt: &impl Abort,
    alloc: Global,
    tables: &Tables,
    message: &[u8],
    steps: &[Step],
) {
    let [(first, held), (second, held_then), (third, held_last)] = steps else {
        panic!(rt; "three steps");
    };
    let archive: Archive<S> = archive_of(rt, alloc, tables, message);
    let archive = take_in(rt, alloc, tables, archive, first);
    assert_holds(rt, alloc, &archive, *held);
    let archive = take_in(rt, alloc, tables, archive, second);
    assert_holds(rt, alloc, &archive, *held_then);
    let archive = take_in(rt, alloc, tables, archive, third);
    assert_holds(rt, alloc, &archive, *held_last);
    drop(archive);
}

fn merge_on<S: Shelf>(rt: &impl Abort, alloc: Global, tables: &Tables) {
    for (message, steps) in MERGED {
        merge_all::<S>(rt, alloc, tables, *message, *steps);
    }
}

#[test]
fn archives_taken_in(rt: HostRuntime) {
    let tables = tables(&rt, rt.alloc());
    merge_on::<MapShelf>(&rt, rt.alloc(), &tables);
    merge_on::<SortedShelf>(&rt, rt.alloc(), &tables);
    drop(tables);
}

/// Messages, and the place from which they are no archive, if they are none.
const READ: &[(Messages, Option<u64>)] = &[
    (&[], None),
    (&[&UPDATED, &MONTH_13], None),
    (&[SUB_CENTRE_1, NEXT_STATION], None),
    (&[COUNT_0, COUNT_1, &MONTH_13], None),
    (&[&ROW_1, EDITION_3_CANONICAL], None),
    // another order, or one slot twice
    (&[&MONTH_13, &UPDATED], Some(62)),
    (&[&ROW_1, &UPDATED], Some(62)),
    (&[COUNT_0, COUNT_1, COUNT_1], Some(106)),
    // no canonical message: of edition 3, compressed, of two subsets or of none, or with a bit after
    // its data
    (&[EDITION_3], Some(0)),
    (&[&ROW_1, EDITION_3], Some(62)),
    (&[COMPRESSED_PAIR], Some(0)),
    (&[COUNT_0, COUNTS], Some(52)),
    (&[&ROW_1, NO_SUBSETS], Some(62)),
    (&[FILL_BIT], Some(0)),
    (&[&ROW_1, b"BUFR"], Some(62)),
];

fn read_on<S: Shelf>(rt: &impl Abort, alloc: Global, tables: &Tables) {
    for (messages, place) in READ {
        let text = joined(rt, alloc, *messages);
        let read: Result<Archive<S>, Failure<NotAnArchive>> = Archive::read(alloc, tables, &text);
        match read {
            Ok(archive) => {
                same(rt, *place, None);
                assert_holds(rt, alloc, &archive, *messages);
                drop(archive);
            }
            Err(Failure::Fault(why)) => same(rt, Some(why.place), *place),
            Err(Failure::OutOfMemory) => panic!(rt; "room"),
        }
    }
}

#[test]
fn archives_read(rt: HostRuntime) {
    let tables = tables(&rt, rt.alloc());
    read_on::<MapShelf>(&rt, rt.alloc(), &tables);
    read_on::<SortedShelf>(&rt, rt.alloc(), &tables);
    drop(tables);
}
