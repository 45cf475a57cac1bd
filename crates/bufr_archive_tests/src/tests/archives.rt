//! Archives on failing devices and as texts, and the key and entry of a report.
ghost use Rattle.std.specs.Prelude.{◌≡◌};

use super::{MONTH_13, ROW_1, UPDATED, same, tables};
use bufr_archive::{
    Archive, ArchiveText, Key, MapShelf, Moment, Shelf, SortedShelf, Station, WriteFault, entry_of,
    key_of,
};
use bufr_bits::device::IntoWrite;
use bufr_message::{decode, reports};
use bufr_tables::Tables;
use std::alloc::Global;
use std::io;
use std::io::{ErrorKind, Write};
use std::process::Abort;

/// A writer that takes `left` octets, one a write, and then fails.
struct Breaks {
    left: usize,
    taken: Vec<u8>,
}

impl Write for Breaks {
    fn write(&mut self, piece: &[u8]) -> io::Result<usize> {
        let [first, ..] = piece else {
            return Ok(0);
        };
        if self.left == 0 || self.taken.push(*first).is_err() {
            return Err(io::Error::from(ErrorKind::Other));
        }
        self.left -= 1;
        Ok(1)
    }

    fn flush(&mut self) -> io::Result<()> {
        Ok(())
    }
}

/// An archive writes the beginning of its text to a writer with room for `left` octets.
fn write_some<S: Shelf>(
    rt: &impl Abort,
    alloc: Global,
    archive: &Archive<S>,
    text: &[u8],
    left: usize,
) {
    let mut sink = IntoWrite::new(Breaks {
        left,
        taken: Vec::new(alloc),
    });
    let wanted = if left < text.len() {
        Err(WriteFault {
            written: left as u128,
        })
    } else {
        Ok(())
    };
    same(rt, archive.write(&mut sink), wanted);
    let Breaks { left: _, taken } = sink.into_inner();
    same(rt, taken.as_slice(), text.get(..left).unwrap_or(text));
}

fn write_each_front<S: Shelf>(rt: &impl Abort, alloc: Global, tables: &Tables, text: &[u8]) {
    let archive: Archive<S> = Archive::read(alloc, tables, text).expect(rt, "an archive");
    same(rt, archive.len(), 2);
    for left in 0..127usize {
        write_some(rt, alloc, &archive, text, left);
    }
    drop(archive);
}

/// Two reports, one without a key.
#[test]
fn failing_writer(rt: HostRuntime) {
    let tables = tables(&rt, rt.alloc());
    let mut text = Vec::from_slice(rt.alloc(), &UPDATED).expect(&rt, "room");
    text.extend_from_slice(&MONTH_13).expect(&rt, "room");
    same(&rt, text.len(), 124);
    write_each_front::<MapShelf>(&rt, rt.alloc(), &tables, &text);
    write_each_front::<SortedShelf>(&rt, rt.alloc(), &tables, &text);
    drop(tables);
}

fn held<'t>(rt: &impl Abort, alloc: Global, tables: &'t Tables, text: &[u8]) -> ArchiveText<'t>
    ensures { result.tables ≡ tables.now }
{
    let octets = Vec::from_slice(alloc, text).expect(rt, "room");
    ArchiveText::read(alloc, tables, octets).expect(rt, "a text")
}

#[test]
fn texts_merged(rt: HostRuntime) {
    let tables = tables(&rt, rt.alloc());
    let mut text = held(&rt, rt.alloc(), &tables, &ROW_1);
    let other = held(&rt, rt.alloc(), &tables, &UPDATED);
    text.merge(rt.alloc(), other).expect(&rt, "room");
    same(&rt, text.len(), 1);
    same(&rt, text.into_octets().as_slice(), UPDATED.as_slice());
    drop(tables);
}

/// The key of the first message, at a station of block 10.
pub(super) fn first_key(number: i128) -> Key {
    Key {
        centre: 98,
        category: 0,
        international: 2,
        local_category: 0,
        station: Station::wmo(10, number),
        moment: Moment {
            year: 2024,
            month: 1,
            day: 15,
            hour: 12,
            minute: 0,
            second: 0,
        },
        sub_centre: 0,
    }
}

/// The beginning of a message of the first station and time, with second 0 and 255 times 150
/// temperatures: 76,566 octets.
const FIELDS_FRONT: &[u8] = b"BUFR\x01\x2B\x16\x04\
\x00\x00\x16\x00\x00\x62\x00\x00\x00\x00\x00\x02\x00\x25\x00\x07\xE8\x01\x0F\x0C\x00\x00\
\x00\x00\x15\x00\x00\x01\x80\xC1\x01\xC1\x0B\xC1\x0C\x04\x06\x42\x96\x41\xFF\x0C\x65\
\x01\x2A\xDF\x00\x14\xC0\x3F\x40\x9E\xC0\x00";

/// The octets of that message; its temperatures are the numbers from 0 on.
fn octets_of_fields(rt: &impl Abort, alloc: Global) -> Vec<u8> {
    let mut all = Vec::from_slice(alloc, FIELDS_FRONT).expect(rt, "room");
    for number in 0..38_250u16 {
        let two = number.to_be_bytes();
        all.extend_from_slice(two.as_slice()).expect(rt, "room");
    }
    all.extend_from_slice(b"7777").expect(rt, "room");
    all
}

fn assert_entry(rt: &impl Abort, alloc: Global, tables: &Tables, message: &[u8], update: u8) {
    let decoded = decode(alloc, tables, message).expect(rt, "a message");
    let found = reports(alloc, decoded.message).expect(rt, "room");
    let report = found.as_slice().get(0).expect(rt, "a report");
    same(
        rt,
        key_of(alloc, report).expect(rt, "room"),
        Some(first_key(384)),
    );
    let made = entry_of(alloc, tables, report).expect(rt, "room");
    let entry = made.expect(rt, "an entry");
    same(rt, entry.key, Some(first_key(384)));
    same(rt, entry.update, update);
    same(rt, entry.bytes.as_slice(), message);
    drop(found);
}

/// The second message has more than 65,536 octets.
#[test]
fn entries(rt: HostRuntime) {
    let tables = tables(&rt, rt.alloc());
    assert_entry(&rt, rt.alloc(), &tables, &UPDATED, 1);
    let all = octets_of_fields(&rt, rt.alloc());
    same(&rt, all.len(), 76_566);
    assert_entry(&rt, rt.alloc(), &tables, &all, 0);
    drop(tables);
}
