//! Tests of bits as messages have them.

mod devices;
mod sizes;

use bufr_bits::{BitReader, BitSink};
use std::alloc::Global;
use std::fmt::Debug;
use std::process::Abort;

/// The data octets of 301001 301011 301012 012101: block 10, station 384, 2024-01-15 12:00, 273.15
/// K.
const SEQUENCES: [u8; 9] = [0x14, 0xC0, 0x3F, 0x40, 0x9E, 0xC0, 0x1A, 0xAC, 0xC0];

/// Stops the test if the two differ. Written out in each test, it would double the proof.
fn same<T: PartialEq + Debug + Drop>(rt: &impl Abort, found: T, wanted: T) {
    assert_eq!(rt; found, wanted);
}

fn expect_fields(rt: &impl Abort, reader: &mut BitReader<'_>, fields: &[(u32, u64)]) {
    for (width, number) in fields {
        assert!(rt; *width <= 64);
        let found = (*width, reader.take(*width));
        same(rt, found, (*width, Some(*number)));
    }
}

/// Puts the fields of `SEQUENCES` and compares the octets.
fn put_sequences(rt: &impl Abort, alloc: Global) {
    let mut sink = BitSink::new(alloc);
    sink.put(7, 10).expect(rt, "room");
    sink.put(10, 384).expect(rt, "room");
    sink.put(12, 2024).expect(rt, "room");
    sink.put(4, 1).expect(rt, "room");
    sink.put(6, 15).expect(rt, "room");
    sink.put(5, 12).expect(rt, "room");
    sink.put(6, 0).expect(rt, "room");
    sink.put(16, 27315).expect(rt, "room");
    same(rt, sink.len_bits(), 66);
    sink.fill_octet();
    same(rt, sink.len_bits(), 72);
    same(rt, sink.into_bytes().as_slice(), SEQUENCES.as_slice());
}

fn expect_text(
    rt: &impl Abort,
    alloc: Global,
    reader: &mut BitReader<'_>,
    length: u64,
    wanted: &[u8],
) {
    let text = reader
        .take_bytes(alloc, length)
        .expect(rt, "an answer")
        .expect(rt, "no text");
    same(rt, text.as_slice(), wanted);
}

#[test]
fn sequences(rt: HostRuntime) {
    let fields = [
        (7, 10),
        (10, 384),
        (12, 2024),
        (4, 1),
        (6, 15),
        (5, 12),
        (6, 0),
        (16, 27315),
    ];
    let mut reader = BitReader::new(&SEQUENCES);
    same(&rt, reader.left(), 72);
    expect_fields(&rt, &mut reader, &fields);
    same(&rt, reader.place(), 66);
    same(&rt, reader.left(), 6);
    same(&rt, reader.take(7), None);
    same(&rt, reader.place(), 66);
    same(&rt, reader.take(6), Some(0));
    same(&rt, reader.take(1), None);
    same(&rt, reader.take(0), Some(0));
    put_sequences(&rt, rt.alloc());
}

/// A compressed column of texts of three octets: `AB ` and missing, in increments of two octets.
const TEXTS: [u8; 8] = [0x00, 0x00, 0x00, 0x09, 0x05, 0x0B, 0xFF, 0xFC];

/// Puts the fields of `TEXTS` and compares the octets.
fn put_texts(rt: &impl Abort, alloc: Global) {
    let mut sink = BitSink::new(alloc);
    sink.put(24, 0).expect(rt, "room");
    sink.put(6, 2).expect(rt, "room");
    sink.put_bytes(b"AB").expect(rt, "room");
    sink.put_bytes(&[0xFF, 0xFF]).expect(rt, "room");
    same(rt, sink.len_bits(), 62);
    sink.fill_octet();
    same(rt, sink.into_bytes().as_slice(), TEXTS.as_slice());
}

#[test]
fn texts_inside_octets(rt: HostRuntime) {
    let alloc = rt.alloc();
    let mut texts = BitReader::new(&TEXTS);
    expect_fields(&rt, &mut texts, &[(24, 0), (6, 2)]);
    expect_text(&rt, alloc, &mut texts, 2, b"AB");
    expect_text(&rt, alloc, &mut texts, 2, &[0xFF, 0xFF]);
    same(&rt, texts.left(), 2);
    put_texts(&rt, alloc);
}

#[test]
fn widest_fields_at_every_place(rt: HostRuntime) {
    let number = 0xFEDC_BA98_7654_3210;
    for shift in 0..8u32 {
        let mut sink = BitSink::new(rt.alloc());
        sink.put(shift, 0).expect(&rt, "room");
        sink.put(64, number).expect(&rt, "room");
        sink.put(1, 1).expect(&rt, "room");
        sink.put(64, number).expect(&rt, "room");
        sink.fill_octet();
        let octets = sink.into_bytes();
        same(&rt, octets.len(), 17);
        let mut reader = BitReader::new(octets.as_slice());
        let fields = [(shift, 0), (64, number), (1, 1), (64, number)];
        expect_fields(&rt, &mut reader, &fields);
    }
}

/// The 13 bits from each bit of five octets on.
#[test]
fn short_numbers_at_every_place(rt: HostRuntime) {
    let octets = [0xFE, 0xDC, 0xBA, 0x98, 0x76];
    for place in 0..28u32 {
        let mut reader = BitReader::at(&octets, u128::from(place));
        assert!(&rt; reader.left() >= 13);
        let wanted = ((0xFE_DCBA_9876u64 >> (27 - place)) & 0x1FFF) as u16;
        same(&rt, reader.take_short(13, 0x1FFF), wanted);
        same(&rt, reader.place(), u128::from(place) + 13);
    }
}

fn cut(rt: &impl Abort, sink: &mut BitSink, bits: u128, left: u128) {
    let found = sink.len_bits();
    same(rt, found, bits);
    // `cut` requires that the sink has `left` bits.
    assert!(rt; left <= found);
    sink.cut(left);
}

/// Puts the first 17 bits of `SEQUENCES`, two fields and a text.
fn cut_once(rt: &impl Abort, alloc: Global) -> BitSink {
    let mut sink = BitSink::new(alloc);
    sink.put_bytes(&SEQUENCES).expect(rt, "room");
    cut(rt, &mut sink, 72, 17);
    same(rt, sink.len_bits(), 17);
    sink.put(12, 2024).expect(rt, "room");
    sink.put(4, 1).expect(rt, "room");
    sink.put_bytes(b"BUFR").expect(rt, "room");
    sink
}

#[test]
fn places_and_cuts(rt: HostRuntime) {
    let mut reader = BitReader::at(&SEQUENCES, 50);
    same(&rt, reader.left(), 22);
    same(&rt, reader.take(16), Some(27315));
    same(&rt, reader.pass(7), false);
    same(&rt, reader.pass(2), true);
    same(&rt, reader.place(), 68);

    let mut sink = cut_once(&rt, rt.alloc());
    cut(&rt, &mut sink, 65, 33);
    sink.fill_octet();
    let octets = [0x14, 0xC0, 0x3F, 0x40, 0x80];
    same(&rt, sink.into_bytes().as_slice(), octets.as_slice());
}
