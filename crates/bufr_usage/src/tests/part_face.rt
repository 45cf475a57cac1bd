//! The parts of messages, each by its path, and the texts of descriptors and decimals.

use super::{STATION, tables};
use bufr_tables::{Fxy, Kind};
use std::alloc::Global;
use std::fmt::Display;
use std::process::Abort;

fn station_head(alloc: Global) -> bufr_message::Head {
    bufr_message::Head {
        centre: 98,
        sub_centre: 7,
        update: 1,
        category: 2,
        international: 3,
        local_category: 41,
        master_version: 37,
        local_version: 5,
        year: 2024,
        month: 4,
        day: 15,
        hour: 12,
        minute: 30,
        second: 45,
        local: bufr_message::Items::from_vec(Vec::new(alloc)),
    }
}

/// Reads `STATION`.
fn station_message(rt: &impl Abort, alloc: Global) -> bufr_message::Message {
    let tables = tables(rt, alloc);
    let decoded = bufr_message::decode(alloc, &tables, STATION);
    drop(tables);
    decoded.expect(rt, "a message").message
}

#[test]
fn messages(rt: HostRuntime) {
    let bufr_message::Message {
        head,
        section2,
        observed,
        compressed,
        descriptors,
        subsets,
    } = station_message(&rt, rt.alloc());
    let wanted = station_head(rt.alloc());
    assert!(rt; head == wanted && section2.is_none());
    drop(wanted);
    drop(section2);
    assert!(rt; observed && !compressed);
    assert!(rt; descriptors.len() == 8 && subsets.len() == 1);
    drop(subsets);
    drop(descriptors);
    drop(head);
}

fn is_text(kind: Kind) -> bool {
    match kind {
        Kind::Text => true,
        Kind::Code => false,
        Kind::Flag => false,
        Kind::Quantity => false,
        Kind::Count => false,
    }
}

/// Returns the octets of a field's text, if it has one.
fn text_of(raw: &bufr_data::Raw) -> Option<&[u8]> {
    match raw {
        bufr_data::Raw::Number(_) => None,
        bufr_data::Raw::Text(text) => Some(text.as_slice()),
    }
}

#[test]
fn texts_of_fields(rt: HostRuntime) {
    let octets = Vec::from_slice(rt.alloc(), b"AB").expect(&rt, "room");
    let raw = bufr_data::Raw::Text(bufr_message::Items::from_vec(octets));
    assert!(rt; text_of(&raw) == Some(b"AB".as_slice()));
    assert!(rt; is_text(Kind::Text) && !is_text(Kind::Count));
}

fn assert_prints<T: Display + Drop>(rt: &impl Abort, alloc: Global, value: T, text: &str) {
    let printed = format!(in alloc; "{value}").expect(rt, "room");
    assert!(rt; printed.as_str() == text);
}

#[test]
fn printed(rt: HostRuntime) {
    let alloc = rt.alloc();
    let fxy = Fxy::from_text(b"012101").expect(&rt, "a descriptor");
    assert_prints(&rt, alloc, fxy, "012101");
    let decimal = bufr_data::Decimal::new(27315, 2).expect(&rt, "a decimal");
    assert_prints(&rt, alloc, decimal, "273.15");
}
