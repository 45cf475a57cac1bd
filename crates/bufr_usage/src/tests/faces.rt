//! The public calls of the faces below bufr_archive, each by its path and with its parameters.
ghost use Rattle.std.specs.Prelude.{◌≡◌, true};
ghost use Rattle.bufr_expand.specs.Walks.{IsBelowCount, left, waits};

use super::{BARE, TABLE_B, tables};
use bufr_tables::{Element, Fxy, Kind, Tables};
use std::alloc::Global;
use std::process::Abort;

/// The listing of `BARE`.
pub(super) const BARE_LISTED: &[u8] = b"message\n\
section1 98 0 0 0 2 0 37 0\n\
time 2024 1 15 12 0 0\n\
flags observed\n\
descriptors 012101\n\
subset\n\
012101 273.15\n\
end\n";

fn temperature(rt: &impl Abort) -> Fxy {
    Fxy::new(0, 12, 101).expect(rt, "a descriptor")
}

#[test]
fn descriptors(rt: HostRuntime) {
    let fxy = temperature(&rt);
    assert!(rt; fxy.f() == 0 && fxy.x() == 12 && fxy.y() == 101);
    assert!(rt; fxy.parts() == (0, 12, 101));
    assert!(rt; Fxy::from_text(b"012101") == Some(fxy));
}

const TABLE_D: &[u8] = b"FXY1,FXY2\n301250,012101\n";

fn parsed_tables(rt: &impl Abort, alloc: Global) -> Tables {
    let b: Result<bufr_tables::TableB, bufr_tables::Failure<bufr_tables::TableFault>> =
        bufr_tables::TableB::parse(alloc, TABLE_B);
    let d: Result<bufr_tables::TableD, bufr_tables::Failure<bufr_tables::TableFault>> =
        bufr_tables::TableD::parse(alloc, TABLE_D);
    Tables::new(b.expect(rt, "a table"), d.expect(rt, "a table"))
}

fn assert_looks_up(rt: &impl Abort, tables: &Tables) {
    let element: &Element = tables.element(temperature(rt)).expect(rt, "an element");
    assert!(rt; element.kind == Kind::Quantity);
    let sequence = Fxy::from_text(b"301250").expect(rt, "a descriptor");
    assert!(rt; tables.sequence(sequence) == Some(&[temperature(rt)]));
}

#[test]
fn tables_looked_up(rt: HostRuntime) {
    let wanted: Tables = parsed_tables(&rt, rt.alloc());
    assert_looks_up(&rt, &wanted);
    let others = tables(&rt, rt.alloc());
    assert!(rt; wanted.same(&wanted) && !wanted.same(&others));
    drop(others);
    drop(wanted);
}

fn template(rt: &impl Abort, alloc: Global) -> bufr_expand::Template {
    let tables = tables(rt, alloc);
    let built = bufr_expand::Template::build(alloc, &tables, &[temperature(rt)]);
    drop(tables);
    built.expect(rt, "a template")
}

/// Writes 0101, 01000001 and 01000010, cuts them to twelve bits and fills the last octet.
fn octets_of_bits(rt: &impl Abort, alloc: Global) -> Vec<u8> {
    let mut sink: bufr_bits::BitSink = bufr_bits::BitSink::new(alloc);
    sink.put(4, 5).expect(rt, "room");
    sink.put_bytes(b"AB").expect(rt, "room");
    assert!(rt; sink.len_bits() == 20);
    sink.cut(12);
    sink.fill_octet();
    sink.into_bytes()
}

fn assert_reads_bits(rt: &impl Abort, octets: &[u8]) {
    let mut reader: bufr_bits::BitReader = bufr_bits::BitReader::new(octets);
    assert!(rt; reader.take(4) == Some(5));
    assert!(rt; reader.place() == 4 && reader.left() == 12);
}

fn assert_reads_octets(rt: &impl Abort, alloc: Global, octets: &[u8]) {
    assert!(rt; octets.len() == 2);
    let mut reader = bufr_bits::BitReader::at(octets, 4);
    let taken = reader.take_bytes(alloc, 1).expect(rt, "room");
    assert!(rt; taken.expect(rt, "an octet").as_slice() == b"A".as_slice());
}

#[test]
fn bits(rt: HostRuntime) {
    let octets = octets_of_bits(&rt, rt.alloc());
    assert!(rt; octets.as_slice() == [0x54, 0x10].as_slice());
    assert_reads_bits(&rt, octets.as_slice());
    assert_reads_octets(&rt, rt.alloc(), octets.as_slice());
}

#[test]
fn devices(rt: HostRuntime) {
    let mut source: bufr_bits::FromRead<&[u8]> = bufr_bits::FromRead::new(b"AB".as_slice());
    let mut buffer = [0u8; 4];
    let read: Result<usize, bufr_bits::Failed> = bufr_bits::Source::read(&mut source, &mut buffer);
    assert!(rt; read == Ok(2));
    let octets = Vec::new(rt.alloc());
    let mut sink: bufr_bits::IntoWrite<Vec<u8>> = bufr_bits::IntoWrite::new(octets);
    let written: Result<usize, bufr_bits::Failed> = bufr_bits::Sink::write(&mut sink, b"AB");
    let _count = written.expect(&rt, "a sink that works");
    bufr_bits::Sink::flush(&mut sink).expect(&rt, "a sink that works");
    assert!(rt; sink.into_inner().as_slice() == b"AB".as_slice());
}

fn is_field(step: Result<bufr_expand::Step, bufr_expand::WalkFault>) -> bool {
    match step {
        Ok(bufr_expand::Step::Field(_, _)) => true,
        Ok(bufr_expand::Step::Count(_, _)) => false,
        Ok(bufr_expand::Step::End) => false,
        Err(bufr_expand::WalkFault::TooLarge) => false,
        Err(bufr_expand::WalkFault::EffectiveRange(_)) => false,
    }
}

#[test]
fn walks(rt: HostRuntime) {
    let template = template(&rt, rt.alloc());
    assert!(rt; template.nodes() == 1);
    let mut walk: bufr_expand::Walk<'_> = bufr_expand::Walk::start(rt.alloc(), &template, 0).expect(
        &rt, "room",
    );
    assert!(rt; is_field(walk.next()));
    assert!(rt; walk.items() == 1);
    drop(walk);
    drop(template);
}

/// Gives a walk the number of its count; bufr_expand_tests takes the steps before and after it.
fn count(walk: &mut bufr_expand::Walk<'_>, number: u64)
    requires asked { waits walk.old ≡ true }
    requires fits { IsBelowCount (left walk.old) number }
{
    walk.count(number);
}

#[test]
fn operators(rt: HostRuntime) {
    let mut operators: bufr_expand::Operators = bufr_expand::Operators::none();
    let wider = Fxy::new(2, 1, 130).expect(&rt, "a descriptor");
    assert!(rt; wider.f() == 2 && wider.x() == 1);
    operators.apply(wider);
    let element = Element {
        kind: Kind::Quantity,
        scale: 2,
        reference: 0,
        width: 16,
    };
    let spec: Result<bufr_expand::Spec, bufr_expand::EffectiveRange> = operators.effective(
        &element,
        temperature(&rt),
    );
    assert!(rt;
        spec == Ok(bufr_expand::Spec {
            kind: Kind::Quantity,
            scale: 2,
            reference: 0,
            width: 18,
        },)
    );
}

#[test]
fn decimals(rt: HostRuntime) {
    let parsed = bufr_data::Decimal::parse(b"-0.01", 2);
    let decimal: bufr_data::Decimal = parsed.expect(&rt, "a decimal");
    assert!(rt; decimal.units == -1 && decimal.scale == 2);
}

fn plain_subset(
    rt: &impl Abort,
    alloc: Global,
    template: &bufr_expand::Template,
    octets: &[u8],
) -> bufr_data::Subset {
    let mut reader = bufr_bits::BitReader::new(octets);
    let (subset, items) = bufr_data::read_plain(alloc, template, &mut reader, 0).expect(
        rt, "a subset",
    );
    assert!(rt; items == 1);
    subset
}

#[test]
fn plain_data(rt: HostRuntime) {
    let alloc = rt.alloc();
    let template = template(&rt, alloc);
    let subset = plain_subset(&rt, alloc, &template, b"\x6A\xB3");
    let mut sink = bufr_bits::BitSink::new(alloc);
    let subsets = [subset];
    bufr_data::write_plain(alloc, &template, &subsets, &mut sink).expect(&rt, "room");
    drop(subsets);
    assert!(rt; sink.len_bits() == 16);
    drop(sink);
    drop(template);
}

fn assert_field(rt: &impl Abort, field: &bufr_data::Field) {
    assert!(rt; !field.is_missing());
    assert!(rt; field.value() == bufr_data::Decimal::new(27315, 2));
    assert!(rt; field.fxy == temperature(rt) && field.spec.width == 16);
    assert!(rt; matches!(&field.raw, bufr_data::Raw::Number(27315)));
}

#[test]
fn fields(rt: HostRuntime) {
    let template = template(&rt, rt.alloc());
    let bufr_data::Subset { fields } = plain_subset(&rt, rt.alloc(), &template, b"\x6A\xB3");
    drop(template);
    let field: &bufr_data::Field = fields.get(0).expect(&rt, "a field");
    assert_field(&rt, field);
    drop(fields);
}

/// One compressed subset: 273.15 K, with no increments.
const COMPRESSED: &[u8] = b"\x6A\xB3\x00";

/// Returns the subsets of `COMPRESSED`.
fn compressed_subsets(
    rt: &impl Abort,
    alloc: Global,
    template: &bufr_expand::Template,
) -> bufr_data::Items<bufr_data::Subset> {
    let mut reader = bufr_bits::BitReader::new(COMPRESSED);
    bufr_data::read_compressed(alloc, template, &mut reader, 1).expect(rt, "subsets")
}

/// Builds the subset of `COMPRESSED` from its columns.
fn subset_of_columns(
    rt: &impl Abort,
    alloc: Global,
    template: &bufr_expand::Template,
) -> bufr_data::Subset {
    let mut reader = bufr_bits::BitReader::new(COMPRESSED);
    let columns: bufr_data::Columns<'_> = bufr_data::Columns::index(
        alloc,
        template,
        &mut reader,
        1,
    ).expect(rt, "columns");
    assert!(rt; columns.count() == 1);
    let subset = columns.subset(alloc, 1);
    drop(columns);
    subset.expect(rt, "room")
}

fn compressed_bits(
    rt: &impl Abort,
    alloc: Global,
    template: &bufr_expand::Template,
    subsets: &[bufr_data::Subset],
) -> u128 {
    let mut sink = bufr_bits::BitSink::new(alloc);
    bufr_data::write_compressed(alloc, template, subsets, &mut sink).expect(rt, "room");
    sink.len_bits()
}

#[test]
fn compressed_data(rt: HostRuntime) {
    let alloc = rt.alloc();
    let template = template(&rt, alloc);
    let subsets = compressed_subsets(&rt, alloc, &template);
    assert!(rt; compressed_bits(&rt, alloc, &template, subsets.as_slice()) == 22);
    let subset = subset_of_columns(&rt, alloc, &template);
    drop(template);
    assert!(rt; Some(&subset) == subsets.get(0));
    drop(subset);
    drop(subsets);
}

fn assert_encodes(
    rt: &impl Abort,
    alloc: Global,
    tables: &Tables,
    message: &bufr_message::Message,
) {
    let octets = bufr_message::encode(alloc, tables, message).expect(rt, "octets");
    assert!(rt; octets.as_slice() == BARE);
}

fn assert_reports(rt: &impl Abort, alloc: Global, tables: &Tables, message: bufr_message::Message) {
    let reports: Vec<bufr_message::Report> = bufr_message::reports(alloc, message).expect(
        rt, "room",
    );
    let report = reports.first().expect(rt, "a report");
    let octets = bufr_message::canonical(alloc, tables, report).expect(rt, "octets");
    assert!(rt; octets.as_slice() == BARE);
    drop(reports);
}

#[test]
fn messages(rt: HostRuntime) {
    let alloc = rt.alloc();
    let tables = tables(&rt, alloc);
    let bufr_message::Decoded {
        message,
        slack_octets,
    } = bufr_message::decode(alloc, &tables, BARE).expect(&rt, "a message");
    assert!(rt; slack_octets == 0);
    assert_encodes(&rt, alloc, &tables, &message);
    assert_reports(&rt, alloc, &tables, message);
    drop(tables);
}

/// Returns the only report of a message.
pub(super) fn report_of(
    rt: &impl Abort,
    alloc: Global,
    tables: &Tables,
    message: &[u8],
) -> bufr_message::Report {
    let view: bufr_message::View<'_> = bufr_message::view(alloc, tables, message).expect(
        rt, "a view",
    );
    assert!(rt; view.count() == 1);
    let report = view.report(alloc, 1);
    drop(view);
    report.expect(rt, "room")
}

#[test]
fn views(rt: HostRuntime) {
    let alloc = rt.alloc();
    let tables = tables(&rt, alloc);
    let report = report_of(&rt, alloc, &tables, BARE);
    drop(tables);
    let bufr_message::Report {
        head,
        observed,
        descriptors,
        subset,
    } = report;
    let head: bufr_message::ReportHead = head;
    assert!(rt; observed && head.centre == 98 && head.update == 0);
    assert!(rt; descriptors.len() == 1 && subset.fields.len() == 1);
    drop(subset);
    drop(descriptors);
    drop(head);
}

fn listed(rt: &impl Abort, alloc: Global, message: &bufr_message::Message) -> Vec<u8> {
    let mut sink = bufr_bits::IntoWrite::new(Vec::new(alloc));
    let written: Result<(), bufr_message::listing::ListingWriteFault> =
        bufr_message::listing::write(alloc, message, &mut sink);
    written.expect(rt, "a listing");
    sink.into_inner()
}

fn assert_listed(rt: &impl Abort, alloc: Global, tables: &Tables) {
    let messages = bufr_message::listing::read(alloc, tables, BARE_LISTED).expect(rt, "messages");
    let message = messages.first().expect(rt, "a message");
    assert!(rt; listed(rt, alloc, message).as_slice() == BARE_LISTED);
    drop(messages);
}

#[test]
fn listings(rt: HostRuntime) {
    let tables = tables(&rt, rt.alloc());
    assert_listed(&rt, rt.alloc(), &tables);
    let refused = bufr_message::listing::read(rt.alloc(), &tables, b"end\n");
    drop(tables);
    let wanted = bufr_message::listing::ListingFault::BadLine(1);
    assert!(rt; refused == Err(bufr_message::Failure::Fault(wanted)));
    drop(refused);
}

/// Feeds a new framer `BARE`, and settles what it found.
fn settled(rt: &impl Abort, framer: &mut bufr_frame::Framer) -> Vec<bufr_frame::Found> {
    assert!(rt; framer.fed() == 0 && framer.pending() == 0);
    let look: bufr_frame::Look = framer.look(BARE).expect(rt, "room");
    assert!(rt; look.found().len() == 1);
    framer.settle(look)
}

#[test]
fn frames(rt: HostRuntime) {
    let mut framer: bufr_frame::Framer = bufr_frame::Framer::new(rt.alloc());
    let found: Vec<bufr_frame::Found> = settled(&rt, &mut framer);
    let frame = found.first().expect(&rt, "a frame");
    assert!(rt; frame.place == 0 && frame.bytes.as_slice() == BARE);
    drop(found);
    let end = framer.look_end().expect(&rt, "room");
    assert!(rt; end.found().is_empty());
    drop(end);
    drop(framer);
}

#[test]
fn frames_in_turn(rt: HostRuntime) {
    let mut framer = bufr_frame::Framer::new(rt.alloc());
    assert!(rt; framer.fed() == 0);
    let bufr_frame::Taken { found, rest } = framer.take_next(BARE).expect(&rt, "room");
    assert!(rt; found.is_some() && rest.is_empty());
    drop(found);
    let last = framer.finish().expect(&rt, "room");
    assert!(rt; last.is_empty());
    drop(last);
    assert!(rt; framer.fed() == 0);
    let again = framer.feed(BARE).expect(&rt, "room");
    assert!(rt; again.len() == 1);
    drop(again);
    drop(framer);
}
