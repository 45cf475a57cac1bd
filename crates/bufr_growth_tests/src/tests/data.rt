use crate::tests::refusals::repeated;
use crate::tests::same;
use crate::tests::samples::tables;
use bufr_base::{Failure, Items};
use bufr_bits::{BitReader, BitSink};
use bufr_data::{
    Columns, MisfitFault, Raw, Subset, read_compressed, read_plain, write_compressed, write_plain,
};
use bufr_expand::Template;
use bufr_tables::Fxy;
use std::alloc::Global;
use std::process::Abort;

/// A delayed replication of a temperature, and two characters: 101000 031001 012101 205002.
const DESCRIPTORS: [u16; 4] = [0x4100, 0x1F01, 0x0C65, 0x8502];

/// One subset: one temperature, 273.15 K, and `AB`.
const PLAIN: &[u8] = b"\x01\x6A\xB3AB";

/// Two subsets: 273.15 K and `AB`, 273.16 K and `CD`.
const PACKED: &[u8] = b"\x01\x01\xAA\xCC\x21\x00\x00\x09\x05\x09\x0D\x10";

fn template(rt: &impl Abort, alloc: Global) -> Template {
    let tables = tables(rt, alloc);
    let list = DESCRIPTORS.map(Fxy::from_bits);
    let built = repeated!(rt, Template::build(alloc, &tables, &list));
    drop(tables);
    built
}

/// Whether a subset has a count of 1, this temperature and this text.
fn has_values(subset: &Subset, temperature: u64, text: &[u8]) -> bool {
    let [count, number, characters] = subset.fields.as_slice() else {
        return false;
    };
    match (&count.raw, &number.raw, &characters.raw) {
        (Raw::Number(1), Raw::Number(raw), Raw::Text(octets)) => {
            *raw == temperature && octets.as_slice() == text
        }
        _ => false,
    }
}

/// Reads a plain subset; a refusal leaves the reader where it was.
fn read_one(rt: &impl Abort, alloc: Global, template: &Template) {
    let mut reader = BitReader::new(PLAIN);
    let (subset, items) = repeated!(
        rt,
        read_plain(alloc, template, &mut reader, 5),
        same(rt, reader.place(), 0)
    );
    assert!(rt; has_values(&subset, 27315, b"AB"));
    same(rt, (items, reader.place()), (9, 40));
    drop(subset);
}

/// Reads the two subsets; a refusal leaves the reader where it was.
fn read_both(rt: &impl Abort, alloc: Global, template: &Template) -> Items<Subset> {
    let mut reader = BitReader::new(PACKED);
    let subsets = repeated!(
        rt,
        read_compressed(alloc, template, &mut reader, 2),
        same(rt, reader.place(), 0)
    );
    same(rt, reader.place(), 94);
    subsets
}

fn assert_both(rt: &impl Abort, subsets: &[Subset]) {
    match subsets {
        [first, second] => {
            assert!(rt; has_values(first, 27315, b"AB"));
            assert!(rt; has_values(second, 27316, b"CD"));
        }
        _ => panic!(rt; "two subsets"),
    }
}

fn assert_taken_out(
    rt: &impl Abort,
    alloc: Global,
    columns: &Columns,
    number: u16,
    temperature: u64,
    text: &[u8],
) {
    same(rt, columns.count(), 2);
    assert!(rt; 1 <= number && number <= columns.count());
    let subset = repeated!(rt, columns.subset(alloc, number));
    assert!(rt; has_values(&subset, temperature, text));
    drop(subset);
}

/// Indexes the columns; a refusal leaves the reader where it was. Takes the second subset first.
fn index_both(rt: &impl Abort, alloc: Global, template: &Template) {
    let mut reader = BitReader::new(PACKED);
    let columns = repeated!(
        rt,
        Columns::index(alloc, template, &mut reader, 2),
        same(rt, reader.place(), 0)
    );
    same(rt, reader.place(), 94);
    assert_taken_out(rt, alloc, &columns, 2, 27316, b"CD");
    assert_taken_out(rt, alloc, &columns, 1, 27315, b"AB");
    drop(columns);
}

fn read_all(rt: &impl Abort, alloc: Global) {
    let template = template(rt, alloc);
    read_one(rt, alloc, &template);
    let both = read_both(rt, alloc, &template);
    assert_both(rt, both.as_slice());
    drop(both);
    index_both(rt, alloc, &template);
    drop(template);
}

#[test]
fn subsets_read(rt: HostRuntime) {
    read_all(&rt, rt.alloc());
}

fn begun(rt: &impl Abort, alloc: Global) -> BitSink {
    let mut sink = BitSink::new(alloc);
    repeated!(rt, sink.put(8, 0xEE));
    sink
}

/// The octets of a sink, filled with zero bits.
fn octets_of(mut sink: BitSink) -> Vec<u8> {
    sink.fill_octet();
    sink.into_bytes()
}

fn write(
    alloc: Global,
    packed: bool,
    template: &Template,
    subsets: &[Subset],
    sink: &mut BitSink,
) -> Result<(), Failure<MisfitFault>> {
    if packed {
        write_compressed(alloc, template, subsets, sink)
    } else {
        write_plain(alloc, template, subsets, sink)
    }
}

/// Writes subsets after an octet; a refusal leaves that octet alone.
fn assert_written(
    rt: &impl Abort,
    alloc: Global,
    packed: bool,
    template: &Template,
    subsets: &[Subset],
    wanted: &[u8],
) {
    let mut sink = begun(rt, alloc);
    repeated!(
        rt,
        write(alloc, packed, template, subsets, &mut sink),
        same(rt, sink.len_bits(), 8)
    );
    same(rt, octets_of(sink).as_slice(), wanted);
}

fn write_all(rt: &impl Abort, alloc: Global) {
    let template = template(rt, alloc);
    let subsets = read_both(rt, alloc, &template);
    let plain = b"\xEE\x01\x6A\xB3AB\x01\x6A\xB4CD";
    assert_written(rt, alloc, false, &template, subsets.as_slice(), plain);
    let packed = b"\xEE\x01\x01\xAA\xCC\x21\x00\x00\x09\x05\x09\x0D\x10";
    assert_written(rt, alloc, true, &template, subsets.as_slice(), packed);
    drop(subsets);
    drop(template);
}

#[test]
fn subsets_written(rt: HostRuntime) {
    write_all(&rt, rt.alloc());
}
