//! Rows by the places of their fields, which a pair of tables finds for a list of descriptors.

use super::samples::{
    COMMA_IN_COLUMNS, COMPRESSED, FOUR_COLUMNS, LEVELS, LEVELS_IN_COLUMNS, LEVELS_NEXT,
    LEVELS_OF_TWO, LONG_FRONT, MISSING, NAMED, NAMED_IN_COLUMNS, NAMED_OF_THREE, OF_46,
    ONE_WORD_IN_COLUMNS, SEQUENCES, SIGNS_IN_COLUMNS, SOUNDING, TABLE_B, TEXTS, UNEQUAL,
    WORDS_IN_COLUMNS,
};
use super::{Run, assert_run, joined, tables_of};
use bufr_select_engine::VersionTables;
use bufr_tables::Tables;
use std::alloc::Global;
use std::process::Abort;

/// Columns, the descriptor of `-e` if there is one, the 16 bits of all these descriptors in rising order,
/// the messages of an input, and their rows.
type Row = (
    &'static str,
    &'static str,
    &'static [u16],
    &'static [&'static [u8]],
    &'static str,
);

const ROWS: &[Row] = &[
    (
        "message,subset,001001,012101#2,007004#3,011001",
        "",
        &[0x0101, 0x0704, 0x0B01, 0x0C65],
        &[LEVELS, LEVELS_NEXT, LEVELS_OF_TWO, LEVELS],
        "message,subset,001001,012101#2,007004#3,011001\n\
        1,1,10,268.00,70000,180\n2,1,11,300.00,50000,\n3,1,,273.17,30,0\n\
        3,2,12,655.34,60,270\n4,1,10,268.00,70000,180\n",
    ),
    (
        "message,subset,001002,007004,012101",
        "007004",
        &[0x0102, 0x0704, 0x0C65],
        &[LEVELS, LEVELS_NEXT, LEVELS_OF_TWO, LEVELS_IN_COLUMNS],
        "message,subset,001002,007004,012101\n\
        1,1,384,100000,273.15\n1,1,384,85000,268.00\n1,1,384,70000,\n\
        2,1,1,99990,0.01\n2,1,1,,300.00\n2,1,1,50000,250.50\n\
        3,1,1022,10,273.16\n3,1,1022,20,273.17\n3,1,1022,30,273.18\n\
        3,2,2,40,0.00\n3,2,2,50,655.34\n3,2,2,60,270.00\n\
        4,1,100,90020,280.01\n4,1,100,80000,\n4,1,100,,270.15\n\
        4,2,105,90000,\n4,2,105,80000,\n4,2,105,,270.00\n",
    ),
    (
        "message,012101,007004#1",
        "011001",
        &[0x0704, 0x0B01, 0x0C65],
        &[LEVELS, LEVELS_NEXT, LEVELS_OF_TWO],
        "message,012101,007004#1\n1,,\n2,250.50,\n3,273.18,\n3,270.00,\n",
    ),
    (
        "011001,001002",
        "",
        &[0x0102, 0x0B01],
        &[LEVELS_IN_COLUMNS, LEVELS_OF_TWO, LEVELS_IN_COLUMNS],
        "011001,001002\n90,100\n180,105\n0,1022\n270,2\n90,100\n180,105\n",
    ),
    (
        "subset,001011,012101",
        "",
        &[0x010B, 0x0C65],
        &[NAMED, NAMED_OF_THREE, NAMED],
        "subset,001011,012101\n1,A b,273.15\n1,\"c,\",268.15\n2,,\n\
        3,\"\\00Z\"\"\",0.00\n1,A b,273.15\n",
    ),
    (
        "compressed,subset,001001,001011",
        "001011",
        &[0x0101, 0x010B],
        &[NAMED_IN_COLUMNS, NAMED, NAMED_OF_THREE, NAMED_IN_COLUMNS],
        "compressed,subset,001001,001011\n1,1,10,abc\n1,2,11,xyz\n0,1,10,A b\n\
        0,1,11,\"c,\"\n0,2,12,\n0,3,13,\"\\00Z\"\"\"\n1,1,10,abc\n1,2,11,xyz\n",
    ),
    (
        "subset,001011,012101",
        "",
        &[0x010B, 0x0C65],
        &[NAMED_IN_COLUMNS, COMMA_IN_COLUMNS],
        "subset,001011,012101\n1,abc,273.15\n2,xyz,\n1,\"c,\",273.15\n2,,\n",
    ),
    (
        "001011#2,001001,001011#1,001011",
        "",
        &[0x0101, 0x010B],
        &[NAMED_IN_COLUMNS, NAMED],
        "001011#2,001001,001011#1,001011\n,10,abc,abc\n,11,xyz,xyz\n,10,A b,A b\n",
    ),
    (
        "message,subset,001001,001011,011001",
        "",
        &[0x0101, 0x010B, 0x0B01],
        &[LEVELS, NAMED, LEVELS_NEXT, NAMED_OF_THREE],
        "message,subset,001001,001011,011001\n1,1,10,,180\n2,1,10,A b,\n3,1,11,,\n\
        4,1,11,\"c,\",\n4,2,12,,\n4,3,13,\"\\00Z\"\"\",\n",
    ),
    (
        "message,001001,012101",
        "",
        &[0x0101, 0x0C65],
        &[
            LEVELS,
            NAMED,
            TEXTS,
            OF_46,
            SEQUENCES,
            LEVELS_NEXT,
            NAMED_OF_THREE,
            MISSING,
        ],
        "message,001001,012101\n1,10,273.15\n2,10,273.15\n3,,\n4,,273.15\n5,10,273.15\n\
        6,11,0.01\n7,11,268.15\n7,12,\n7,13,0.00\n8,10,\n",
    ),
    (
        "message,subset,012101",
        "",
        &[0x0C65],
        &[SOUNDING, UNEQUAL, SOUNDING, UNEQUAL],
        "message,subset,012101\n1,1,273.15\n2,1,\n2,2,273.15\n3,1,273.15\n4,1,\n4,2,273.15\n",
    ),
    (
        "message,011002",
        "",
        &[0x0B02],
        &[LEVELS, LEVELS_NEXT],
        "message,011002\n1,\n2,\n",
    ),
    (
        "message,subset",
        "",
        &[],
        &[LEVELS_OF_TWO, LEVELS_OF_TWO],
        "message,subset\n1,1\n1,2\n2,1\n2,2\n",
    ),
    (
        "message,subset,007004#2,007004,012101#3,012101#1,012101#4,001001,031001",
        "",
        &[0x0101, 0x0704, 0x0C65, 0x1F01],
        &[LEVELS_IN_COLUMNS, LEVELS, LEVELS_IN_COLUMNS],
        "message,subset,007004#2,007004,012101#3,012101#1,012101#4,001001,031001\n\
        1,1,80000,90020,270.15,280.01,,20,\n1,2,80000,90000,270.00,,,20,\n\
        2,1,85000,100000,,273.15,,10,\n\
        3,1,80000,90020,270.15,280.01,,20,\n3,2,80000,90000,270.00,,,20,\n",
    ),
    (
        "subset,005001,011002,004001",
        "",
        &[0x0401, 0x0501, 0x0B02],
        &[SIGNS_IN_COLUMNS],
        "subset,005001,011002,004001\n1,-12.34567,5.2,0\n2,0.00001,12.0,0\n3,,0.7,0\n",
    ),
    (
        "subset,001011,001011#2,012101",
        "",
        &[0x010B, 0x0C65],
        &[WORDS_IN_COLUMNS, ONE_WORD_IN_COLUMNS],
        "subset,001011,001011#2,012101\n1,ab,pq,273.15\n2,\\07b,r,273.15\n\
        3,\"\"\"q\",,273.15\n4,,s\\0d,273.15\n5,,tu,273.15\n6,a\\5cb,vw,273.15\n\
        1,xy,,\n2,xy,,\n",
    ),
    (
        "001001,001011",
        "",
        &[0x0101, 0x010B],
        &[ONE_WORD_IN_COLUMNS, COMPRESSED],
        "001001,001011\n11,xy\n,xy\n10,\n10,\n",
    ),
    (
        "subset,012101",
        "",
        &[0x0C65],
        &[LEVELS_IN_COLUMNS],
        "subset,012101\n1,280.01\n2,\n",
    ),
    (
        "012101",
        "",
        &[0x0C65],
        &[LEVELS_IN_COLUMNS],
        "012101\n280.01\n\"\"\n",
    ),
    (
        "input,message,place,subset,compressed,centre,year,month,day,hour,observed,master_version",
        "",
        &[],
        &[COMPRESSED, COMPRESSED],
        "input,message,place,subset,compressed,centre,year,month,day,hour,observed,master_version\n\
        1,1,0,1,1,98,2024,1,15,12,1,37\n1,1,0,2,1,98,2024,1,15,12,1,37\n\
        1,2,68,1,1,98,2024,1,15,12,1,37\n1,2,68,2,1,98,2024,1,15,12,1,37\n",
    ),
    (
        "subset,012101,012101#2",
        "012101",
        &[0x0C65],
        &[LEVELS_IN_COLUMNS],
        "subset,012101,012101#2\n1,280.01,\n1,,\n1,270.15,\n2,,\n2,,\n2,270.00,\n",
    ),
];

/// Makes the pair of tables that reads all versions, and finds the places of these descriptors.
fn pair_for<'t>(
    rt: &impl Abort,
    alloc: Global,
    tables: &'t Tables,
    list: &'t [u16],
) -> Vec<VersionTables<'t>> {
    let mut pairs = Vec::new(alloc);
    pairs
        .push(VersionTables::for_elements(alloc, None, tables, list))
        .ok()
        .expect(rt, "memory");
    pairs
}

/// Stops the test unless a run has this row's rows, with the places of these descriptors.
fn assert_row(
    rt: &impl Abort,
    alloc: Global,
    tables: &Tables,
    found: &[u16],
    place: usize,
    row: &Row,
) {
    let (columns, each, _, messages, rows) = row;
    let stream = joined(rt, alloc, *messages);
    let mut run = Run::new(*columns, *each, &stream, b"");
    run.place = place;
    let wanted = Ok((messages.len() as u128, 0));
    let pairs = pair_for(rt, alloc, tables, found);
    assert_run(rt, alloc, pairs, run, wanted, rows.as_bytes(), b"");
}

/// Messages with the same descriptors, with the places of their fields and without them. Places are known
/// from a template's second plain message on, and in each compressed one.
#[test]
fn rows_by_places(rt: HostRuntime) {
    let alloc = rt.alloc();
    let tables = tables_of(&rt, alloc, TABLE_B);
    for (place, row) in ROWS.iter().enumerate() {
        assert_row(&rt, alloc, &tables, row.2, place, row);
        assert_row(&rt, alloc, &tables, &[], place, row);
    }
    drop(tables);
}

/// Adds a text several times, with commas between.
fn add_columns(rt: &impl Abort, text: &mut Vec<u8>, word: &[u8], numbered: bool, alloc: Global) {
    for number in 1..201u32 {
        if number > 1 {
            text.push(b',').expect(rt, "memory");
        }
        text.extend_from_slice(word).expect(rt, "memory");
        if numbered {
            let mark = format!(in alloc; "#{number}").expect(rt, "memory");
            text.extend_from_slice(mark.as_bytes()).expect(rt, "memory");
        }
    }
}

fn long_message(rt: &impl Abort, alloc: Global) -> Vec<u8> {
    let mut message = joined(rt, alloc, &[LONG_FRONT]);
    for _ in 0..50u32 {
        message.extend_from_slice(FOUR_COLUMNS).expect(rt, "memory");
    }
    message.extend_from_slice(b"7777").expect(rt, "memory");
    message
}

/// Rows of two hundred columns, which are longer than the room of a short row.
#[test]
fn long_rows_of_columns(rt: HostRuntime) {
    let alloc = rt.alloc();
    let tables = tables_of(&rt, alloc, TABLE_B);
    let message = long_message(&rt, alloc);
    let mut words = Vec::new(alloc);
    add_columns(&rt, &mut words, b"012101", true, alloc);
    let mut row = Vec::new(alloc);
    add_columns(&rt, &mut row, b"273.15", false, alloc);
    let rows = joined(&rt, alloc, &[&words, b"\n", &row, b"\n", &row, b"\n"]);
    let columns = std::str::from_utf8(&words).ok().expect(&rt, "ASCII");
    let run = Run::new(columns, "", &message, b"");
    let pairs = pair_for(&rt, alloc, &tables, &[0x0C65]);
    assert_run(&rt, alloc, pairs, run, Ok((1, 0)), &rows, b"");
    drop(tables);
}

/// A thousand compressed messages, whose rows are longer than what is written at once.
#[test]
fn thousands_of_rows_of_columns(rt: HostRuntime) {
    let alloc = rt.alloc();
    let tables = tables_of(&rt, alloc, TABLE_B);
    let mut stream = Vec::new(alloc);
    let mut rows = joined(
        &rt,
        alloc,
        &[b"message,place,subset,001002,012101,centre,year,month\n"],
    );
    for turn in 0..1200u32 {
        stream.extend_from_slice(COMPRESSED).expect(&rt, "memory");
        let (number, place) = (turn + 1, 68 * turn);
        let two = format!(in alloc;
            "{number},{place},1,384,273.15,98,2024,1\n{number},{place},2,384,,98,2024,1\n"
        ).expect(&rt, "memory");
        rows.extend_from_slice(two.as_bytes()).expect(&rt, "memory");
    }
    let columns = "message,place,subset,001002,012101,centre,year,month";
    let run = Run::new(columns, "", &stream, b"");
    let pairs = pair_for(&rt, alloc, &tables, &[0x0102, 0x0C65]);
    assert_run(&rt, alloc, pairs, run, Ok((1200, 0)), &rows, b"");
    drop(tables);
}
