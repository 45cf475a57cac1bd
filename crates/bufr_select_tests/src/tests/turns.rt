//! Rows of the turns of a replication. From eight turns on a replication may have each row written straight
//! from the numbers of its turn.

use super::{Run, assert_run, joined, one_pair, tables_of};
use bufr_io::ToolFault;
use bufr_tables::Tables;
use std::alloc::Global;
use std::process::Abort;

/// A table of elements. Hundreds have no short form in a row.
const TABLE_B: &[u8] =
    b"FXY,ElementName_en,BUFR_Unit,BUFR_Scale,BUFR_ReferenceValue,BUFR_DataWidth_Bits\n\
001001,block,Numeric,0,0,7\n001002,station,Numeric,0,0,10\n004004,hour,h,0,0,5\n\
007004,pressure,Pa,-1,0,14\n007005,level,Numeric,0,0,16\n010200,large,Numeric,0,-100,62\n\
010201,hundreds,Numeric,-2,0,7\n010202,wide,Numeric,0,0,56\n011001,direction,degree true,0,0,9\n011002,speed,m/s,1,0,12\n\
012101,temperature,K,2,0,16\n031001,factor,Numeric,0,0,8\n";

/// Two subsets of block 10. Station 1 has twelve levels, the ninth without a wind, the last without a
/// temperature, and hour 6 after them; station 2 has the first seven levels and hour 18.
const SOUNDINGS: &[u8] = b"BUFR\x00\x00\xc0\x04\
\x00\x00\x16\x00\x00\x62\x00\x00\x00\x00\x00\x02\x00\x25\x00\x07\xe8\x01\x0f\x0c\x00\x00\
\x00\x00\x19\x00\x00\x02\x80\x01\x01\x01\x02\x44\x00\x1f\x01\x07\x04\x0b\x01\x0b\x02\x0c\x65\x04\x04\
\x00\x00\x85\x00\x14\x00\x86\x4e\x20\x00\x00\x06\xd6\x09\x47\x01\x40\x0a\xda\x5d\x19\x40\x50\x02\
\x9b\x3f\x21\x34\x0f\x00\x7b\x66\x53\xe8\x02\x80\x14\x6c\x98\x75\x30\x64\x03\x2d\x8c\xcd\xac\x0f\
\x00\x79\xb0\xd1\x96\x42\x30\x11\xb6\x01\x2e\xe1\xff\xff\xf6\xbd\x05\x5f\x0b\x40\x5a\xd7\x3c\x9c\
\x41\x90\x0c\x9a\xdb\x11\x94\x37\x01\xbf\xff\xf9\x85\x00\x40\xf3\x88\x00\x00\x01\xb5\x82\x51\xc0\
\x50\x02\xb6\x97\x46\x50\x14\x00\xa6\xcf\xc8\x4d\x03\xc0\x1e\xd9\x94\xfa\x00\xa0\x05\x1b\x26\x1d\
\x4c\x19\x00\xcb\x63\x33\x6b\x03\xc0\x1e\x6c\x34\x907777";

/// Eight levels with two temperatures each, the second of the fourth missing.
pub(super) const TWICE: &[u8] = b"BUFR\x00\x00\x66\x04\
\x00\x00\x16\x00\x00\x62\x00\x00\x00\x00\x00\x02\x00\x25\x00\x07\xe8\x01\x0f\x0c\x00\x00\
\x00\x00\x11\x00\x00\x01\x80\x43\x00\x1f\x01\x07\x04\x0c\x65\x0c\x65\
\x00\x00\x33\x00\x08\x01\x91\xaa\xcd\x38\x80\x06\x56\xab\x44\xe2\x10\x19\x9a\xad\x53\x88\x80\x67\
\x6a\xb6\xff\xff\x01\xa1\xaa\xdd\x38\x90\x06\x96\xab\x84\xe2\x50\x1a\x9a\xae\x53\x89\x80\x6b\x6a\
\xba\x4e\x277777";

/// Nine levels with a temperature, and then eight with a direction.
const TWO: &[u8] = b"BUFR\x00\x00\x78\x04\
\x00\x00\x16\x00\x00\x62\x00\x00\x00\x00\x00\x02\x00\x25\x00\x07\xe8\x01\x0f\x0c\x00\x00\
\x00\x00\x17\x00\x00\x01\x80\x42\x00\x1f\x01\x07\x04\x0c\x65\x42\x00\x1f\x01\x07\x04\x0b\x01\
\x00\x00\x3f\x00\x09\x00\x29\xa5\xe0\x00\xb6\x97\x90\x03\x1a\x5e\x80\x0d\x69\x7b\x00\x39\xa5\xf0\
\x00\xf6\x97\xd0\x04\x1a\x5f\x80\x11\x69\x7f\x00\x49\xa6\x00\x20\x01\x40\x00\x02\xa0\x10\x05\x80\
\x40\x0b\x80\xc0\x18\x02\x00\x32\x05\x00\x68\x0c\x00\xd8\x1c7777";

/// Nine levels with a number of 62 bits above -100: the fifth is 2^62 - 2, the seventh is missing.
const LARGE: &[u8] = b"BUFR\x00\x00\x8c\x04\
\x00\x00\x16\x00\x00\x62\x00\x00\x00\x00\x00\x02\x00\x25\x00\x07\xe8\x01\x0f\x0c\x00\x00\
\x00\x00\x0f\x00\x00\x01\x80\x42\x00\x1f\x01\x07\x04\x0a\xc8\
\x00\x00\x5b\x00\x09\x00\x28\x00\x00\x00\x00\x00\x00\x00\x00\x02\xc0\x00\x00\x00\x00\x00\x00\x01\
\x00\x30\x00\x00\x00\x00\x00\x00\x00\x20\x03\x40\x00\x00\x00\x00\x00\x00\x03\x00\x3b\xff\xff\xff\
\xff\xff\xff\xff\xe0\x03\xc0\x00\x00\x00\x00\x00\x00\x05\x00\x43\xff\xff\xff\xff\xff\xff\xff\xf0\
\x04\x40\x00\x00\x00\x00\x00\x00\x07\x00\x48\x00\x00\x00\x00\x00\x00\x00\x807777";

/// Eight levels with hundreds, the third missing.
const HUNDREDS: &[u8] = b"BUFR\x00\x00\x4b\x04\
\x00\x00\x16\x00\x00\x62\x00\x00\x00\x00\x00\x02\x00\x25\x00\x07\xe8\x01\x0f\x0c\x00\x00\
\x00\x00\x0f\x00\x00\x01\x80\x42\x00\x1f\x01\x07\x04\x0a\xc9\
\x00\x00\x1a\x00\x08\x00\x28\x08\x01\x60\x80\x0c\xfe\x00\x68\x40\x03\x82\x80\x1e\x18\x01\x00\xe0\
\x08\x887777";

/// Columns, the descriptor of `-e` if there is one, a message, and its rows.
type Row = (&'static str, &'static str, &'static [u8], &'static str);

const ROWS: &[Row] = &[
    (
        "subset,001001,001002,007004,011001,011002,012101",
        "007004",
        SOUNDINGS,
        "subset,001001,001002,007004,011001,011002,012101\n1,10,1,100000,0,0.0,280.00\n\
        1,10,1,95000,10,0.5,279.50\n1,10,1,90000,20,1.0,279.00\n1,10,1,85000,30,1.5,278.50\n\
        1,10,1,80000,40,2.0,278.00\n1,10,1,75000,50,2.5,277.50\n1,10,1,70000,60,3.0,277.00\n\
        1,10,1,65000,70,3.5,276.50\n1,10,1,60000,,,276.00\n1,10,1,55000,90,4.5,275.50\n\
        1,10,1,50000,100,5.0,275.00\n1,10,1,45000,110,5.5,\n2,10,2,100000,0,0.0,280.00\n\
        2,10,2,95000,10,0.5,279.50\n2,10,2,90000,20,1.0,279.00\n2,10,2,85000,30,1.5,278.50\n\
        2,10,2,80000,40,2.0,278.00\n2,10,2,75000,50,2.5,277.50\n2,10,2,70000,60,3.0,277.00\n",
    ),
    (
        "007004,004004,001002",
        "007004",
        SOUNDINGS,
        "007004,004004,001002\n100000,,1\n95000,,1\n90000,,1\n85000,,1\n80000,,1\n75000,,1\n\
        70000,,1\n65000,,1\n60000,,1\n55000,,1\n50000,,1\n45000,6,1\n100000,,2\n95000,,2\n\
        90000,,2\n85000,,2\n80000,,2\n75000,,2\n70000,18,2\n",
    ),
    (
        "007004#1,001002#1,007004#2,012101#1,012101,001002",
        "007004",
        SOUNDINGS,
        "007004#1,001002#1,007004#2,012101#1,012101,001002\n100000,,,280.00,280.00,1\n\
        95000,,,279.50,279.50,1\n90000,,,279.00,279.00,1\n85000,,,278.50,278.50,1\n\
        80000,,,278.00,278.00,1\n75000,,,277.50,277.50,1\n70000,,,277.00,277.00,1\n\
        65000,,,276.50,276.50,1\n60000,,,276.00,276.00,1\n55000,,,275.50,275.50,1\n\
        50000,,,275.00,275.00,1\n45000,,,,,1\n100000,,,280.00,280.00,2\n\
        95000,,,279.50,279.50,2\n90000,,,279.00,279.00,2\n85000,,,278.50,278.50,2\n\
        80000,,,278.00,278.00,2\n75000,,,277.50,277.50,2\n70000,,,277.00,277.00,2\n",
    ),
    (
        "011001,012101,004004,001002",
        "011001",
        SOUNDINGS,
        "011001,012101,004004,001002\n0,280.00,,1\n10,279.50,,1\n20,279.00,,1\n30,278.50,,1\n\
        40,278.00,,1\n50,277.50,,1\n60,277.00,,1\n70,276.50,,1\n,276.00,,1\n90,275.50,,1\n\
        100,275.00,,1\n110,,6,1\n0,280.00,,2\n10,279.50,,2\n20,279.00,,2\n30,278.50,,2\n\
        40,278.00,,2\n50,277.50,,2\n60,277.00,18,2\n",
    ),
    (
        "011001,007004,007004#1",
        "011001",
        SOUNDINGS,
        "011001,007004,007004#1\n0,95000,95000\n10,90000,90000\n20,85000,85000\n\
        30,80000,80000\n40,75000,75000\n50,70000,70000\n60,65000,65000\n70,60000,60000\n\
        ,55000,55000\n90,50000,50000\n100,45000,45000\n110,100000,\n0,95000,95000\n\
        10,90000,90000\n20,85000,85000\n30,80000,80000\n40,75000,75000\n50,70000,70000\n\
        60,100000,\n",
    ),
    (
        "012101,007004,005001",
        "007004",
        SOUNDINGS,
        "012101,007004,005001\n280.00,100000,\n279.50,95000,\n279.00,90000,\n278.50,85000,\n\
        278.00,80000,\n277.50,75000,\n277.00,70000,\n276.50,65000,\n276.00,60000,\n\
        275.50,55000,\n275.00,50000,\n,45000,\n280.00,100000,\n279.50,95000,\n279.00,90000,\n\
        278.50,85000,\n278.00,80000,\n277.50,75000,\n277.00,70000,\n",
    ),
    (
        "005001,012101#3,007004",
        "007004",
        SOUNDINGS,
        "005001,012101#3,007004\n,,100000\n,,95000\n,,90000\n,,85000\n,,80000\n,,75000\n\
        ,,70000\n,,65000\n,,60000\n,,55000\n,,50000\n,,45000\n,,100000\n,,95000\n,,90000\n\
        ,,85000\n,,80000\n,,75000\n,,70000\n",
    ),
    (
        "011001",
        "007004",
        SOUNDINGS,
        "011001\n0\n10\n20\n30\n40\n50\n60\n70\n\"\"\n90\n100\n110\n0\n10\n20\n30\n40\n50\n60\n",
    ),
    (
        "001002,007004#8,012101#12,007004,004004",
        "",
        SOUNDINGS,
        "001002,007004#8,012101#12,007004,004004\n1,65000,,100000,6\n2,,,100000,18\n",
    ),
    (
        "007004,012101,012101#2,012101#3,012101#1,007004#1",
        "007004",
        TWICE,
        "007004,012101,012101#2,012101#3,012101#1,007004#1\n1000,273.15,200.00,,273.15,1000\n\
        1010,273.16,200.01,,273.16,1010\n1020,273.17,200.02,,273.17,1020\n\
        1030,273.18,,,273.18,1030\n1040,273.19,200.04,,273.19,1040\n\
        1050,273.20,200.05,,273.20,1050\n1060,273.21,200.06,,273.21,1060\n\
        1070,273.22,200.07,,273.22,1070\n",
    ),
    (
        "012101#2,007004",
        "007004",
        TWICE,
        "012101#2,007004\n200.00,1000\n200.01,1010\n200.02,1020\n,1030\n200.04,1040\n\
        200.05,1050\n200.06,1060\n200.07,1070\n",
    ),
    (
        "012101,007004",
        "012101",
        TWICE,
        "012101,007004\n273.15,1000\n200.00,1010\n273.16,1000\n200.01,1020\n273.17,1000\n\
        200.02,1030\n273.18,1000\n,1040\n273.19,1000\n200.04,1050\n273.20,1000\n200.05,1060\n\
        273.21,1000\n200.06,1070\n273.22,1000\n200.07,1000\n",
    ),
    (
        "message,007004,012101,011001",
        "007004",
        TWO,
        "message,007004,012101,011001\n1,100,270.00,\n1,110,270.01,\n1,120,270.02,\n\
        1,130,270.03,\n1,140,270.04,\n1,150,270.05,\n1,160,270.06,\n1,170,270.07,\n\
        1,180,270.08,\n1,200,,0\n1,210,,1\n1,220,,2\n1,230,,3\n1,240,,4\n1,250,,5\n1,260,,6\n\
        1,270,,7\n",
    ),
    (
        "011001,031001,012101,007004#2",
        "007004",
        TWO,
        "011001,031001,012101,007004#2\n,9,270.00,\n,9,270.01,\n,9,270.02,\n,9,270.03,\n\
        ,9,270.04,\n,9,270.05,\n,9,270.06,\n,9,270.07,\n,8,270.08,\n0,9,,\n1,9,,\n2,9,,\n\
        3,9,,\n4,9,,\n5,9,,\n6,9,,\n7,9,,\n",
    ),
    (
        "007004,010200",
        "007004",
        LARGE,
        "007004,010200\n100,-100\n110,-99\n120,-98\n130,-97\n140,4611686018427387802\n150,-95\n\
        160,\n170,-93\n180,-92\n",
    ),
    (
        "010200,010200#2,007004",
        "010200",
        LARGE,
        "010200,010200#2,007004\n-100,,110\n-99,,120\n-98,,130\n-97,,140\n\
        4611686018427387802,,150\n-95,,160\n,,170\n-93,,180\n-92,,100\n",
    ),
    (
        "010200,message",
        "010200",
        LARGE,
        "010200,message\n-100,1\n-99,1\n-98,1\n-97,1\n4611686018427387802,1\n-95,1\n,1\n-93,1\n\
        -92,1\n",
    ),
    (
        "010201,007004",
        "007004",
        HUNDREDS,
        "010201,007004\n100,100\n200,110\n,120\n400,130\n500,140\n600,150\n700,160\n800,170\n",
    ),
];

/// Stops the test unless a message has this row's rows.
fn assert_row(rt: &impl Abort, alloc: Global, tables: &Tables, place: usize, row: &Row) {
    let (columns, each, message, rows) = row;
    let mut run = Run::new(*columns, *each, *message, b"");
    run.place = place;
    let pairs = one_pair(rt, alloc, tables);
    assert_run(rt, alloc, pairs, run, Ok((1, 0)), rows.as_bytes(), b"");
}

/// Levels with and without spans.
#[test]
fn rows_of_turns(rt: HostRuntime) {
    let alloc = rt.alloc();
    let tables = tables_of(&rt, alloc, TABLE_B);
    for (place, row) in ROWS.iter().enumerate() {
        assert_row(&rt, alloc, &tables, place, row);
    }
    drop(tables);
}

/// What is before the levels of a message of 250 levels with a number and a temperature.
const FRONT: &[u8] = b"BUFR\x00\x04\x1e\x04\
\x00\x00\x16\x00\x00\x62\x00\x00\x00\x00\x00\x02\x00\x25\x00\x07\xe8\x01\x0f\x0c\x00\x00\
\x00\x00\x0f\x00\x00\x01\x80\x42\x00\x1f\x01\x07\x05\x0c\x65\
\x00\x03\xed\x00\xfa";

/// The number of messages of 250 levels.
const MESSAGES: u16 = 20;

/// Makes messages whose levels count on, each with 273.15 K.
fn many_levels(rt: &impl Abort, alloc: Global) -> Vec<u8> {
    let mut stream = Vec::new(alloc);
    for message in 0..MESSAGES {
        stream.extend_from_slice(FRONT).expect(rt, "memory");
        for level in 0..250u16 {
            let number = message * 250 + level;
            stream
                .extend_from_slice(&number.to_be_bytes())
                .expect(rt, "memory");
            stream.extend_from_slice(b"\x6a\xb3").expect(rt, "memory");
        }
        stream.extend_from_slice(b"7777").expect(rt, "memory");
    }
    stream
}

fn rows_of_many(rt: &impl Abort, alloc: Global) -> Vec<u8> {
    let mut rows = joined(rt, alloc, &[b"message,subset,year,007005,012101\n"]);
    for number in 0..MESSAGES * 250 {
        let message = number / 250 + 1;
        let row = format!(in alloc; "{message},1,2024,{number},273.15\n").expect(rt, "memory");
        rows.extend_from_slice(row.as_bytes()).expect(rt, "memory");
    }
    rows
}

/// Five thousand levels, whose rows are longer than what is written at once; and a writer that fails.
#[test]
fn many_rows_of_turns(rt: HostRuntime) {
    let alloc = rt.alloc();
    let tables = tables_of(&rt, alloc, TABLE_B);
    let stream = many_levels(&rt, alloc);
    let mut rows = rows_of_many(&rt, alloc);
    let mut run = Run::new("message,subset,year,007005,012101", "007005", &stream, b"");
    let pairs = one_pair(&rt, alloc, &tables);
    assert_run(&rt, alloc, pairs, run, Ok((20, 0)), &rows, b"");
    run.room = 70_000;
    let fault = Err(ToolFault::WriteFailed { written: 70_000 });
    let pairs = one_pair(&rt, alloc, &tables);
    rows.truncate(70_000);
    assert_run(&rt, alloc, pairs, run, fault, &rows, b"");
    drop(tables);
}

/// What is before the wide numbers in the descriptors of a message, and what is after them, up to the number
/// of its levels.
const WIDE_FRONT: &[u8] = b"BUFR\x00\x0e\x3d\x04\
\x00\x00\x16\x00\x00\x62\x00\x00\x00\x00\x00\x02\x00\x25\x00\x07\xe8\x01\x0f\x0c\x00\x00\
\x00\x00\x7b\x00\x00\x01\x80\x78\x00\x1f\x01\x07\x05";

const WIDE_MIDDLE: &[u8] = b"\x00\x0d\xa0\x00\x09";

/// How many wide numbers a level has.
const WIDE: u32 = 55;

/// Returns the octets of a wide number: the level, but 2^56 - 2 in the fifth one.
fn wide_octets(level: u8) -> [u8; 7] {
    if level == 4 {
        [255, 255, 255, 255, 255, 255, 254]
    } else {
        [0, 0, 0, 0, 0, 0, level]
    }
}

/// Makes a message of nine levels with wide numbers.
fn wide_levels(rt: &impl Abort, alloc: Global) -> Vec<u8> {
    let mut message = joined(rt, alloc, &[WIDE_FRONT]);
    for _ in 0..WIDE {
        message.extend_from_slice(b"\x0a\xca").expect(rt, "memory");
    }
    message.extend_from_slice(WIDE_MIDDLE).expect(rt, "memory");
    for level in 0..9u8 {
        message.extend_from_slice(&[0, level]).expect(rt, "memory");
        for _ in 0..WIDE {
            message
                .extend_from_slice(&wide_octets(level))
                .expect(rt, "memory");
        }
    }
    message.extend_from_slice(b"7777").expect(rt, "memory");
    message
}

fn wide_columns(rt: &impl Abort, alloc: Global) -> Vec<u8> {
    let mut text = joined(rt, alloc, &[b"007005"]);
    for number in 1..=WIDE {
        let column = format!(in alloc; ",010202#{number}").expect(rt, "memory");
        text.extend_from_slice(column.as_bytes())
            .expect(rt, "memory");
    }
    text
}

fn wide_rows(rt: &impl Abort, alloc: Global, columns: &[u8]) -> Vec<u8> {
    let mut rows = joined(rt, alloc, &[columns, b"\n"]);
    for level in 0..9u8 {
        rows.push(b'0' + level).expect(rt, "memory");
        for _ in 0..WIDE {
            rows.push(b',').expect(rt, "memory");
            if level == 4 {
                rows.extend_from_slice(b"72057594037927934")
                    .expect(rt, "memory");
            } else {
                rows.push(b'0' + level).expect(rt, "memory");
            }
        }
        rows.push(b'\n').expect(rt, "memory");
    }
    rows
}

/// A row in the middle of a sounding that is longer than the room of a short row.
#[test]
fn long_row_of_a_turn(rt: HostRuntime) {
    let alloc = rt.alloc();
    let tables = tables_of(&rt, alloc, TABLE_B);
    let message = wide_levels(&rt, alloc);
    let words = wide_columns(&rt, alloc);
    let rows = wide_rows(&rt, alloc, &words);
    let columns = std::str::from_utf8(&words).ok().expect(&rt, "ASCII");
    let run = Run::new(columns, "007005", &message, b"");
    let pairs = one_pair(&rt, alloc, &tables);
    assert_run(&rt, alloc, pairs, run, Ok((1, 0)), &rows, b"");
    drop(tables);
}
