//! Templates at their limits of nodes and levels.

use super::same;
use super::samples::tables_of;
use bufr_expand::Template;
use bufr_tables::{Fxy, Tables};
use std::alloc::Global;
use std::process::Abort;

const TABLE_B: &[u8] = b"FXY,BUFR_Unit,BUFR_Scale,BUFR_ReferenceValue,BUFR_DataWidth_Bits\n\
012101,K,2,0,16\n\
031000,Numeric,0,0,1\n";

/// Each of 301201 to 301215 has the next descriptor twice, 301216 has 031000 twice, and 301200 has
/// 301201.
const TABLE_D: &[u8] = b"FXY1,FXY2\n\
301200,301201\n301201,301202\n301201,301202\n301202,301203\n301202,301203\n\
301203,301204\n301203,301204\n301204,301205\n301204,301205\n\
301205,301206\n301205,301206\n301206,301207\n301206,301207\n\
301207,301208\n301207,301208\n301208,301209\n301208,301209\n\
301209,301210\n301209,301210\n301210,301211\n301210,301211\n\
301211,301212\n301211,301212\n301212,301213\n301212,301213\n\
301213,301214\n301213,301214\n301214,301215\n301214,301215\n\
301215,301216\n301215,301216\n301216,031000\n301216,031000\n";

/// Descriptors, and how many nodes their template has or why there is none.
const ROWS: &[(&str, Result<usize, &str>)] = &[
    ("301201", Ok(65_536)),
    ("301201 031000", Err("X9 TooManyNodes")),
    ("301200", Err("X8 TooDeep")),
    (
        "116002 115002 114002 113002 112002 111002 110002 109002 \
108002 107002 106002 105002 104002 103002 102002 101002 012101",
        Ok(17),
    ),
    (
        "117002 116002 115002 114002 113002 112002 111002 110002 109002 \
108002 107002 106002 105002 104002 103002 102002 101002 012101",
        Err("X8 TooDeep"),
    ),
];

fn assert_row(rt: &impl Abort, alloc: Global, tables: &Tables, row: &(&str, Result<usize, &str>)) {
    let mut list = Vec::new(alloc);
    for digits in row.0.split(' ') {
        let fxy = Fxy::from_text(digits.as_bytes()).expect(rt, "a descriptor");
        list.push(fxy).expect(rt, "room");
    }
    match Template::build(alloc, tables, &list) {
        Ok(template) => {
            same(rt, Ok(template.nodes()), row.1);
            drop(template);
        }
        Err(failure) => {
            let found = format!(in alloc; "{failure}").expect(rt, "room");
            same(rt, Err(found.as_str()), row.1);
        }
    }
}

#[test]
fn most_nodes_and_levels(rt: HostRuntime) {
    let tables = tables_of(&rt, rt.alloc(), TABLE_B, TABLE_D);
    for row in ROWS {
        assert_row(&rt, rt.alloc(), &tables, row);
    }
    drop(tables);
}
