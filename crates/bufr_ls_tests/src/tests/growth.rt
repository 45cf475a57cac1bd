//! Every growth refused in turn to the engine, and a thousand messages with ample memory. Run as they
//! are, no growth is refused; `tests/refuse-each-growth` runs each test of this file once for each of
//! its growths, which then fails.

use crate::tests::devices::{Reader, Writer};
use crate::tests::same;
use crate::tests::samples::{EDITION_3, EDITION_4, HEADER, REFUSED, ROW_3, ROW_4, ROWS_REFUSED};
use bufr_io::{Tally, ToolFault};
use bufr_ls_engine::{Column, run_ls};
use std::alloc::Global;
use std::process::Abort;

/// More octets than are listed.
const ROOM: usize = 4096;

/// Returns a list that takes no memory while it is filled.
fn list_with_room(rt: &impl Abort, alloc: Global) -> Vec<u8> {
    match Vec::with_capacity(alloc, ROOM) {
        Ok(taken) => taken,
        Err(_) => Vec::with_capacity(alloc, ROOM).expect(rt, "what no longer is refused"),
    }
}

/// Lists three inputs, which are read in pieces of 20 octets, and returns what was written, and whether
/// that is all; it stops the test at another answer than the tally or want of memory.
fn list(rt: &impl Abort, alloc: Global) -> (Vec<u8>, bool) {
    let mut inputs = [
        Reader::new(EDITION_4, 20, false),
        Reader::new(EDITION_3, 20, false),
        Reader::new(REFUSED, 20, false),
    ];
    let mut writer = Writer::over(list_with_room(rt, alloc), ROOM);
    let answer = run_ls(alloc, 1000, Column::all(), &mut inputs, &mut writer);
    let tally = Tally {
        frames: 8,
        refused: 6,
        skipped: 0,
        reports: 0,
    };
    let is_all = answer.is_ok();
    let wanted = if is_all {
        Ok(tally)
    } else {
        Err(ToolFault::OutOfMemory)
    };
    same(rt, answer, wanted, 0);
    (writer.taken, is_all)
}

/// Stops the test unless octets are the first that are listed of the inputs, and end with a line.
fn assert_front(rt: &impl Abort, written: &[u8]) {
    let mut rest = written;
    for part in [HEADER, ROW_4, ROW_3, ROWS_REFUSED] {
        let part = part.as_bytes();
        let shared = rest.len().min(part.len());
        same(rt, &rest[..shared], &part[..shared], shared);
        rest = &rest[shared..];
    }
    same(rt, rest.len(), 0, 0);
    let ends = written.is_empty() || written.ends_with(b"\n");
    same(rt, ends, true, written.len());
}

/// All lines; after a refusal the first lines, each of them whole.
#[test]
fn rows_with_each_growth_refused(rt: HostRuntime) {
    let alloc = rt.alloc();
    let (written, is_all) = list(&rt, alloc);
    assert_front(&rt, &written);
    let (again, is_all_again) = list(&rt, alloc);
    assert_front(&rt, &again);
    same(&rt, is_all || is_all_again, true, 0);
    let all = HEADER.len() + ROW_4.len() + ROW_3.len() + ROWS_REFUSED.len();
    same(&rt, written.len() == all, is_all, written.len());
    same(&rt, again.len() == all, is_all_again, again.len());
}
