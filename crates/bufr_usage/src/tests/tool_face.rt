//! The public calls of bufr_tool, each by its path and with its parameters.

use super::faces::BARE_LISTED;
use super::{BARE, TABLE_B, tables};
use bufr_bits::{FromRead, IntoWrite};
use bufr_tables::Tables;
use std::alloc::Global;
use std::process::Abort;

#[test]
fn tables_loaded(rt: HostRuntime) {
    let mut b = FromRead::new(TABLE_B);
    let mut d = FromRead::new(b"FXY1,FXY2\n".as_slice());
    let loaded: Result<Tables, bufr_tool::ToolFault> = bufr_tool::load_tables(
        rt.alloc(),
        bufr_tool::MOST_READS,
        &mut b,
        &mut d,
    );
    let loaded = loaded.expect(&rt, "tables");
    let wanted = tables(&rt, rt.alloc());
    assert!(rt; loaded.same(&wanted));
    drop(wanted);
    drop(loaded);
}

/// Whether an engine counts these frames, octets outside frames and reports, none refused, and
/// writes this text.
fn is_told(
    tally: Result<bufr_tool::Tally, bufr_tool::ToolFault>,
    writer: IntoWrite<Vec<u8>>,
    frames: u128,
    reports: u128,
    text: &[u8],
) -> bool {
    let wanted = bufr_tool::Tally {
        frames,
        refused: 0,
        skipped: 0,
        reports,
    };
    tally == Ok(wanted) && writer.into_inner().as_slice() == text
}

#[test]
fn shown(rt: HostRuntime) {
    let tables = tables(&rt, rt.alloc());
    let mut reader = FromRead::new(BARE);
    let mut writer = IntoWrite::new(Vec::new(rt.alloc()));
    let tally = bufr_tool::run_show(
        rt.alloc(),
        bufr_tool::MOST_READS,
        &tables,
        &mut reader,
        &mut writer,
    );
    drop(tables);
    assert!(rt; is_told(tally, writer, 1, 0, BARE_LISTED));
}

#[test]
fn checked(rt: HostRuntime) {
    let tables = tables(&rt, rt.alloc());
    let mut reader = FromRead::new(BARE);
    let mut writer = IntoWrite::new(Vec::new(rt.alloc()));
    let tally = bufr_tool::run_check(
        rt.alloc(),
        bufr_tool::MOST_READS,
        &tables,
        &mut reader,
        &mut writer,
    );
    drop(tables);
    let text = b"0 49 ok 1 0\nframes 1 refused 0 skipped 0\n";
    assert!(rt; is_told(tally, writer, 1, 0, text));
}

#[test]
fn encoded(rt: HostRuntime) {
    let tables = tables(&rt, rt.alloc());
    let mut reader = FromRead::new(BARE_LISTED);
    let mut writer = IntoWrite::new(Vec::new(rt.alloc()));
    let tally = bufr_tool::run_encode(
        rt.alloc(),
        bufr_tool::MOST_READS,
        &tables,
        false,
        &mut reader,
        &mut writer,
    );
    drop(tables);
    assert!(rt; is_told(tally, writer, 1, 0, BARE));
}

#[test]
fn added(rt: HostRuntime) {
    let tables = tables(&rt, rt.alloc());
    let mut readers = [FromRead::new(BARE)];
    let mut writer = IntoWrite::new(Vec::new(rt.alloc()));
    let tally = bufr_tool::run_add(
        rt.alloc(),
        bufr_tool::MOST_READS,
        &tables,
        &mut readers,
        &mut writer,
    );
    drop(tables);
    assert!(rt; is_told(tally, writer, 1, 1, BARE));
}

#[test]
fn merged(rt: HostRuntime) {
    let tables = tables(&rt, rt.alloc());
    let mut readers = [FromRead::new(BARE), FromRead::new(BARE)];
    let mut writer = IntoWrite::new(Vec::new(rt.alloc()));
    let tally = bufr_tool::run_merge(
        rt.alloc(),
        bufr_tool::MOST_READS,
        &tables,
        &mut readers,
        &mut writer,
    );
    drop(tables);
    assert!(rt; is_told(tally, writer, 2, 1, BARE));
}

fn is_memory(fault: bufr_tool::ToolFault) -> bool {
    match fault {
        bufr_tool::ToolFault::ReadFailed(bufr_tool::Input::Number(_)) => false,
        bufr_tool::ToolFault::ReadFailed(bufr_tool::Input::TableB) => false,
        bufr_tool::ToolFault::ReadFailed(bufr_tool::Input::TableD) => false,
        bufr_tool::ToolFault::EndlessInput(_) => false,
        bufr_tool::ToolFault::WriteFailed { written: _ } => false,
        bufr_tool::ToolFault::Table(_, _) => false,
        bufr_tool::ToolFault::Listing(_) => false,
        bufr_tool::ToolFault::Encode(_, _) => false,
        bufr_tool::ToolFault::NotAnArchive { input: _, place: _ } => false,
        bufr_tool::ToolFault::OutOfMemory => true,
    }
}

#[test]
fn faults(rt: HostRuntime) {
    assert!(rt; is_memory(bufr_tool::ToolFault::OutOfMemory));
}

fn words(rt: &impl Abort, alloc: Global) -> Vec<String> {
    let mut words = Vec::with_capacity(alloc, 8).expect(rt, "room");
    for word in ["add", "-b", "B", "-d", "D", "-o", "OUT", "FILE"] {
        words
            .push(String::from_str(alloc, word).expect(rt, "room"))
            .expect(rt, "room");
    }
    words
}

#[test]
fn lines(rt: HostRuntime) {
    let words = words(&rt, rt.alloc());
    let bufr_tool::Line {
        command,
        b,
        d,
        compressed,
        out,
        inputs,
    } = bufr_tool::line(rt.alloc(), &words).expect(&rt, "a line");
    assert!(rt; command == bufr_tool::Command::Add && !compressed);
    assert!(rt; b == "B" && d == "D" && out == "OUT");
    assert!(rt; inputs.len() == 1);
    drop(inputs);
    drop(words);
}
