use super::same;
use bufr_archive::{AddFault, NotAnArchive, RanOut, StepFault, WriteFault};
use bufr_message::Refused;
use std::alloc::Global;
use std::fmt::Display;
use std::process::Abort;

fn assert_prints<F: Display + Drop>(rt: &impl Abort, alloc: Global, fault: F, text: &str) {
    let said = format!(in alloc; "{fault}").expect(rt, "room");
    same(rt, said.as_str(), text);
}

#[test]
fn texts_of_faults(rt: HostRuntime) {
    let alloc = rt.alloc();
    let refused = AddFault::Refused(Refused::Edition(5));
    assert_prints(&rt, alloc, refused, "M2 Edition 5");
    let ran_out = AddFault::OutOfMemory { done: 3 };
    assert_prints(&rt, alloc, ran_out, "out of memory, 3 reports joined");
    let ran_out = RanOut { done: 4 };
    assert_prints(&rt, alloc, ran_out, "out of memory, 4 reports joined");
    let place = NotAnArchive { place: 62 };
    assert_prints(&rt, alloc, place, "N1 NotAnArchive 62");
    let written = WriteFault { written: 7 };
    assert_prints(&rt, alloc, written, "write failed after 7 octets");
}

#[test]
fn texts_of_faults_of_steps(rt: HostRuntime) {
    let alloc = rt.alloc();
    assert_prints(&rt, alloc, StepFault::NoSlot(9), "P1 NoSlot 9");
    assert_prints(&rt, alloc, StepFault::StreamTooLong, "P2 StreamTooLong");
    let ran_out = StepFault::OutOfMemory { joined: 3 };
    assert_prints(&rt, alloc, ran_out, "out of memory, 3 reports joined");
}
