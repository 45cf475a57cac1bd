//! The program `bufr-select`.
#![tactic(auto)]

use bufr_select_engine::{run_command, words_of};
use std::process::ExitCode;

fn main(rt: HostRuntime) -> ExitCode {
    let alloc = rt.alloc();
    match words_of(&rt, alloc, "bufr-select", &mut rt.stderr()) {
        Ok(words) => {
            ExitCode::from(run_command(&rt, alloc, &words, &mut rt.stdout(), &mut rt.stderr()))
        }
        Err(status) => ExitCode::from(status),
    }
}
