//! The program `bufr-ls`.
#![tactic(auto)]

use bufr_ls_engine::{run_command, words_of};
use std::process::ExitCode;

fn main(rt: HostRuntime) -> ExitCode {
    let alloc = rt.alloc();
    match words_of(&rt, alloc, "bufr-ls", &mut rt.stderr()) {
        Ok(words) => {
            ExitCode::from(run_command(&rt, alloc, &words, &mut rt.stdout(), &mut rt.stderr()))
        }
        Err(status) => ExitCode::from(status),
    }
}
