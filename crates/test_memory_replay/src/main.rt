//! Makes the calls of `syn_replay`, of the program, and of those that read visible tokens alone, that
//! allocate. The program serves three inputs, and all that it prints is checked.
//!
//! The status is 0 if each allocation succeeds, 3 if one fails and so does a call, of which the
//! program then prints `memory` alone, and 1 if something is wrong; then the name of the call is
//! printed. Before the calls it makes one allocation for each byte of its input: so
//! `tests/refuse_each` makes each allocation fail in turn.
#![tactic(auto)]

mod replays;
mod served;
mod visible;

use std::alloc::Global;
use std::io::Read;
use std::process::ExitCode;
use test_outcomes::memory::{Outcome, made, spend, status, worst};

fn main(rt: HostRuntime) -> ExitCode {
    let mut bytes = [0u8; 1024];
    let Ok(count) = rt.stdin().read(&mut bytes) else {
        return ExitCode::FAILURE;
    };
    let (status, call) = status(run(rt.alloc(), count));
    let _ = print!(rt; "{call}");
    status
}

fn run(alloc: Global, before: usize) -> Outcome {
    made(spend(alloc, before))?;
    worst(&[
        replays::calls(alloc),
        served::calls(alloc),
        visible::calls(alloc),
    ])
}
