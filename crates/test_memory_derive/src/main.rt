//! Makes the calls of `syn_derive` that allocate.
//!
//! The status is 0 if each allocation succeeds, 3 if one fails and so does a call, and 1 if
//! something is wrong; then the name of the call is printed. Before the calls it makes one
//! allocation for each byte of its input: so `tests/refuse_each` makes each allocation of the calls
//! fail in turn.
#![tactic(auto)]

mod parts;

use std::alloc::Global;
use std::io::Read;
use std::process::ExitCode;
use test_outcomes::memory::{Outcome, made, spend, status};

fn main(rt: HostRuntime) -> ExitCode {
    let mut bytes = [0u8; 1024];
    let Ok(count) = rt.stdin().read(&mut bytes) else {
        return ExitCode::FAILURE;
    };
    let (status, call) = status(run(rt.alloc(), count));
    let _ = print!(rt; "{call}");
    status
}

fn run(alloc: Global, before: usize) -> Outcome {
    made(spend(alloc, before))?;
    parts::calls(alloc)
}
