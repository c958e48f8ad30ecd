//! Runs the stored cases through `serve` in memory. It names each case that fails, and the last
//! line counts them.
#![tactic(auto)]

mod case;

use anyhow::{Context, Result, ensure};
use case::{Case, first_case};
use replay_program::serve;
use std::alloc::Global;
use std::fs;

const CASES: &str = "replay.cases";

fn main(rt: HostRuntime) -> Result<()> {
    let bytes = fs::read(&rt, CASES).context("reading the cases")?;
    let mut rest = bytes.as_slice();
    let mut passed = 0u32;
    let mut failed = 0u32;
    while !rest.is_empty() {
        let (case, after) = first_case(rest).context("a case is malformed")?;
        if passes(rt.alloc(), &case) {
            passed = passed.saturating_add(1);
        } else {
            failed = failed.saturating_add(1);
            let name = case.name;
            println!(rt; "failed {name}")?;
        }
        rest = after;
    }
    println!(rt; "{passed} passed, {failed} failed")?;
    ensure!(failed == 0, "{failed} failed");
    Ok(())
}

// Returns `true` if the program writes all of the case's output and ends with its status.
fn passes(alloc: Global, case: &Case<'_>) -> bool {
    let mut input = case.input;
    let mut output = Vec::new(alloc);
    let status = serve(alloc, &mut input, &mut output);
    status == case.status && output.as_slice() == case.output
}
