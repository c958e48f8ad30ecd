//! Reads one or two marked texts and a list of commands from standard input, and prints the reports
//! of running the commands.
#![tactic(auto)]

use replay_program::serve;
use std::process::ExitCode;

fn main(rt: HostRuntime) -> ExitCode {
    let mut input = rt.stdin();
    let mut output = rt.stdout();
    ExitCode::from(serve(rt.alloc(), &mut input, &mut output))
}
