//! Programs that answer their input line by line.
use anyhow::{Context, Result};
use std::alloc::Global;
use std::io;

/// Prints what `answer` returns for each line of the input. Prints a line that begins with `#` as
/// it stands.
///
/// Returns an error if `answer` returns `None`.
pub fn print_answers<F>(rt: &HostRuntime, answer: F) -> Result<()>
where
    F: Fn(Global, &str) -> Option<String>,
    requires { F.IsAlwaysCallable answer }
{
    let alloc = rt.alloc();
    let input = io::read_to_string(alloc, rt.stdin())?;
    for line in input.lines() {
        if line.starts_with('#') {
            println!(rt; "{line}")?;
        } else {
            let answer = answer(alloc, line).context("a line is no case")?;
            println!(rt; "{answer}")?;
        }
    }
    Ok(())
}
