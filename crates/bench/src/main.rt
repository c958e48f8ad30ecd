//! Makes calls of the library on standard input, for the scripts in `bench/`, which count what they
//! take. The word after the program's name says which: `calls`, `depths`, `errors` or `reading`.
#![tactic(auto)]

mod calls;
mod depths;
mod errors;
mod reading;

use anyhow::{Context, Result, bail};
use std::{env, io};

fn main(rt: HostRuntime) -> Result<()> {
    let alloc = rt.alloc();
    let mut words = env::args(&rt)?;
    let _ = words.next();
    let goal = words.next().context("no word that says what to call")?;
    let input = io::read_to_string(alloc, rt.stdin())?;
    let count = match goal.as_str() {
        "calls" => calls::count(alloc, input.as_str())?,
        "depths" => depths::count(alloc, input.as_str())?,
        "errors" => errors::count(alloc, input.as_str())?,
        "reading" => reading::count(alloc, input.as_str())?,
        _ => bail!("neither calls, depths, errors nor reading"),
    };
    println!(rt; "{count}")?;
    Ok(())
}
