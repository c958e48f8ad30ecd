//! The jobs that users wait for, on inputs that are made from a number. `bench/run` times them.
//!
//! The words are a job, a number, and how many inputs the job gets. Each number gives other inputs
//! of the same kinds and sizes. The output is a digest of all results.
#![tactic(auto)]

mod code;
mod commands;
mod digest;
mod errors;
mod items;
mod parser;
mod pen;
mod random;
mod sources;
mod trees;

use anyhow::{Context, Result, bail};
use digest::Digest;
use std::alloc::Global;
use std::env;

fn main(rt: HostRuntime) -> Result<()> {
    let mut words = env::args(&rt)?;
    let _ = words.next();
    let job = words.next().context("no job")?;
    let seed = words
        .next()
        .context("no number that the inputs are made from")?;
    let seed: u32 = seed.parse().ok().context("no number below 2^32")?;
    let rounds = words.next().context("no count of inputs")?;
    let rounds: usize = rounds.parse().ok().context("no number of inputs")?;
    let mut digest = Digest::new();
    match job.as_str() {
        "each" => {
            for job in [
                "sources", "parser", "commands", "layouts", "trees", "errors",
            ] {
                run(rt.alloc(), job, u64::from(seed), rounds, &mut digest)?;
            }
        }
        job => run(rt.alloc(), job, u64::from(seed), rounds, &mut digest)?,
    }
    let (count, value) = digest.finish();
    println!(rt; "{count} {value}")?;
    Ok(())
}

fn run(alloc: Global, job: &str, seed: u64, rounds: usize, digest: &mut Digest) -> Result<()> {
    match job {
        "sources" => sources::run(alloc, seed, rounds, digest),
        "parser" => parser::run(alloc, seed, rounds, digest),
        "commands" => commands::run(alloc, seed, rounds, digest),
        "layouts" => commands::run_both(alloc, seed, rounds, digest),
        "trees" => trees::run(alloc, seed, rounds, digest),
        "errors" => errors::run(alloc, seed, rounds, digest),
        _ => bail!("no such job"),
    }
}
