//! Reads configurations from standard input, with a line `---` between two configurations.
//!
//! Prints each configuration in its normal form, or its error with the line and carets. The exit
//! status is 0, or 1 if a configuration is rejected, or 2 if a read, a write or an allocation
//! fails.
#![tactic(auto)]

use example_config::{Shown, parse_config};
use std::io;
use std::io::Read;
use std::process::ExitCode;
use syn_parse::Fault;
use tok_carets::Source;

fn main(rt: HostRuntime) -> ExitCode {
    match check_all(&rt) {
        Ok(true) => ExitCode::SUCCESS,
        Ok(false) => ExitCode::from(1),
        Err(_) => ExitCode::from(2),
    }
}

// Prints each text in turn, and returns `true` if none is rejected.
fn check_all(rt: &HostRuntime) -> io::Result<bool> {
    let mut input = String::new(rt.alloc());
    rt.stdin().read_to_string(&mut input)?;
    let mut accepted = true;
    for text in input.as_str().split("---\n") {
        if !check(rt, text)? {
            accepted = false;
        }
        println!(rt; "---")?;
    }
    Ok(accepted)
}

// Prints a text in its normal form, or its error. Returns `true` if it is not rejected.
fn check(rt: &HostRuntime, text: &str) -> io::Result<bool> {
    match parse_config(rt.alloc(), 0, text) {
        Ok(config) => {
            print!(rt; "{}", Shown(&config))?;
            Ok(true)
        }
        Err(Fault::Refused(error)) => {
            let source = Source {
                name: "config",
                number: 0,
                text,
            };
            print!(rt; "{}", source.show_error(rt.alloc(), &error)?)?;
            Ok(false)
        }
        Err(Fault::Memory(error)) => Err(error.into()),
    }
}
