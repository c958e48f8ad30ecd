//! Lists the structs, enums and unions of Rust source files, or their attributes.
#![tactic(auto)]

mod attribute;
mod attribute_lines;
mod find;
mod item_lines;
mod items;
mod listing;
mod options;
mod position;
mod scan;
mod show;
mod source;

use clap::Error;
use listing::{Mode, list};
use options::{command, edition, error_style, mode};
use source::{ErrorStyle, Listing};
use std::process::ExitCode;
use std::{env, fs, io};
use tok_core::Edition;

// The exit statuses, those of grep.
const FOUND: u8 = 0;

const NONE_FOUND: u8 = 1;

const FAILED: u8 = 2;

fn main(rt: HostRuntime) -> ExitCode {
    let status = match run(&rt) {
        Ok(status) => status,
        Err(error) => {
            let _ = eprintln!(rt; "outline: {error}");
            FAILED
        }
    };
    ExitCode::from(status)
}

// Reads the command line, and lists the files that it names.
fn run(rt: &HostRuntime) -> io::Result<u8> {
    let mut words = Vec::new(rt.alloc());
    for word in env::args(rt)? {
        words.push(word)?;
    }
    let matches = match matches(rt, words.as_slice()) {
        Ok(matches) => matches,
        Err(error) => {
            error.print(rt)?;
            return Ok(if error.use_stderr() { FAILED } else { FOUND });
        }
    };
    list_files(
        rt,
        mode(&matches),
        edition(&matches),
        error_style(&matches),
        matches.get_strs("FILE").unwrap_or(&[]),
    )
}

fn matches<'a>(rt: &HostRuntime, words: &'a [String]) -> Result<clap::ArgMatches<'a>, Error> {
    command(rt.alloc())?.try_get_matches_from(words)
}

// Lists each file, and returns the status.
fn list_files(
    rt: &HostRuntime,
    mode: Mode,
    edition: Edition,
    style: ErrorStyle,
    files: &[&str],
) -> io::Result<u8> {
    let mut status = NONE_FOUND;
    for file in files {
        let Listing {
            lines,
            errors,
            is_found,
        } = list_file(rt, mode, edition, style, file)?;
        rt.print(lines)?;
        if !errors.is_empty() {
            status = FAILED;
        } else if is_found && status == NONE_FOUND {
            status = FOUND;
        }
        rt.eprint(errors)?;
    }
    Ok(status)
}

// Lists a file, or says why it can't be read.
fn list_file(
    rt: &HostRuntime,
    mode: Mode,
    edition: Edition,
    style: ErrorStyle,
    file: &str,
) -> io::Result<Listing> {
    match fs::read(rt, file) {
        Ok(bytes) => Ok(list(rt.alloc(), mode, edition, style, file, bytes.as_slice())?),
        Err(error) => Ok(Listing {
            lines: String::new(rt.alloc()),
            errors: format!(in rt.alloc(); "{file}: {error}\n")?,
            is_found: false,
        }),
    }
}
