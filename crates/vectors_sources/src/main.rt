//! Reads Rust source files by `lex_source`, or straight into a buffer.
//!
//! The first word is `tokens`, which prints the tokens of each file or why it is rejected; `count`,
//! which prints how many trees all files have; `buffer`, which prints how many files are read into
//! a buffer; or `again`, which prints the files whose printed trees are read as other trees. The
//! second word is an edition, and the others are files.
#![tactic(auto)]

mod show;

use anyhow::{Context, Result, bail};
use show::push_stream;
use std::alloc::Global;
use std::{env, fs};
use tok_buffer::TokenBuffer;
use tok_core::{Edition, LexFault, TokenStreamHelper, lex_source};

fn main(rt: HostRuntime) -> Result<()> {
    let mut words = env::args(&rt)?;
    let _ = words.next();
    let goal = words.next().context("no word that says what to print")?;
    let edition = words.next().context("no edition")?;
    let edition = edition_of(edition.as_str()).context("no such edition")?;
    match goal.as_str() {
        "tokens" => {
            for file in words {
                let text = fs::read_to_string(&rt, file.as_str()).context("reading a file")?;
                rt.print(tokens(rt.alloc(), edition, file.as_str(), text.as_str())?)?;
            }
        }
        "count" => {
            let mut trees = 0usize;
            for file in words {
                let text = fs::read_to_string(&rt, file.as_str()).context("reading a file")?;
                trees = trees.saturating_add(count(rt.alloc(), edition, text.as_str()));
            }
            println!(rt; "{trees}")?;
        }
        "buffer" => {
            let mut read = 0usize;
            for file in words {
                let text = fs::read_to_string(&rt, file.as_str()).context("reading a file")?;
                let buffer = TokenBuffer::from_source(rt.alloc(), 0, edition, 0, text.as_str());
                read = read.saturating_add(usize::from(buffer.is_ok()));
            }
            println!(rt; "{read}")?;
        }
        "again" => {
            for file in words {
                let text = fs::read_to_string(&rt, file.as_str()).context("reading a file")?;
                if !is_read_again(rt.alloc(), edition, text.as_str())? {
                    println!(rt; "{file}")?;
                }
            }
        }
        _ => bail!("neither tokens, count, buffer nor again"),
    }
    Ok(())
}

// Returns the edition with this name.
fn edition_of(name: &str) -> Option<Edition> {
    match name {
        "2015" => Some(Edition::Edition2015),
        "2018" => Some(Edition::Edition2018),
        "2021" => Some(Edition::Edition2021),
        "2024" => Some(Edition::Edition2024),
        _ => None,
    }
}

// Returns the name of a file, and a line for each of its tokens, or the line of its error.
fn tokens(alloc: Global, edition: Edition, file: &str, text: &str) -> Result<String> {
    let mut lines = format!(in alloc; "{file}\n")?;
    match lex_source(alloc, edition, 0, text) {
        Ok(stream) => push_stream(&mut lines, &stream)?,
        Err(LexFault::Refused(error)) => {
            let number = error.number();
            let at = error.at();
            let line = format!(in alloc; "rejected {at} L{number} {error}\n")?;
            lines.push_str(line.as_str())?;
        }
        Err(LexFault::Memory) => bail!("out of memory"),
    }
    Ok(lines)
}

// Returns `true` if the printed trees of a text are read as these trees again, or if the text is rejected. A space in front keeps
// `#!` from being read as the start of a script.
fn is_read_again(alloc: Global, edition: Edition, text: &str) -> Result<bool> {
    let Ok(stream) = lex_source(alloc, edition, 0, text) else {
        return Ok(true);
    };
    let printed = format!(in alloc; " {stream}")?;
    match lex_source(alloc, edition, 0, printed.as_str()) {
        Ok(again) => Ok(TokenStreamHelper(&stream) == TokenStreamHelper(&again)),
        Err(_) => Ok(false),
    }
}

// Counts the trees outside all groups. A text that is rejected has none.
fn count(alloc: Global, edition: Edition, text: &str) -> usize {
    match lex_source(alloc, edition, 0, text) {
        Ok(stream) => stream.trees().len(),
        Err(_) => 0,
    }
}
