//! Compares what parsers return with a test's rows: a value's text, or an error's range and words.
//! `memory` says how calls that allocate end, `escapes` how texts stand in lines, and `lines` how
//! programs answer them.
#![tactic(auto)]

pub mod escapes;
pub mod lines;
pub mod memory;

use std::alloc::Global;
use syn_parse::{Fault, Parse, ParseStream, Result};
use tok_buffer::Error;

/// The text of a row whose value is parsed and not looked at.
pub const READ: &str = "";

/// The parsers of a module.
pub trait Sample {
    /// Parses a text, and returns the value as text.
    fn run(&self, alloc: Global, text: &str) -> Result<String>;
}

/// Parses a `T`, and doesn't look at it.
pub fn read<T: Parse + Drop>(input: ParseStream<'_, '_>) -> Result<String> {
    let _: T = input.parse()?;
    Ok(String::new(input.allocator()))
}

fn words(alloc: Global, error: &Error) -> Option<String> {
    match error.span().as_range() {
        Some((_, start, end)) => format!(in alloc; "{start}..{end} {error}").ok(),
        None => format!(in alloc; "call {error}").ok(),
    }
}

// Returns `true` if the error's range and text are the wanted ones.
fn is_words(alloc: Global, error: &Error, wanted: &str) -> bool {
    match words(alloc, error) {
        Some(text) => text.as_str() == wanted,
        None => false,
    }
}

fn is_fault(alloc: Global, fault: Fault, wanted: &str) -> bool {
    match fault {
        Fault::Refused(error) => is_words(alloc, &error, wanted),
        Fault::Memory(_) => false,
    }
}

/// Returns `true` if an outcome is a value, when `READ` is wanted, or else this error.
pub fn is_read<T: Drop>(alloc: Global, outcome: Result<T>, wanted: &str) -> bool {
    match outcome {
        Ok(_) => wanted == READ,
        Err(fault) => is_fault(alloc, fault, wanted),
    }
}

/// Returns `true` if an outcome is this text, or this error.
pub fn is_said(alloc: Global, outcome: Result<String>, wanted: &str) -> bool {
    match outcome {
        Ok(text) => text.as_str() == wanted,
        Err(fault) => is_fault(alloc, fault, wanted),
    }
}

/// Returns the text of a value, or `read` if it is empty; or the range and the words of the error.
/// Returns `None` if an allocation fails.
pub fn said(alloc: Global, outcome: Result<String>) -> Option<String> {
    match outcome {
        Ok(text) => {
            if text.is_empty() {
                format!(in alloc; "read").ok()
            } else {
                Some(text)
            }
        }
        Err(Fault::Refused(error)) => words(alloc, &error),
        Err(Fault::Memory(_)) => None,
    }
}

/// Returns `true` if a text is parsed as this text, or rejected with this error.
pub fn says<S: Sample>(alloc: Global, sample: &S, text: &str, wanted: &str) -> bool {
    is_said(alloc, sample.run(alloc, text), wanted)
}
