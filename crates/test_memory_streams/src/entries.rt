//! The calls of `entry_outcomes`.
use arguments::{Arguments, parse_to_end};
use entry_outcomes::{Answer, EntriesFault, parse_entries, read_entries};
use std::alloc::Global;
use syn_parse::{ParseStream, Result};
use test_outcomes::memory::{Outcome, Stop, ended, made, worst};
use tok_core::lex;
use tok_entries::{Entry, write_entries};

/// Makes each call.
pub fn calls(alloc: Global) -> Outcome {
    worst(&[taken(alloc), told(alloc)])
}

// Writes the entries of a text, and its leaves' texts.
fn written(alloc: Global, text: &str) -> std::result::Result<(Vec<Entry>, String), Stop> {
    let mut entries = Vec::new(alloc);
    let mut texts = String::new(alloc);
    let stream = made(lex(alloc, 0, text))?;
    made(write_entries(&mut entries, &mut texts, &stream))?;
    Ok((entries, texts))
}

// Of a function of another crate nothing is known where it is passed by name.
fn read(input: ParseStream<'_, '_>) -> Result<Arguments> {
    parse_to_end(input)
}

fn taken(alloc: Global) -> Outcome {
    let (entries, texts) = written(alloc, "a, b = 1, c(d, e = \"x\"),")?;
    let (entries, texts) = (entries.as_slice(), texts.as_bytes());
    ended(read_entries(alloc, entries, texts))?;
    ended(parse_entries(alloc, entries, texts, read))
}

// An error, and the answer that has its messages.
fn told(alloc: Global) -> Outcome {
    let (entries, texts) = written(alloc, "a b")?;
    match parse_entries(alloc, entries.as_slice(), texts.as_bytes(), read) {
        Ok(_) | Err(EntriesFault::Malformed(..)) => Err(Stop::Wrong("parse_entries")),
        Err(EntriesFault::Memory) => Err(Stop::Refused),
        Err(fault) => ended(Answer::<u8>::of_fault(alloc, fault)),
    }
}
