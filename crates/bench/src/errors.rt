//! Shows an error at each `;` of a text, with its line. The first line of the input says how; the
//! text is the rest.
//!
//! `bench/errors` compares showing them one by one with showing them by an index.
use anyhow::{Context, Result, bail};
use std::alloc::Global;
use tok_carets::{IndexedSource, Source};
use tok_core::Span;

const WORDS: &str = "expected a value";

/// Returns how many bytes all errors take as they are shown.
pub fn count(alloc: Global, input: &str) -> Result<usize> {
    let (goal, text) = input
        .split_once('\n')
        .context("no line that says how to show errors")?;
    let source = Source {
        name: "settings",
        number: 0,
        text,
    };
    match goal {
        "none" => Ok(text.len()),
        "source" => each_alone(alloc, source),
        "indexed" => each_indexed(alloc, source),
        _ => bail!("neither none, source nor indexed"),
    }
}

fn each_alone(alloc: Global, source: Source<'_>) -> Result<usize> {
    let mut size = 0usize;
    for (at, byte) in source.text.bytes().enumerate() {
        if byte == b';' {
            let shown = source.show(alloc, Span::source(0, at, at), WORDS)?;
            size = size.saturating_add(shown.len());
        }
    }
    Ok(size)
}

fn each_indexed(alloc: Global, source: Source<'_>) -> Result<usize> {
    let mut size = 0usize;
    let indexed = IndexedSource::new(alloc, source)?;
    for (at, byte) in source.text.bytes().enumerate() {
        if byte == b';' {
            let shown = indexed.show(alloc, Span::source(0, at, at), WORDS)?;
            size = size.saturating_add(shown.len());
        }
    }
    Ok(size)
}
