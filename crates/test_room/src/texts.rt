//! The calls of `tok_leaves` and `tok_values` on texts and literals.
use crate::{mark, push_times, times};
use std::alloc::{AllocError, Global};
use test_outcomes::memory::{Outcome, Stop, expect, made};
use tok_core::{Edition, Literal, Text, TokenStream, TokenTree, lex_source};
use tok_values::LiteralExt;

/// Copies a text of `count` letters.
pub fn copied(alloc: Global, count: usize) -> Outcome {
    let letters = times(alloc, "a", count)?;
    mark(alloc)?;
    let _text = made(Text::from_str(alloc, letters.as_str()))?;
    mark(alloc)
}

/// Returns a string of `count` letters, with room for at least so many bytes.
pub fn with_room(alloc: Global, count: usize, bytes: usize) -> Result<String, Stop> {
    let mut letters = made(String::with_capacity(alloc, bytes))?;
    push_times(&mut letters, "a", count)?;
    Ok(letters)
}

/// Makes a text of a string of `count` letters, with room for `bytes`.
pub fn moved(alloc: Global, count: usize, bytes: usize) -> Outcome {
    let letters = with_room(alloc, count, bytes)?;
    mark(alloc)?;
    let _text = made(Text::from_string(alloc, letters))?;
    mark(alloc)
}

/// Clones such a text, and drops it.
pub fn cloned(alloc: Global, count: usize, bytes: usize) -> Outcome {
    let text = made(Text::from_string(alloc, with_room(alloc, count, bytes)?))?;
    mark(alloc)?;
    let _copy = made::<_, AllocError>(text.clone())?;
    drop(text);
    mark(alloc)
}

// Returns `count` characters that a literal writes as two bytes, and then so many letters.
fn with_escapes(alloc: Global, count: usize, bytes: usize) -> Result<String, Stop> {
    let mut text = String::new(alloc);
    for number in 0..count {
        let piece = match number % 6 {
            0 => "\"",
            1 => "\\",
            2 => "\n",
            3 => "\r",
            4 => "\t",
            _ => "\0",
        };
        made(text.push_str(piece))?;
    }
    push_times(&mut text, "a", bytes)?;
    Ok(text)
}

/// Makes a string literal of `count` characters with escapes, and `bytes` without.
pub fn string(alloc: Global, count: usize, bytes: usize) -> Outcome {
    let text = with_escapes(alloc, count, bytes)?;
    mark(alloc)?;
    let _literal = made(Literal::string(alloc, text.as_str()))?;
    mark(alloc)
}

/// Makes the literal of a doc comment of this text.
pub fn doc(alloc: Global, count: usize, bytes: usize) -> Outcome {
    let text = with_escapes(alloc, count, bytes)?;
    mark(alloc)?;
    let _literal = made(Literal::doc_comment(alloc, text.as_str()))?;
    mark(alloc)
}

// Reads a literal that begins with this: `count` letters, each before an end of line that is
// dropped with the `bytes` blanks after it.
fn with_blanks(
    alloc: Global,
    opening: &str,
    count: usize,
    bytes: usize,
) -> Result<TokenStream, Stop> {
    let blanks = times(alloc, " ", bytes)?;
    let mut text = made(String::from_str(alloc, opening))?;
    for _ in 0..count {
        made(text.push_str("a\\\n"))?;
        made(text.push_str(blanks.as_str()))?;
    }
    made(text.push('"'))?;
    made(lex_source(alloc, Edition::default(), 0, text.as_str()))
}

fn only_literal(stream: &TokenStream) -> Result<&Literal, Stop> {
    match stream.trees() {
        [TokenTree::Literal(literal)] => Ok(literal),
        _ => Err(Stop::Wrong("lex_source")),
    }
}

/// Returns the value of such a string, of `count` bytes.
pub fn string_value(alloc: Global, count: usize, bytes: usize) -> Outcome {
    let stream = with_blanks(alloc, "\"", count, bytes)?;
    let literal = only_literal(&stream)?;
    mark(alloc)?;
    let value = made(literal.string_value(alloc))?;
    mark(alloc)?;
    expect(value.is_some(), "string_value")
}

/// Returns the value of such a byte string, of `count` bytes.
pub fn bytes_value(alloc: Global, count: usize, bytes: usize) -> Outcome {
    let stream = with_blanks(alloc, "b\"", count, bytes)?;
    let literal = only_literal(&stream)?;
    mark(alloc)?;
    let value = made(literal.bytes_value(alloc))?;
    mark(alloc)?;
    expect(value.is_some(), "bytes_value")
}
