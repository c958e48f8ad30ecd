//! The calls of `tok_core` on texts.
use crate::{mark, push_times};
use std::alloc::Global;
use test_outcomes::memory::{Outcome, Stop, made};
use tok_core::{Punct, Spacing, TokenStream, lex};

/// Returns a text of so many bytes: this opening, `count` names, blanks, and this closing.
pub fn names(
    alloc: Global,
    opening: &str,
    closing: &str,
    count: usize,
    bytes: usize,
) -> Result<String, Stop> {
    let mut text = made(String::from_str(alloc, opening))?;
    push_times(&mut text, "a ", count)?;
    let taken = text.len().saturating_add(closing.len());
    push_times(&mut text, " ", bytes.saturating_sub(taken))?;
    made(text.push_str(closing))?;
    Ok(text)
}

/// Lexes `count` names in a text of `bytes`.
pub fn lexed(alloc: Global, count: usize, bytes: usize) -> Outcome {
    let text = names(alloc, "", "", count, bytes)?;
    mark(alloc)?;
    let _stream = made(lex(alloc, 0, text.as_str()))?;
    mark(alloc)
}

/// Lexes a group of `count` names in a text of `bytes`.
pub fn in_group(alloc: Global, count: usize, bytes: usize) -> Outcome {
    let text = names(alloc, "(", ")", count, bytes)?;
    mark(alloc)?;
    let _stream = made(lex(alloc, 0, text.as_str()))?;
    mark(alloc)
}

/// Appends `count` puncts to a stream with room for as many.
pub fn appended(alloc: Global, count: usize) -> Outcome {
    let Some(plus) = Punct::new('+', Spacing::Alone) else {
        return Err(Stop::Wrong("Punct::new"));
    };
    mark(alloc)?;
    let mut stream = made(TokenStream::with_capacity(alloc, count))?;
    for _ in 0..count {
        made(stream.append(plus.into()))?;
    }
    mark(alloc)
}
