//! The calls of `tok_buffer` on texts, cursors and errors.
use crate::texts::with_room;
use crate::trees::names;
use crate::{mark, push_times, times};
use std::alloc::Global;
use test_outcomes::memory::{Outcome, Stop, made};
use tok_buffer::{Error, TokenBuffer};
use tok_core::{Span, lex_marked};
use tok_entries::{LexedEntries, write_entries};

/// Reads `count` names in a text of `bytes` into a buffer.
pub fn read(alloc: Global, count: usize, bytes: usize) -> Outcome {
    let text = names(alloc, "", "", count, bytes)?;
    mark(alloc)?;
    let _buffer = made(TokenBuffer::from_text(alloc, 0, 0, text.as_str()))?;
    mark(alloc)
}

/// Reads `count` names in a text of `bytes` into entries.
pub fn lexed(alloc: Global, count: usize, bytes: usize) -> Outcome {
    let text = names(alloc, "", "", count, bytes)?;
    mark(alloc)?;
    let _lexed = made(LexedEntries::from_text(alloc, text.as_str()))?;
    mark(alloc)
}

/// Reads the entries of `count` names, and of so many empty invisible groups, into a buffer.
pub fn accepted(alloc: Global, count: usize, groups: usize) -> Outcome {
    let mut text = times(alloc, "a ", count)?;
    push_times(&mut text, "«» ", groups)?;
    let stream = made(lex_marked(alloc, 0, text.as_str()))?;
    let mut entries = Vec::new(alloc);
    let mut texts = String::new(alloc);
    made(write_entries(&mut entries, &mut texts, &stream))?;
    mark(alloc)?;
    let (entries, texts) = (entries.as_slice(), texts.as_str());
    let _buffer = made(TokenBuffer::from_entries(alloc, 0, entries, texts))?;
    mark(alloc)
}

/// Copies `count` names out of a buffer.
pub fn flat(alloc: Global, count: usize) -> Outcome {
    let text = times(alloc, "a ", count)?;
    let buffer = made(TokenBuffer::from_text(alloc, 0, 0, text.as_str()))?;
    mark(alloc)?;
    let _stream = made(buffer.begin().token_stream(alloc))?;
    mark(alloc)
}

/// Copies the first `count` names of twice as many out of a buffer.
pub fn up_to(alloc: Global, count: usize) -> Outcome {
    let text = times(alloc, "a a ", count)?;
    let buffer = made(TokenBuffer::from_text(alloc, 0, 0, text.as_str()))?;
    let start = buffer.begin();
    let mut end = start;
    for _ in 0..count {
        let Some(after) = end.skip_tree() else {
            return Err(Stop::Wrong("Cursor::skip_tree"));
        };
        end = after;
    }
    mark(alloc)?;
    let _stream = made(start.tokens_up_to(alloc, end))?;
    mark(alloc)
}

// Returns this text inside `count` groups.
fn inside(
    alloc: Global,
    opening: &str,
    text: &str,
    closing: &str,
    count: usize,
) -> Result<TokenBuffer, Stop> {
    let mut whole = times(alloc, opening, count)?;
    made(whole.push_str(text))?;
    push_times(&mut whole, closing, count)?;
    made(TokenBuffer::from_marked(alloc, 0, 0, whole.as_str()))
}

/// Copies a name inside `count` groups.
pub fn deep(alloc: Global, count: usize) -> Outcome {
    let buffer = inside(alloc, "(", "a", ")", count)?;
    mark(alloc)?;
    let _stream = made(buffer.begin().token_stream(alloc))?;
    mark(alloc)
}

/// Copies what is left after the first of two names inside `count` invisible groups.
pub fn entered(alloc: Global, count: usize) -> Outcome {
    let buffer = inside(alloc, "«", "a b", "»", count)?;
    match buffer.begin().ident() {
        Some((_, after)) => {
            mark(alloc)?;
            let _stream = made(after.token_stream(alloc))?;
            mark(alloc)
        }
        None => Err(Stop::Wrong("Cursor::ident")),
    }
}

/// Makes an error of a string of `count` letters, with room for `bytes`. The string counts too.
pub fn error(alloc: Global, count: usize, bytes: usize) -> Outcome {
    mark(alloc)?;
    let words = with_room(alloc, count, bytes)?;
    let _error = made(Error::from_string(alloc, Span::call_site(), words))?;
    mark(alloc)
}
