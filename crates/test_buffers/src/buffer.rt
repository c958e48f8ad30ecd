//! Makes calls on buffers, cursors, errors and lifetimes, at places in a text.
mod cursors;
mod errors;
mod lifetimes;
mod orders;
mod visible;

use std::alloc::Global;
use tok_buffer::{Cursor, TokenBuffer};
use tok_core::lex_marked;

// A span as its source, start and end; the call site has none.
type Range = Option<(u32, usize, usize)>;

// A place in a text. `Front(n)` is after `n` tokens. `Within(m, n)` is after `n` tokens of the
// group that is after `m` tokens. `Nowhere` is the empty cursor.
enum At {
    Front(usize),
    Within(usize, usize),
    Nowhere,
}

// Lays out the trees of a marked text.
fn laid(alloc: Global, number: u64, text: &str) -> Option<TokenBuffer> {
    let stream = lex_marked(alloc, 0, text).ok()?;
    TokenBuffer::new2(alloc, number, stream).ok()
}

fn content(cursor: Cursor<'_>) -> Cursor<'_> {
    match cursor.any_group() {
        Some((content, _, _, _)) => content,
        None => Cursor::empty(),
    }
}

// Returns the place after a token. Passes a punct alone, so that both halves of `+=` are places.
fn after(cursor: Cursor<'_>) -> Cursor<'_> {
    match cursor.punct() {
        Some((_, rest)) => rest,
        None => cursor.skip().unwrap_or(Cursor::empty()),
    }
}

fn after_all(cursor: Cursor<'_>, count: usize) -> Cursor<'_> {
    let mut cursor = cursor;
    for _ in 0..count {
        cursor = after(cursor);
    }
    cursor
}

fn place<'a>(buffer: &'a TokenBuffer, at: &At) -> Cursor<'a> {
    match at {
        At::Front(count) => after_all(buffer.begin(), *count),
        At::Within(before, count) => {
            after_all(content(after_all(buffer.begin(), *before)), *count)
        }
        At::Nowhere => Cursor::empty(),
    }
}
