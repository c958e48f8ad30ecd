//! The calls of `tok_buffer` on texts, buffers and cursors, and lifetimes.
use crate::errors;
use crate::trees::{SPARSE, writes};
use std::alloc::{AllocError, Global};
use test_outcomes::memory::{Outcome, Stop, ended, made, worst};
use tok_buffer::{Cursor, Lifetime, TokenBuffer};
use tok_core::{Edition, Span, ToTokens, lex};

/// Makes each call.
pub fn calls(alloc: Global) -> Outcome {
    worst(&[
        laid(alloc),
        texts(alloc),
        cursors(alloc),
        lifetimes(alloc),
        ended(Lifetime::new(alloc, "'r#fn", Span::call_site())),
    ])
}

fn laid(alloc: Global) -> Outcome {
    let tokens = made(lex(alloc, 0, "(a)"))?;
    ended(TokenBuffer::new2(alloc, 0, tokens))
}

// Texts of so many tokens that the buffer grows.
fn texts(alloc: Global) -> Outcome {
    let text = "abcdefghijklmnop += ('b [{1}] \"abcdefghijklmnop\")";
    let source = "#!x\n/// b\nc";
    worst(&[
        ended(TokenBuffer::from_text(alloc, 0, 0, text)),
        ended(TokenBuffer::from_marked(alloc, 0, 0, "«a «()» +»")),
        ended(TokenBuffer::from_source(alloc, 0, Edition::default(), 0, source)),
        ended(TokenBuffer::from_text(alloc, 0, 0, SPARSE)),
    ])
}

fn cursors(alloc: Global) -> Outcome {
    let buffer = made(TokenBuffer::from_text(alloc, 0, 0, "(a)"))?;
    worst(&[
        at_group(alloc, buffer.begin()),
        errors::at_cursors(alloc, buffer.begin()),
    ])
}

fn at_group(alloc: Global, cursor: Cursor<'_>) -> Outcome {
    worst(&[
        ended(cursor.token_tree(alloc)),
        ended(cursor.visible_tree(alloc)),
        ended(cursor.any_group_token(alloc)),
        ended(cursor.token_stream(alloc)),
        ended(cursor.tokens_up_to(alloc, cursor.scope_end())),
        at_leaf(alloc, cursor),
    ])
}

fn at_leaf(alloc: Global, cursor: Cursor<'_>) -> Outcome {
    match cursor.any_group() {
        Some((content, _, _, _)) => ended(content.token_tree(alloc)),
        None => Err(Stop::Wrong("Cursor::any_group")),
    }
}

fn lifetimes(alloc: Global) -> Outcome {
    let lifetime = made(Lifetime::new(alloc, "'a", Span::call_site()))?;
    let outcomes = [
        ended::<_, AllocError>(lifetime.clone()),
        writes(alloc, &lifetime),
        ended(lifetime.to_token_stream(alloc)),
        ended(lifetime.into_token_stream(alloc)),
    ];
    worst(&outcomes)
}
