//! Lookaheads.
use super::laid;
use std::alloc::Global;
use syn_parse::{Lookahead1, tokens_to_parse_buffer};
use test_outcomes::memory::{Outcome, ended, expect, told, worst};
use tok_core::Span;
use tok_types::token;

/// Makes each call.
pub fn calls(alloc: Global) -> Outcome {
    let buffer = laid(alloc, "a")?;
    let input = tokens_to_parse_buffer(alloc, &buffer, Span::call_site());
    let outcomes = [told(input.lookahead1().error()), looks(input.lookahead1())];
    input.discard();
    worst(&outcomes)
}

// The first four names take no memory.
fn looks(mut lookahead: Lookahead1<'_>) -> Outcome {
    for display in ["`fn`", "`x`", "`y`", "`z`"] {
        let peeked = lookahead.peek_as(false, display);
        expect(peeked == Ok(false), "Lookahead1::peek_as")?;
    }
    let peeked = ended(lookahead.peek::<token::Comma>());
    worst(&[peeked, told(lookahead.error())])
}
