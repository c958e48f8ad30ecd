//! Groups, errors in the caller's words, and the end of a stream.
use super::own::{InAny, InBraces, InBrackets, InGroup, InParens, Refused, StepRefused, Within};
use super::{laid, rejects, takes};
use std::alloc::Global;
use syn_parse::tokens_to_parse_buffer;
use test_outcomes::memory::{Outcome, ended, rejected, worst};
use tok_core::{Delimiter, Ident, Span};

/// Makes each call.
pub fn calls(alloc: Global) -> Outcome {
    worst(&[
        rejects::<InParens>(alloc, "a", "parse_parens"),
        rejects::<InBraces>(alloc, "a", "parse_braces"),
        rejects::<InBrackets>(alloc, "a", "parse_brackets"),
        rejects::<InGroup>(alloc, "a", "parse_group"),
        rejects::<InAny>(alloc, "a", "parse_any_delimiter"),
        rejects::<Within>(alloc, "a", "parse_within"),
        takes::<Within>(alloc, "(abcdefghijklmnop)"),
        rejects::<Refused>(alloc, "", "ParseBuffer::error"),
        rejects::<StepRefused>(alloc, "", "StepCursor::error"),
        within(alloc),
        finish(alloc),
    ])
}

fn within(alloc: Global) -> Outcome {
    let buffer = laid(alloc, "(abcdefghijklmnop)")?;
    let mut input = tokens_to_parse_buffer(alloc, &buffer, Span::call_site());
    let found = input.within(Delimiter::Parenthesis, |content| content.parse::<Ident>());
    input.discard();
    ended(found)
}

fn finish(alloc: Global) -> Outcome {
    let buffer = laid(alloc, "a")?;
    let input = tokens_to_parse_buffer(alloc, &buffer, Span::call_site());
    rejected(input.finish(), "finish")
}
