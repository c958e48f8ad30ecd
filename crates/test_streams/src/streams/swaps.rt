//! Parsers that put another stream in the place of theirs.
use std::alloc::{AllocGlobal, Global};
use std::process::Abort;
use syn_parse::{Nothing, ParseStream, Paused, Result, tokens_to_parse_buffer};
use syn_punctuated::Punctuated;
use test_outcomes::is_read;
use tok_buffer::TokenBuffer;
use tok_core::{Delimiter, Ident, Span, lex};
use tok_types::token;

type Blanks = Punctuated<Nothing, token::Comma>;

fn swapped<'a>(input: ParseStream<'_, 'a>, alloc: Global, other: &'a TokenBuffer) -> Result<Ident> {
    let mut stream = tokens_to_parse_buffer(alloc, other, Span::call_site());
    let name = input.within(Delimiter::Parenthesis, |content| {
        content.swap(&mut stream);
        content.parse::<Ident>()
    });
    stream.discard();
    let (_, name) = name?;
    Ok(name)
}

fn laid(alloc: Global, number: u64, text: &str) -> Option<TokenBuffer> {
    let tokens = lex(alloc, 0, text).ok()?;
    TokenBuffer::new2(alloc, number, tokens).ok()
}

// Returns `true` if a name is parsed in a second text that is swapped into a group of the first,
// and this error is left.
fn closes_a_swap(alloc: Global, first: &str, second: &str, wanted: &str) -> bool {
    let (Some(buffer), Some(other)) = (laid(alloc, 0, first), laid(alloc, 9, second)) else {
        return false;
    };
    let mut input = tokens_to_parse_buffer(alloc, &buffer, Span::call_site());
    let name = swapped(&mut input, alloc, &other);
    let outcome = input.finish();
    name.is_ok() && is_read(alloc, outcome, wanted)
}

fn all_closed(rt: &(impl Abort + AllocGlobal), rows: &[(&str, &str, &str)]) {
    for (first, second, wanted) in rows {
        assert!(rt;
            closes_a_swap(rt.alloc(), first, second, wanted),
            "at {second}"
        );
    }
}

// The second identifier of the stream that was swapped in is left over.
#[test]
fn a_swapped_content_is_closed(rt: HostRuntime) {
    all_closed(&rt, &[("(a)", "x y", "2..3 unexpected token")]);
}

// Puts a copy of the other stream in the place of this one.
fn put<'a>(stream: ParseStream<'_, 'a>, other: Paused<'a>) {
    let mut copy = other.resume();
    stream.swap(&mut copy);
    copy.discard();
}

// Parses nothing between commas, of the other stream each time.
fn of_another<'a>(input: ParseStream<'_, 'a>, other: Paused<'a>) -> Result<Blanks> {
    Punctuated::parse_terminated_with(input, move |stream| {
        put(stream, other);
        Ok(Nothing)
    })
}

// Returns `true` if a list over `a, b` fails at the second token of a stream that is swapped in,
// and leaves that stream there.
fn fails_by_a_swap(alloc: Global, number: u64, text: &str) -> bool {
    let (Some(first), Some(second)) = (laid(alloc, 0, "a, b"), laid(alloc, number, text)) else {
        return false;
    };
    let other = tokens_to_parse_buffer(alloc, &second, Span::call_site()).pause();
    let mut input = tokens_to_parse_buffer(alloc, &first, Span::call_site());
    let outcome = of_another(&mut input, other);
    let at = input.span();
    input.discard();
    at == Span::source(0, 2, 3) && is_read(alloc, outcome, "2..3 parser made no progress")
}

fn all_swaps(rt: &(impl Abort + AllocGlobal), rows: &[(u64, &str)]) {
    for (number, text) in rows {
        assert!(rt; fails_by_a_swap(rt.alloc(), *number, text), "at {text}");
    }
}

#[test]
fn parsers_that_swap(rt: HostRuntime) {
    all_swaps(&rt, &[(9, ", y"), (0, ", y , z")]);
}
