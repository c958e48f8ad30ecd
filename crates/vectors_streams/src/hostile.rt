//! Parsers that stay, go to the empty cursor, or fail after their peek.
use std::alloc::Global;
use syn_parse::{Parse, ParseStream, Parser, Result};
use test_outcomes::read;
use tok_buffer::Cursor;
use tok_core::{Span, TokenStream};
use tok_types::token::Token;

/// Parses a text by the parser of this name, if there is one here.
pub fn parsed(alloc: Global, parser: &str, text: &str) -> Option<Result<String>> {
    let returned = match parser {
        "Never" => read::<Option<Never>>.parse_str(alloc, text),
        "Stays" => stays.parse_str(alloc, text),
        "Ends" => ends.parse_str(alloc, text),
        _ => return None,
    };
    Some(returned)
}

// Steps to the stream's own cursor, and returns whether it stayed.
fn stays(input: ParseStream<'_, '_>) -> Result<String> {
    let start = input.cursor();
    input.step(|from| Ok(((), from.cursor())))?;
    let stayed = input.cursor() == start;
    let _: TokenStream = input.parse()?;
    Ok(format!(in input.allocator(); "{stayed}")?)
}

// Steps to the empty cursor, and returns whether the stream is empty there and has the span of its
// scope.
fn ends(input: ParseStream<'_, '_>) -> Result<String> {
    input.step(|_| Ok(((), Cursor::empty())))?;
    let has_ended = input.is_empty() && input.span() == Span::call_site();
    Ok(format!(in input.allocator(); "{has_ended}")?)
}

// Its peek is always true, and its parse always fails.
#[derive(Drop)]
struct Never;

impl Token for Never {
    fn peek(_cursor: Cursor<'_>) -> bool {
        true
    }

    fn display() -> &'static str {
        "never"
    }
}

impl Parse for Never {
    fn parse(input: ParseStream<'_, '_>) -> Result<Self> {
        Err(input.error("never"))
    }
}
