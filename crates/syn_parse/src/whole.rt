//! Functions that parse whole token streams and whole texts.
ghost use Rattle.std.specs.Str.{chars};
ghost use Rattle.tok_leaves.specs.Spans.{call_site};
ghost use Rattle.syn_parse.specs.Parsers.{ParsesText, ParsesWhole, whole_stream};
ghost use Rattle.syn_parse.specs.Sources.{KeepsSource, KeepsTextOf, ParsesSource, ParsesTextOf};
ghost use Rattle.syn_parse.specs.Takings.{HasOneMessage, IsTold, KeepsBoth, KeepsText, KeepsWhole, KeepsWords};

use crate::fault::Result;
use crate::parse::Parse;
use crate::parser::{explained, source_stream, unread};
use crate::stream::tokens_to_parse_buffer;
use std::alloc::Global;
use tok_buffer::TokenBuffer;
use tok_core::{Edition, Span, TokenStream};

/// Parses all tokens of a `TokenStream` as a value of type `T`.
///
/// Returns the error of the parser, or an error if the parser leaves a token unread.
///
/// # Examples
///
/// ```rust
/// let call: Call = parse2(alloc, tokens)?;
/// ```
#[tactic(auto, using(crate::proofs::WholeTakes::whole_keeps))]
pub fn parse2<T: Parse + Drop>(alloc: Global, tokens: TokenStream) -> Result<T>
    ensures reads { ParsesWhole T.parses (whole_stream tokens call_site) result }
    ensures takes { KeepsWhole T.takes tokens call_site result }
{
    let buffer = TokenBuffer::new2(alloc, 0, tokens)?;
    let mut input = tokens_to_parse_buffer(alloc, &buffer, Span::call_site());
    let parsed = T::parse(&mut input);
    input.finish_parsed(parsed)
}

/// Lexes `text`, and parses all of its tokens in the same way as `parse2`.
///
/// The spans refer to source number 0. If the lexer rejects the text, the error has the span and
/// the text of the lexer's error.
///
/// # Examples
///
/// ```rust
/// let call: Call = parse_str(alloc, "pub run(a, b,)")?;
/// ```
pub fn parse_str<T: Parse + Drop>(alloc: Global, text: &str) -> Result<T>
    ensures reads { ParsesText T.parses (chars text.now) result }
    ensures takes { KeepsText T.takes (chars text.now) result }
    ensures once { HasOneMessage T.takes result }
{
    match TokenBuffer::from_text(alloc, 0, 0, text) {
        Ok(buffer) => {
            let mut input = tokens_to_parse_buffer(alloc, &buffer, Span::call_site());
            let parsed = T::parse(&mut input);
            input.finish_parsed(parsed)
        }
        Err(fault) => Err(unread(alloc, fault)),
    }
}

/// Lexes `text`, and parses all of its tokens in the same way as `parse2`.
///
/// The spans refer to source number `number`. An error at the end of the text has an empty span.
/// This span is after the last token, or at the start of the text if there are no tokens. If the
/// lexer rejects the text, the error has the span and the description that `LexError::explain`
/// returns.
///
/// # Examples
///
/// ```rust
/// let call: Call = parse_text(alloc, 0, text)?;
/// ```
pub fn parse_text<T: Parse + Drop>(alloc: Global, number: u32, text: &str) -> Result<T>
    ensures reads { ParsesTextOf number T.parses (chars text.now) result }
    ensures takes { KeepsTextOf number T.takes (chars text.now) result }
    ensures once { HasOneMessage T.takes result }
{
    match TokenBuffer::from_text(alloc, 0, number, text) {
        Ok(buffer) => {
            let mut input = source_stream(alloc, &buffer, number);
            let parsed = T::parse(&mut input);
            input.finish_parsed(parsed)
        }
        Err(fault) => Err(explained(alloc, text, fault)),
    }
}

/// Lexes a whole Rust source file of the edition `edition`, and parses all of its tokens in the
/// same way as `parse2`.
///
/// The call lexes the text by the rules of `lex_source`, and the spans refer to source number 0.
/// Errors of the lexer, and errors at the end of the text, have the same spans as in `parse_text`.
pub fn parse_source<T: Parse + Drop>(alloc: Global, edition: Edition, text: &str) -> Result<T>
    ensures reads { ParsesSource edition T.parses (chars text.now) result }
    ensures takes { KeepsSource edition T.takes (chars text.now) result }
    ensures once { HasOneMessage T.takes result }
{
    match TokenBuffer::from_source(alloc, 0, edition, 0, text) {
        Ok(buffer) => {
            let mut input = source_stream(alloc, &buffer, 0);
            let parsed = T::parse(&mut input);
            input.finish_parsed(parsed)
        }
        Err(fault) => Err(explained(alloc, text, fault)),
    }
}

/// Parses `left` and `right` as values of the same type, and returns both results.
///
/// Suppose that the streams differ only in invisible groups, that every invisible group contains a
/// visible tree, and that no allocation fails. Then either both results are values, or both are
/// errors. Two values agree in everything that the contract of `T` describes.
///
/// # Requires
///
/// The contract of `T::parse` must state which tokens it reads.
#[tactic(auto, using(crate::proofs::WholeTakes::both_keep, crate::proofs::WholeTakes::words_keep))]
pub fn parse_both<T: Parse + Drop>(
    alloc: Global,
    left: TokenStream,
    right: TokenStream,
) -> (Result<T>, Result<T>)
    requires { IsTold T.takes }
    ensures reads_left { ParsesWhole T.parses (whole_stream left call_site) result.0 }
    ensures reads_right { ParsesWhole T.parses (whole_stream right call_site) result.1 }
    ensures left { KeepsWhole T.takes left call_site result.0 }
    ensures right { KeepsWhole T.takes right call_site result.1 }
    ensures agree { KeepsBoth T.takes left right result.0 result.1 }
    ensures words { KeepsWords T.takes left right result.0 result.1 }
{
    (parse2(alloc, left), parse2(alloc, right))
}
