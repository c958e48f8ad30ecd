//! The trait `Parser`, which runs a parser over a whole text or a whole stream of tokens.
ghost use Rattle.std.specs.Prelude.{◌≡◌, Result};
ghost use Rattle.std.specs.Str.{chars};
ghost use Rattle.std.specs.Fn.{FnOnceReturnsAtMut, FnOnceTakesAtMut};
ghost use Rattle.tok_buffer.specs.Place.{start};
ghost use Rattle.tok_leaves.specs.Spans.{call_site};
ghost use Rattle.syn_parse.specs.Parsers.{IsExplained, IsUnread, OnText, ParsesText, ParsesWhole, whole_stream};
ghost use Rattle.syn_parse.specs.Sources.{OnSource, OnTextOf, ParsesSource, ParsesTextOf, end_of_span, end_of_tokens};
ghost use Rattle.syn_parse.specs.State.{State, fresh};
ghost use Rattle.syn_parse.specs.declared.fault.Fault.{Fault};

use crate::fault::{Fault, Result};
use crate::stream::{ParseBuffer, ParseStream, tokens_to_parse_buffer};
use std::alloc::{AllocError, Global};
use tok_buffer::{Error, TokenBuffer};
use tok_core::{Edition, LexFault, Span, TokenStream};

/// A parser that can run over a whole text or a whole stream of tokens.
///
/// Every function from a `ParseStream` to a `Result` is a parser.
///
/// # Examples
///
/// ```rust
/// let name = Ident::parse.parse_str(alloc, "x")?;
/// ```
pub trait Parser: Sized {
    /// The type of the value that the parser returns.
    type Output;

    // Relates the stream before a call, its result and the stream after it.
    ghost parses: { Self → State → Result Self.Output Fault → State → Type 0 };

    // The parser may be called on this stream.
    ghost callable: { Self → State → Type 0 };

    /// Parses all tokens of a `TokenStream`.
    ///
    /// Returns the error of the parser, or an error if the parser leaves a token unread.
    ///
    /// # Requires
    ///
    /// The parser must be callable on the stream of `tokens`.
    fn parse2(self, alloc: Global, tokens: TokenStream) -> Result<Self::Output>
        requires { callable self (whole_stream tokens call_site) }
        ensures { ParsesWhole (parses self) (whole_stream tokens call_site) result };

    /// Lexes `text`, and parses all of its tokens in the same way as `parse2`.
    ///
    /// The spans refer to source number 0.
    ///
    /// # Requires
    ///
    /// If `text` can be lexed, the parser must be callable on the stream of its tokens.
    fn parse_str(self, alloc: Global, text: &str) -> Result<Self::Output>
        requires { OnText (callable self) (chars text.now) }
        ensures { ParsesText (parses self) (chars text.now) result };

    /// Lexes `text`, and parses all of its tokens in the same way as `parse2`.
    ///
    /// The spans refer to source number `number`. An error at the end of the text has an empty
    /// span. This span is after the last token, or at the start of the text if there are no tokens.
    /// If the lexer rejects the text, the error has the span and the description that
    /// `LexError::explain` returns.
    ///
    /// # Requires
    ///
    /// If `text` can be lexed, the parser must be callable on the stream of its tokens.
    fn parse_text(self, alloc: Global, number: u32, text: &str) -> Result<Self::Output>
        requires { OnTextOf number (callable self) (chars text.now) }
        ensures { ParsesTextOf number (parses self) (chars text.now) result };

    /// Lexes a whole Rust source file of the edition `edition`, and parses all of its tokens in the
    /// same way as `parse2`.
    ///
    /// The call lexes the text by the rules of `lex_source`, and the spans refer to source number
    /// 0. Errors of the lexer, and errors at the end of the text, have the same spans as in
    /// `parse_text`.
    ///
    /// # Requires
    ///
    /// If `text` can be lexed, the parser must be callable on the stream of its tokens.
    fn parse_source(self, alloc: Global, edition: Edition, text: &str) -> Result<Self::Output>
        requires { OnSource edition (callable self) (chars text.now) }
        ensures { ParsesSource edition (parses self) (chars text.now) result };

    /// Parses all tokens of a `TokenStream` in the same way as `parse2`. An error at the end of the
    /// stream has the span `scope`.
    ///
    /// # Requires
    ///
    /// The parser must be callable on the stream of `tokens`.
    fn parse_scoped(self, alloc: Global, scope: Span, tokens: TokenStream) -> Result<Self::Output>
        requires { callable self (whole_stream tokens scope) }
        ensures { ParsesWhole (parses self) (whole_stream tokens scope) result };
}

impl<T: Drop, F> Parser for F
where
    F: FnOnce(ParseStream<'_, '_>) -> Result<T>,
{
    type Output = T;

    ghost parses = { λ f s r t. FnOnceReturnsAtMut F.FnOnce f s r t };

    ghost callable = { λ f s. FnOnceTakesAtMut F.FnOnce f s };

    fn parse2(self, alloc: Global, tokens: TokenStream) -> Result<T> {
        self.parse_scoped(alloc, Span::call_site(), tokens)
    }

    fn parse_str(self, alloc: Global, text: &str) -> Result<T> {
        match TokenBuffer::from_text(alloc, 0, 0, text) {
            Ok(buffer) => {
                let mut input = tokens_to_parse_buffer(alloc, &buffer, Span::call_site());
                let parsed = self(&mut input);
                input.finish_parsed(parsed)
            }
            Err(fault) => Err(unread(alloc, fault)),
        }
    }

    fn parse_text(self, alloc: Global, number: u32, text: &str) -> Result<T> {
        match TokenBuffer::from_text(alloc, 0, number, text) {
            Ok(buffer) => {
                let mut input = source_stream(alloc, &buffer, number);
                let parsed = self(&mut input);
                input.finish_parsed(parsed)
            }
            Err(fault) => Err(explained(alloc, text, fault)),
        }
    }

    fn parse_source(self, alloc: Global, edition: Edition, text: &str) -> Result<T> {
        match TokenBuffer::from_source(alloc, 0, edition, 0, text) {
            Ok(buffer) => {
                let mut input = source_stream(alloc, &buffer, 0);
                let parsed = self(&mut input);
                input.finish_parsed(parsed)
            }
            Err(fault) => Err(explained(alloc, text, fault)),
        }
    }

    fn parse_scoped(self, alloc: Global, scope: Span, tokens: TokenStream) -> Result<T> {
        let buffer = TokenBuffer::new2(alloc, 0, tokens)?;
        let mut input = tokens_to_parse_buffer(alloc, &buffer, scope);
        let parsed = self(&mut input);
        input.finish_parsed(parsed)
    }
}

// Creates a stream over the tokens of a source. Its end is behind the last of them.
#[tactic(auto, using(crate::proofs::TokenEnds::tokens_end))]
pub(crate) fn source_stream<'a>(
    alloc: Global,
    tokens: &'a TokenBuffer,
    number: u32,
) -> ParseBuffer<'a>
    ensures { result ≡ fresh (start tokens.now.number tokens.now.forest)
        (end_of_tokens number tokens.now.forest) }
{
    let last = tokens.begin().scope_end().prev_span();
    tokens_to_parse_buffer(alloc, tokens, end_of_span(number, last))
}

// Returns the empty span where a span ends. Of the call site, that is the start of a source.
fn end_of_span(number: u32, span: Span) -> Span
    ensures { result ≡ end_of_span number span }
{
    match span.as_range() {
        Some((source, _, end)) => Span::source(source, end, end),
        None => Span::source(number, 0, 0),
    }
}

// Returns the error of a text that the lexer rejects.
pub(crate) fn unread(alloc: Global, fault: LexFault) -> Fault
    ensures { IsUnread fault result }
{
    match fault {
        LexFault::Refused(error) => Fault::refused(Error::from_lex(alloc, error)),
        LexFault::Memory => Fault::Memory(AllocError),
    }
}

// Returns the error of a text that the lexer rejects, explained to readers of the text.
pub(crate) fn explained(alloc: Global, text: &str, fault: LexFault) -> Fault
    ensures { IsExplained (chars text.now) fault result }
{
    match fault {
        LexFault::Refused(error) => {
            let (span, words) = error.explain(text);
            Fault::at(alloc, span, words)
        }
        LexFault::Memory => Fault::Memory(AllocError),
    }
}
