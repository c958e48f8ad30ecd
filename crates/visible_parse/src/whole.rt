//! Functions that parse the visible tokens of whole token streams.
ghost use Rattle.std.specs.Prelude.{◌≡◌};
ghost use Rattle.syn_parse.specs.Parsers.{ParsesWhole, whole_stream};
ghost use Rattle.syn_parse.specs.Takings.{IsTold};
ghost use Rattle.tok_core.specs.Erase.{erase};
ghost use Rattle.tok_leaves.specs.Spans.{call_site};
ghost use Rattle.tok_pruned.specs.Pruned.{pruned};
ghost use Rattle.visible_parse.specs.Visible.{AgreeAs, KeepsVisible, SaySame};

use std::alloc::Global;
use syn_parse::{Parse, Parser, Result, parse2};
use tok_core::TokenStream;
use tok_pruned::prune;

/// Parses all visible tokens of a stream as a `T`.
///
/// The call first uses `prune` to remove the invisible groups that contain nothing visible. It then
/// parses the stream in the same way as `parse2`. If the parser returns a value but leaves a token
/// unread, the call returns an error.
///
/// # Examples
///
/// ```rust
/// let tokens = lex_marked(alloc, 0, "a« »").ok()?;
/// let name: Ident = parse_visible(alloc, tokens).ok()?;
/// ```
pub fn parse_visible<T: Parse + Drop>(alloc: Global, tokens: TokenStream) -> Result<T>
    ensures reads { ParsesWhole T.parses (whole_stream (pruned tokens) call_site) result }
    ensures takes { KeepsVisible T.takes tokens result }
{
    let filled = prune(alloc, tokens)?;
    parse2(alloc, filled)
}

/// Parses all visible tokens of a stream with `parser`.
///
/// The call first uses `prune` to remove the invisible groups that contain nothing visible. It then
/// parses the stream in the same way as `Parser::parse2`.
///
/// # Requires
///
/// `parser` must be callable on the stream of the pruned tokens.
///
/// # Examples
///
/// ```rust
/// let tokens = lex_marked(alloc, 0, "« »a").ok()?;
/// let name = parse_visible_with(alloc, tokens, Ident::parse).ok()?;
/// ```
pub fn parse_visible_with<P: Parser + Drop>(
    alloc: Global,
    tokens: TokenStream,
    parser: P,
) -> Result<P::Output>
    requires { P.callable parser (whole_stream (pruned tokens) call_site) }
    ensures { ParsesWhole (P.parses parser) (whole_stream (pruned tokens) call_site) result }
{
    let visible = prune(alloc, tokens)?;
    parser.parse2(alloc, visible)
}

/// Parses the visible tokens of two streams, `left` and `right`, and returns both results.
///
/// Suppose that the visible tokens of both streams are equal, including their spans, and that no
/// allocation fails. Then either both results are values, or both are errors. Two values agree in
/// everything that the contract of `T` describes. If a token is missing, both errors have the same
/// text.
///
/// # Requires
///
/// The contract of `T` must state which tokens a `T` is parsed from.
///
/// # Examples
///
/// ```rust
/// let plain = lex(alloc, 0, "a").ok()?;
/// let marked = lex_marked(alloc, 0, "a« »").ok()?;
/// let (left, right): (Result<Ident>, Result<Ident>) = parse_visible_both(alloc, plain, marked);
/// ```
pub fn parse_visible_both<T: Parse + Drop>(
    alloc: Global,
    left: TokenStream,
    right: TokenStream,
) -> (Result<T>, Result<T>)
    requires { IsTold T.takes }
    ensures reads_left { ParsesWhole T.parses (whole_stream (pruned left) call_site) result.0 }
    ensures reads_right { ParsesWhole T.parses (whole_stream (pruned right) call_site) result.1 }
    ensures left { KeepsVisible T.takes left result.0 }
    ensures right { KeepsVisible T.takes right result.1 }
    ensures agree { erase left ≡ erase right → AgreeAs T.takes result.0 result.1 }
    ensures words { erase left ≡ erase right → SaySame T.takes left result.0 result.1 }
{
    (parse_visible(alloc, left), parse_visible(alloc, right))
}
