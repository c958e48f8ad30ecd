//! Functions that parse arguments from visible tokens.
ghost use Rattle.std.specs.Prelude.{◌≡◌, IfOk};
ghost use Rattle.arguments.specs.Results.{Agree, Parses, ParsesTo, SaysWhy};
ghost use Rattle.tok_core.specs.Erase.{erase};
ghost use Rattle.tok_pruned.specs.Pruned.{pruned};

use arguments::{Arguments, arguments_both, parse_arguments};
use std::alloc::{AllocError, Global};
use syn_parse::Result;
use tok_buffer::Error;
use tok_core::TokenStream;
use tok_pruned::prune;

/// Parses all visible tokens of a stream as arguments, regardless of its invisible groups.
///
/// If the tokens are not arguments, returns the error of the first parser that fails.
///
/// # Examples
///
/// ```rust
/// let tokens = lex_marked(alloc, 0, "a, b = 1, « »c(« »)").ok()?;
/// let list = visible_arguments(alloc, tokens).ok()?;
/// assert_eq!(rt; list.len(), 3);
/// ```
pub fn visible_arguments(alloc: Global, tokens: TokenStream) -> Result<Arguments>
    ensures parses { Parses (erase tokens) result }
    ensures says { SaysWhy (pruned tokens) result }
{
    let filled = prune(alloc, tokens)?;
    parse_arguments(alloc, filled)
}

/// Parses the visible tokens of two streams, `left` and `right`, as arguments.
///
/// If both streams have equal visible tokens, including their spans, then either both results are
/// the same list, including its spans, or both are errors with the same text.
///
/// Returns an error if an allocation fails.
///
/// # Examples
///
/// ```rust
/// let plain = lex(alloc, 0, "a").ok()?;
/// let marked = lex_marked(alloc, 0, "a« »").ok()?;
/// let (left, right) = visible_arguments_both(alloc, plain, marked).ok()?;
/// assert_eq!(rt; left.is_ok() && right.is_ok(), true);
/// ```
pub fn visible_arguments_both(
    alloc: Global,
    left: TokenStream,
    right: TokenStream,
) -> std::result::Result<
    (
        std::result::Result<Arguments, Error>,
        std::result::Result<Arguments, Error>,
    ),
    AllocError,
>
    ensures left { IfOk result (λ both. ParsesTo (pruned left) both.0) }
    ensures right { IfOk result (λ both. ParsesTo (pruned right) both.1) }
    ensures agree { IfOk result (λ both. erase left ≡ erase right → Agree both.0 both.1) }
{
    let first = prune(alloc, left)?;
    let second = prune(alloc, right)?;
    arguments_both(alloc, first, second)
}
