//! Types for ranges of tokens.
ghost use Rattle.std.specs.Prelude.{◌≡◌};
ghost use Rattle.tok_core.specs.Erase.{erase};
ghost use Rattle.syn_derive.specs.Paths.{path_form};
ghost use Rattle.syn_derive.specs.Visibilities.{visibility_form};
ghost use Rattle.example_fields.specs.Ranges as spec;

use crate::ends::{ends_after, widened};
use entry_outcomes::range;
use syn_derive::{Path, Visibility};
use tok_core::{Ident, Span, TokenStream};

/// A range of tokens, given by the number of the first token and the number after the last token.
///
/// Both numbers are 0 if the range is empty.
#[repr(C)]
#[derive(Clone, Copy)]
pub struct Range {
    pub start: usize,
    pub end: usize,
}

// Returns the range from one token to another.
fn between(first: Span, last: Span) -> Range
    ensures { result ≡ spec.between first last }
{
    let (start, _) = range(first);
    let (_, end) = range(last);
    Range { start, end }
}

// Returns the range of no token.
pub(crate) fn no_range() -> Range
    ensures { result ≡ spec.no_range }
{
    Range { start: 0, end: 0 }
}

fn of_ends(ends: Option<(Span, Span)>) -> Range
    ensures { result ≡ spec.of_ends ends }
{
    match ends {
        Some((first, last)) => between(first, last),
        None => no_range(),
    }
}

// Returns the range of all tokens of a stream.
pub(crate) fn of_tokens(tokens: &TokenStream) -> Range
    ensures { result ≡ spec.of_tokens (erase tokens.now) }
{
    of_ends(ends_after(None, tokens))
}

pub(crate) fn of_ident(ident: &Ident) -> Range
    ensures { result ≡ spec.of_ident ident.now }
{
    between(ident.span(), ident.span())
}

// Returns the range of a name, if there is one.
pub(crate) fn of_name(name: &Option<Ident>) -> Range
    ensures { result ≡ spec.of_name name.now }
{
    match name {
        Some(ident) => of_ident(ident),
        None => no_range(),
    }
}

pub(crate) fn of_path(path: &Path) -> Range
    ensures { result ≡ spec.of_path (path_form path.now) }
{
    let mut ends = match &path.leading_colon {
        Some(colon) => Some((colon.spans[0], colon.spans[0])),
        None => None,
    };
    for segment in path.segments.iter() {
        ends = Some(widened(ends, segment.ident.span()));
    }
    of_ends(ends)
}

pub(crate) fn of_visibility(visibility: &Visibility) -> Range
    ensures { result ≡ spec.of_visibility (visibility_form visibility.now) }
{
    match visibility {
        Visibility::Public(word) => between(word.span, word.span),
        Visibility::Restricted(it) => between(it.pub_token.span, it.paren_token.span.join()),
        Visibility::Inherited => no_range(),
    }
}
