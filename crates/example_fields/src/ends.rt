//! Functions that find the first and the last visible token of a stream.
ghost use Rattle.std.specs.Prelude.{◌≡◌};
ghost use Rattle.tok_core.specs.Erase.{erase};
ghost use Rattle.tok_core.specs.Forest.{no_trees, tree};
ghost use Rattle.tok_core.specs.Seen.{tree_of};
ghost use Rattle.example_fields.specs.Ends as spec;

use tok_core::{Delimiter, Span, TokenStream, TokenTree};

// Returns the spans of the first and the last visible tree, those of earlier trees included.
#[cycle(ends)]
pub(crate) fn ends_after(ends: Option<(Span, Span)>, tokens: &TokenStream) -> Option<(Span, Span)>
    ensures { result ≡ spec.ends_after ends (erase tokens.now) }
{
    let mut ends = ends;
    for next in tokens.trees() {
        ends = ends_of_tree(ends, next);
    }
    ends
}

// Those of a tree, which is looked through if it is an invisible group.
#[cycle(ends)]
fn ends_of_tree(ends: Option<(Span, Span)>, next: &TokenTree) -> Option<(Span, Span)>
    ensures { result ≡ spec.ends_after ends (erase (tree (tree_of next.now) no_trees)) }
{
    match next {
        TokenTree::Group(group) => match group.delimiter() {
            Delimiter::None => ends_after(ends, group.stream()),
            _ => Some(widened(ends, group.span())),
        },
        _ => Some(widened(ends, next.span())),
    }
}

// Returns the first of these spans, and another as the last.
pub(crate) fn widened(ends: Option<(Span, Span)>, span: Span) -> (Span, Span)
    ensures { result ≡ spec.widened ends span }
{
    match ends {
        Some((first, _)) => (first, span),
        None => (span, span),
    }
}
