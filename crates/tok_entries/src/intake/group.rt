//! Reads the entries of opening and closing delimiters.
ghost use Rattle.std.specs.Prelude.{◌+◌, ◌<◌, ◌^◌, ◌∷◌, length, IfSome, MatchBool, MatchOption};
ghost use Rattle.std.specs.Str.{IsUtf8};
ghost use Rattle.tok_entries.specs.Blames.{OpensGroup};
ghost use Rattle.tok_entries.specs.Private.Parts.{AreEdges, AreGroupParts};

use crate::entry::{CLOSING, Entry, OPENING, edge};
use crate::intake::parts::{cut, delimiter_of, source_span, text_up_to};
use tok_core::{DelimSpan, Delimiter, Span};

// A group's delimiter and span, the entries and texts inside it, and those behind it.
#[derive(Clone, Copy)]
pub struct GroupParts<'a, 'b> {
    pub delimiter: Delimiter,
    pub span: Span,
    pub inside: &'a [Entry],
    pub words: &'b str,
    pub later: &'a [Entry],
    pub behind: &'b str,
}

// Returns the parts of the group that an opening begins, whose texts begin at byte `begin`.
pub fn group_parts<'a, 'b>(
    begin: usize,
    opening: &Entry,
    after: &'a [Entry],
    rest: &'b str,
) -> Option<GroupParts<'a, 'b>>
    requires { begin + length rest.now < 2 ^ 64 }
    ensures parts { MatchOption result
        (OpensGroup begin (opening.now ∷ after.now) rest.now → ⊥)
        (λ p. AreGroupParts begin opening.now after.now rest.now p) }
    ensures utf8 { IfSome result (λ p. IsUtf8 p.words.now × IsUtf8 p.behind.now) }
{
    let Some(delimiter) = delimiter_of(opening.delimiter) else {
        return None;
    };
    let Some((inside, closing, later)) = cut(after, opening.distance) else {
        return None;
    };
    let Some((words, behind)) = text_up_to(begin, closing.text_start, rest) else {
        return None;
    };
    let Some(span) = source_span(opening.start, closing.end) else {
        return None;
    };
    if are_edges(opening, closing, delimiter, span, begin) {
        Some(GroupParts {
            delimiter,
            span,
            inside,
            words,
            later,
            behind,
        })
    } else {
        None
    }
}

// Returns `true` if these are the edges of a group, apart from how far they are from each other.
fn are_edges(
    opening: &Entry,
    closing: &Entry,
    delimiter: Delimiter,
    span: Span,
    begin: usize,
) -> bool
    ensures { MatchBool result (AreEdges opening.now closing.now delimiter span begin)
        (AreEdges opening.now closing.now delimiter span begin → ⊥) }
{
    let edges = DelimSpan::new(span);
    let distance = opening.distance;
    let end = closing.text_start;
    *opening == edge(OPENING, delimiter, edges.open(), begin, distance)
        && *closing == edge(CLOSING, delimiter, edges.close(), end, distance)
}
