//! Methods that return the position and the spans of a cursor, and comparisons of cursors.
ghost use Rattle.std.specs.Prelude.{◌≡◌, ◌≤◌, ◌-◌, Some, true};
ghost use Rattle.std.specs.Cmp.{on_per, partial_equiv_from_equiv, on_equiv, on_po};
ghost use Rattle.std.specs.Ordering.{on};
ghost use Rattle.std.specs.declared.cmp.Ordering.TheVariants.{Equal};
ghost use Rattle.tok_core.specs.Weight.{weight};
ghost use Rattle.tok_buffer.specs.Ahead.{marked_ahead, first_of, left_of, leftover};
ghost use Rattle.tok_buffer.specs.Cursors.{place_of};
ghost use Rattle.tok_buffer.specs.Moves.{in_scope, place_at, frames_at, frame_ahead, frame_enclosing, at_end};
ghost use Rattle.tok_buffer.specs.Order.{same_buffer, same_scope, equal, order};
ghost use Rattle.tok_buffer.specs.Place.{count_before};
ghost use Rattle.tok_buffer.specs.Private.OrderLaws.{equal_equiv, order_partial};
ghost use Rattle.tok_buffer.specs.Progress.{remaining};
ghost use Rattle.tok_buffer.specs.Rest.{scope_delimiter};
ghost use Rattle.tok_buffer.specs.Spans.{closing_of, frame_span, current_span, start_span, previous_span};
ghost use Rattle.tok_buffer.specs.View.{erased_ahead};

use crate::ahead::{Ahead, Next};
use crate::buffer::TokenBuffer;
use crate::cursor::Cursor;
use crate::entry::{Entry, Held, same};
use std::cmp::Ordering;
use tok_core::{DelimSpan, Delimiter, Span};

impl<'a> Cursor<'a> {
    /// Returns the position of the cursor in its buffer, or `None` for the empty cursor.
    ///
    /// The position is the number of leaf tokens, opening delimiters and closing delimiters before
    /// the cursor. Leaf tokens are identifiers, puncts and literals. The delimiters of invisible
    /// groups are also counted.
    pub fn position(self) -> Option<usize>
        ensures { result ≡ count_before (place_of self.entry) }
    {
        Some(self.spot?.position)
    }

    /// Returns the number of leaf tokens and delimiters between the cursor and the end of its
    /// scope.
    ///
    /// Leaf tokens are identifiers, puncts and literals. Each group, visible or invisible, has an
    /// opening and a closing delimiter. Returns 0 for the empty cursor.
    pub fn remaining(self) -> usize
        ensures counts { result ≡ remaining (place_of self.entry) - 1 }
        ensures visible { weight (erased_ahead (place_of self.entry)) ≤ result }
    {
        match self.spot {
            None => 0,
            Some(spot) => spot.scope - spot.position,
        }
    }

    /// Returns the span of the next tree. If the tree is a group, the span covers the whole group.
    ///
    /// At the end of a group's contents, returns the span of the group's closing delimiter. At the
    /// end of the buffer, and for the empty cursor, returns `Span::call_site()`.
    pub fn span(self) -> Span
        ensures { result ≡ current_span (place_of self.entry) }
    {
        match self.spot {
            None => Span::call_site(),
            Some(spot) => span_at(spot.buffer, spot.position),
        }
    }

    /// Returns the span of the opening delimiter if the next tree is a visible or invisible group.
    ///
    /// Otherwise, returns the same span as `span`.
    pub fn start_span(self) -> Span
        ensures { result ≡ start_span (place_of self.entry) }
    {
        match self.spot {
            None => Span::call_site(),
            Some(spot) => match spot.entry() {
                Entry::Group(group, _) => DelimSpan::new(group.span).open(),
                _ => self.span(),
            },
        }
    }

    /// Returns the span of the leaf token or closing delimiter that is directly before the cursor.
    ///
    /// At the start of a group's contents, returns the span of the whole group. At the start of the
    /// buffer, and for the empty cursor, returns the same span as `span`.
    pub fn prev_span(self) -> Span
        ensures { result ≡ previous_span (place_of self.entry) }
    {
        match self.spot {
            None => Span::call_site(),
            Some(spot) => {
                if spot.position == 0 {
                    span_at(spot.buffer, 0)
                } else {
                    span_at(spot.buffer, spot.position - 1)
                }
            }
        }
    }

    /// Returns the span of the first visible tree that remains in the scope, and the delimiter that
    /// a parser expected instead of this tree.
    ///
    /// If the tree is a group, the span covers the whole group. The expected delimiter is the
    /// delimiter of the scope, or `Delimiter::None` if the tree is in an invisible group that the
    /// cursor has not entered. Returns `None` if no visible tree remains.
    pub fn leftover(self) -> Option<(Span, Delimiter)>
        ensures { left_of result ≡ leftover (place_of self.entry) }
    {
        let spot = self.spot?;
        let (marked, span) = scan(spot.buffer, spot.position, spot.scope)?;
        if marked {
            Some((span, Delimiter::None))
        } else {
            Some((span, self.scope_delimiter()))
        }
    }

    /// Returns the delimiter of the group whose contents are the cursor's scope.
    ///
    /// Returns `Delimiter::None` if the scope is the whole buffer, and for the empty cursor.
    pub fn scope_delimiter(self) -> Delimiter
        ensures { result ≡ scope_delimiter (place_of self.entry) }
    {
        match self.spot {
            None => Delimiter::None,
            Some(spot) => enclosing_at(spot.buffer, spot.scope).0,
        }
    }

    /// Returns `true` if the buffers of both cursors have the same number.
    ///
    /// If one of the cursors is the empty cursor, returns `true` only if the other cursor is also
    /// empty.
    pub fn same_buffer(self, other: Cursor<'_>) -> bool
        ensures { result ≡ same_buffer (place_of self.entry) (place_of other.entry) }
    {
        match (self.spot, other.spot) {
            (None, None) => true,
            (Some(left), Some(right)) => left.buffer.number() == right.buffer.number(),
            _ => false,
        }
    }

    /// Returns `true` if both cursors have the same scope, in buffers with the same number.
    ///
    /// If one of the cursors is the empty cursor, returns `true` only if the other cursor is also
    /// empty.
    pub fn same_scope(self, other: Cursor<'_>) -> bool
        ensures { result ≡ same_scope (place_of self.entry) (place_of other.entry) }
    {
        match (self.spot, other.spot) {
            (None, None) => true,
            (Some(left), Some(right)) => self.same_buffer(other) && left.scope == right.scope,
            _ => false,
        }
    }
}

/// Compares two cursors by the numbers of their buffers and by their positions, but not by their
/// scopes.
///
/// The empty cursor is equal only to an empty cursor.
impl<'a> PartialEq for Cursor<'a> {
    ghost eq = { on place_of equal };

    fn eq(&self, other: &Cursor<'a>) -> bool {
        match (self.spot, other.spot) {
            (None, None) => true,
            (Some(left), Some(right)) => self.same_buffer(*other)
                && left.position == right.position,
            _ => false,
        }
    }

    ghost laws = { on_per place_of (partial_equiv_from_equiv equal_equiv) };
}

impl<'a> Eq for Cursor<'a> {
    ghost laws = { on_equiv place_of equal_equiv };
}

/// Orders two cursors by position if their buffers have the same number.
///
/// If the buffers have different numbers, or if exactly one of the cursors is empty, `partial_cmp`
/// returns `None`.
impl<'a> PartialOrd for Cursor<'a> {
    ghost partial_cmp = { on place_of order };

    fn partial_cmp(&self, other: &Cursor<'a>) -> Option<Ordering> {
        match (self.spot, other.spot) {
            (None, None) => Some(Ordering::Equal),
            (Some(left), Some(right)) => {
                if self.same_buffer(*other) {
                    Some(left.position.cmp(&right.position))
                } else {
                    None
                }
            }
            _ => None,
        }
    }

    ghost laws = { on_po place_of order_partial };
}

// Returns the span of the whole tree at a position, or the closing span at an end.
fn span_at(buffer: &TokenBuffer, position: usize) -> Span
    requires { position ≤ weight buffer.now.forest }
    ensures { result ≡ frame_span (frames_at buffer.now.forest position).0 }
{
    match buffer.entry(position).held() {
        Held::Leaf(leaf) => leaf.span(),
        Held::Group(group, _) => group.span,
        Held::End(back) => buffer.entry(position - back).closing().1,
    }
}

// Returns the delimiter and the closing span of the group that ends at a position.
fn enclosing_at(buffer: &TokenBuffer, end: usize) -> (Delimiter, Span)
    requires in_buffer { end ≤ weight buffer.now.forest }
    requires is_end { at_end (frame_ahead (frames_at buffer.now.forest end).0) ≡ true }
    ensures { result ≡ closing_of (frame_enclosing (frames_at buffer.now.forest end).0) }
{
    match buffer.entry(end) {
        Entry::End(back) => buffer.entry(end - *back).closing(),
        _ => (Delimiter::None, Span::call_site()),
    }
}

// Finds the first visible tree from a position on: whether a group opens before it, and its span.
fn scan(buffer: &TokenBuffer, from: usize, scope: usize) -> Option<(bool, Span)>
    requires in_buffer { scope ≤ weight buffer.now.forest }
    requires within { in_scope buffer.now.forest from scope ≡ true }
    ensures { result
        ≡ first_of (marked_ahead (place_at buffer.now.number buffer.now.forest from scope)) }
{
    let mut ahead = Ahead::new(buffer, from, scope);
    let mut depth: usize = 0;
    while ahead.position != ahead.scope {
        match ahead.next() {
            Next::Leaf(leaf, _) => return Some((depth > 0, leaf.span())),
            Next::Group(group) => {
                if !same(group.opening.delimiter, Delimiter::None) {
                    return Some((depth > 0, group.opening.span));
                }
                depth += 1;
                ahead = group.entered;
            }
            Next::End(after) => {
                depth = depth.saturating_sub(1);
                ahead = after;
            }
        }
    }
    None
}
