//! Laws about buffers and cursors, for proofs about parsers. Each law is the contract of a
//! function. Most of these functions do nothing.
ghost use Rattle.std.specs.Prelude.{◌≡◌, ◌↔◌, true, Some, IfOk};
ghost use Rattle.std.specs.Str.{chars};
ghost use Rattle.tok_lexical.specs.declared.rule.Mode.TheVariants.{Plain, Marked};
ghost use Rattle.tok_core.specs.Lexical.Outcome.{FollowsGrammar, FollowsSource};
ghost use Rattle.tok_buffer.specs.Buffer.{forest_of, KeepsReading, SameReading};
ghost use Rattle.std.specs.declared.cmp.Ordering.TheVariants.{Equal};
ghost use Rattle.tok_core.specs.Forest.{Forest};
ghost use Rattle.tok_buffer.specs.Between.{PassedJoin, ReadsFollow};
ghost use Rattle.tok_buffer.specs.Cursors.{place_of, CursorsLoseNone, CursorsReachScope};
ghost use Rattle.tok_buffer.specs.Descent.{DescentsEnter};
ghost use Rattle.tok_buffer.specs.InFront.{AheadTellsAll, AheadTellsEnds, AllAheadAtStart};
ghost use Rattle.tok_buffer.specs.Order.{equal, order};
ghost use Rattle.tok_buffer.specs.Place.{Place, start};
ghost use Rattle.tok_buffer.specs.Progress.{EntriesGoOn, MovesStay, ReadsGoLater, ReadsGoOn, ReadsKeepScope, SkipsGoOn, StaysAlong};
ghost use Rattle.tok_lexical.specs.Laws.{ClonesKeep};
ghost use Rattle.tok_buffer.specs.Rest.{rest};
ghost use Rattle.tok_buffer.specs.SameView.{CallsLeadOn, StartsAgree, ViewsDecide, ViewsTellDelimiters, ViewsTellScopes};

use crate::buffer::TokenBuffer;
use crate::cursor::{Cursor, LifetimeRef};
use crate::error::Error;
use std::alloc::{AllocError, Global};
use std::cmp::Ordering;
use tok_core::{Edition, LexFault, TokenStream, lex, lex_marked, lex_source};
pub use tok_leaves::laws::{lifetimes_by_name, lifetimes_in_order};

// Makes a buffer of a stream, or returns the lexer's error.
fn laid_out(
    alloc: Global,
    number: u64,
    read: Result<TokenStream, LexFault>,
) -> Result<TokenBuffer, LexFault>
    ensures number { IfOk result (λ b. b.number ≡ number) }
    ensures kept { KeepsReading read (forest_of result) }
{
    let buffer = TokenBuffer::new2(alloc, number, read?)?;
    Ok(buffer)
}

/// Lexes `text` with `TokenBuffer::from_text` and with `lex`, and returns both results as buffers.
///
/// The contract states that the two buffers are equal, or that both results are the same error of
/// the lexer. It makes no statement if an allocation fails.
pub fn text_as_stream(
    alloc: Global,
    number: u64,
    source: u32,
    text: &str,
) -> (Result<TokenBuffer, LexFault>, Result<TokenBuffer, LexFault>)
    ensures same { SameReading result.0 result.1 }
    ensures number { IfOk result.0 (λ b. b.number ≡ number) }
    ensures follows { FollowsGrammar Plain source (chars text.now) (forest_of result.0) }
    ensures lexed { FollowsGrammar Plain source (chars text.now) (forest_of result.1) }
{
    let read = TokenBuffer::from_text(alloc, number, source, text);
    let laid = laid_out(alloc, number, lex(alloc, source, text));
    (read, laid)
}

/// Lexes `text` with `TokenBuffer::from_marked` and with `lex_marked`, and returns both results as
/// buffers.
///
/// The contract states that the two buffers are equal, or that both results are the same error of
/// the lexer. It makes no statement if an allocation fails.
pub fn marked_as_stream(
    alloc: Global,
    number: u64,
    source: u32,
    text: &str,
) -> (Result<TokenBuffer, LexFault>, Result<TokenBuffer, LexFault>)
    ensures same { SameReading result.0 result.1 }
    ensures number { IfOk result.0 (λ b. b.number ≡ number) }
    ensures follows { FollowsGrammar Marked source (chars text.now) (forest_of result.0) }
    ensures lexed { FollowsGrammar Marked source (chars text.now) (forest_of result.1) }
{
    let read = TokenBuffer::from_marked(alloc, number, source, text);
    let laid = laid_out(alloc, number, lex_marked(alloc, source, text));
    (read, laid)
}

/// Lexes `text` with `TokenBuffer::from_source` and with `lex_source`, and returns both results as
/// buffers.
///
/// The contract states that the two buffers are equal, or that both results are the same error of
/// the lexer. It makes no statement if an allocation fails.
pub fn source_as_stream(
    alloc: Global,
    number: u64,
    edition: Edition,
    source: u32,
    text: &str,
) -> (Result<TokenBuffer, LexFault>, Result<TokenBuffer, LexFault>)
    ensures same { SameReading result.0 result.1 }
    ensures number { IfOk result.0 (λ b. b.number ≡ number) }
    ensures follows { FollowsSource edition source (chars text.now) (forest_of result.0) }
    ensures lexed { FollowsSource edition source (chars text.now) (forest_of result.1) }
{
    let read = TokenBuffer::from_source(alloc, number, edition, source, text);
    let laid = laid_out(alloc, number, lex_source(alloc, edition, source, text));
    (read, laid)
}

/// Creates a buffer from `stream`, and returns a copy of the buffer's trees.
///
/// The contract states that the copy equals `stream`, including all spans and invisible groups.
/// Returns an error if an allocation fails.
pub fn same_stream(
    alloc: Global,
    number: u64,
    stream: TokenStream,
) -> Result<TokenStream, AllocError>
    ensures places { (n : _) → (f : Forest) → rest (start n f) ≡ f }
    ensures calls { IfOk result (λ s. s ≡ stream) }
{
    let buffer = TokenBuffer::new2(alloc, number, stream)?;
    let copy = buffer.begin().token_stream(alloc)?;
    Ok(copy)
}

/// Returns the results of `left == right` and `left.partial_cmp(&right)`.
///
/// The contract states that `left == right` if and only if `partial_cmp` returns `Some(Equal)`.
pub fn equal_in_order(left: Cursor<'_>, right: Cursor<'_>) -> (bool, Option<Ordering>)
    ensures places { (p : Place) → (q : Place) → (equal p q ≡ true) ↔ (order p q ≡ Some Equal) }
    ensures equal { result.0 ≡ equal (place_of left.entry) (place_of right.entry) }
    ensures order { result.1 ≡ order (place_of left.entry) (place_of right.entry) }
{
    (left == right, left.partial_cmp(&right))
}

/// If a read moves a cursor from `a` to `b`, then `b` stays in the scope of `a`, and
/// `b.remaining() < a.remaining()`.
///
/// A loop of reads therefore ends.
pub fn reads_go_on()
    ensures { ReadsGoOn }
{}

/// If a skip moves a cursor from `a` to `b`, then `b` stays in the scope of `a`, and
/// `b.remaining() < a.remaining()`.
pub fn skips_go_on()
    ensures { SkipsGoOn }
{}

/// If a cursor `a` enters a group, and `b` is the cursor after the group, then `b` stays in the
/// scope of `a`, and `b.remaining() < a.remaining()`.
///
/// The cursor `c` at the start of the group's contents also has `c.remaining() < a.remaining()`.
/// The law applies to visible and invisible groups.
pub fn entries_go_on()
    ensures { EntriesGoOn }
{}

/// If a call reads a token, skips a token or enters a group, and moves a cursor from `a` to `b`,
/// then `a < b`.
///
/// If the call enters a group, `b` is the cursor after the group.
pub fn reads_go_later()
    ensures { ReadsGoLater }
{}

/// If a call reads a token, skips a token or enters a group, and moves a cursor from `a` to `b`,
/// then `a` and `b` are in the same scope.
///
/// If the call enters a group, `b` is the cursor after the group. Several of these calls in turn
/// also keep the scope. A stream may therefore always advance to a fork that has read tokens.
pub fn reads_keep_scope()
    ensures { ReadsKeepScope }
{}

/// A call that reads a token, skips a token or enters a group moves its cursor only by entering
/// invisible groups and by passing whole trees.
///
/// If the call enters a group, the moved cursor is the one after the group. The law also applies to
/// several of these calls in turn. The method `tokens_up_to` therefore omits no visible tree.
pub fn reads_follow()
    ensures { ReadsFollow }
{}

/// If a cursor moves from `a` to `b` and passes only whole trees, then the trees after `a` are the
/// passed trees and the trees after `b`, in this order.
///
/// The method `tokens_up_to` therefore copies exactly the trees that were passed.
pub fn passed_trees_join()
    ensures { PassedJoin }
{}

/// A cursor that enters invisible groups or passes a tree stays in its scope, and `remaining` does
/// not become greater.
pub fn moves_stay()
    ensures { MovesStay }
{}

/// The relation `StaysIn` between cursors is reflexive and transitive. A sequence of reads
/// therefore stays in the scope.
///
/// A cursor `b` stays in the scope of a cursor `a` if `b` is the empty cursor, or if both cursors
/// have the same scope and `b` is not earlier than `a`.
pub fn stays_along()
    ensures { StaysAlong }
{}

/// If a cursor `b` stays in the scope of a cursor `a`, as `StaysIn` defines, then
/// `b.remaining() <= a.remaining()`.
///
/// If also `a != b`, and `b` is not the empty cursor, then `b.remaining() < a.remaining()`. A loop
/// that moves its cursor therefore ends, regardless of the parser that moves the cursor.
pub fn staying_adds_nothing()
    ensures { CursorsLoseNone }
{}

/// For every cursor in a buffer, `position` plus `remaining` is the position of the end of the
/// cursor's scope.
///
/// If two cursors have the same scope, the distance between them is therefore the difference
/// between their values of `remaining`.
pub fn remaining_reaches_scope()
    ensures { CursorsReachScope }
{}

/// A cursor that looks for a visible tree enters invisible groups until the next tree is not an
/// invisible group.
pub fn descents_enter()
    ensures { DescentsEnter }
{}

/// If two cursors have equal views, every call except a read of whole trees has the same result for
/// both cursors.
///
/// The view of a cursor consists of the visible trees that remain, the delimiter of the scope, and
/// the number of visible tokens and delimiters after the scope. The law requires that every
/// invisible group in the two buffers contains a visible tree.
///
/// The following calls have equal results, and the cursors after these calls have equal views
/// again:
///
/// - calls that read a leaf token, a lifetime, a keyword or a punctuation token
/// - calls that skip a token, or test for the end of the scope
/// - calls that enter a visible group
/// - the call that returns the span of a leftover
///
/// Equal views also determine the delimiter of the scope, and whether two cursors are in the same
/// scope. If two buffers differ only in invisible groups, the cursors at their starts have equal
/// views.
pub fn views_decide()
    ensures calls { ViewsDecide }
    ensures scopes { ViewsTellScopes }
    ensures delimiters { ViewsTellDelimiters }
    ensures starts { StartsAgree }
{}

/// If a cursor has a view, and a call reads a token, skips a token or enters a visible group, then
/// the cursor after the call also has a view.
///
/// The view of a cursor is the part of its position that does not depend on invisible groups. The
/// cursor at the start of an entered group's contents also has a view. The law `views_decide`
/// therefore applies after any number of these calls.
pub fn calls_lead_on()
    ensures { CallsLeadOn }
{}

/// The result of a read depends only on the visible trees that remain after the cursor.
///
/// The law applies to calls that read a leaf token, a lifetime, a keyword or a punctuation token,
/// or enter a visible group, and to the span of a leftover. These calls take the first of the
/// remaining trees, and the other trees remain after them. The law does not apply to calls that
/// skip a token or read whole trees.
///
/// At the start of a buffer, all of its trees remain. Suppose that every invisible group in a
/// buffer contains a visible tree. Then a cursor is at the end of its scope if and only if no
/// visible tree remains.
pub fn ahead_tells()
    ensures calls { AheadTellsAll }
    ensures ends { AheadTellsEnds }
    ensures start { AllAheadAtStart }
{}

/// A clone of an error, a cursor or a lifetime equals the original.
pub fn clones_keep_errors<'a>()
    ensures errors { ClonesKeep ⟦<Error as Clone>⟧.is_clone }
    ensures cursors { ClonesKeep ⟦<Cursor<'a> as Clone>⟧.is_clone }
    ensures lifetimes { ClonesKeep ⟦<LifetimeRef<'a> as Clone>⟧.is_clone }
{}
