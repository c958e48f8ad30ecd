//! Functions that skip comments and recognize doc comments.
ghost use Rattle.std.specs.Prelude.{◌≡◌, ℕ, ◌∷◌, ◌++◌, [], List, IfSome, true};
ghost use Rattle.std.specs.Str.{chars, IsUtf8};
ghost use Rattle.tok_lexical.specs.Ascii.{slash, star};
ghost use Rattle.tok_lexical.specs.Pieces.{ReadsLongest, Skips};
ghost use Rattle.tok_lexical.specs.Comments.{is_not_line_feed, IsLineComment, IsBlockComment, Closes, is_line_doc, is_block_doc, opens_line_doc, opens_block_doc};
ghost use Rattle.tok_lexical.specs.Contents.{has_return};
ghost use Rattle.tok_lexical.specs.Docs.{is_inner_doc, line_doc_text, breaks_line, block_doc_text};

use crate::text::{begins_with, front_of, next_char, past_char, past_first, past_others, up_to};

/// Returns the part of `text` that begins at the first line feed.
///
/// Returns an empty text if `text` contains no line feed.
pub fn past_line(text: &str) -> &str
    ensures { (front : List ℕ) × Skips is_not_line_feed (chars text.now) front (chars result.now) }
{
    past_others(text, b'\n', b'\n')
}

/// Returns the rest of `text` after a leading `//` comment.
///
/// Returns `None` if `text` does not begin with `//`.
#[inline(always)]
pub fn past_line_comment(text: &str) -> Option<&str>
    ensures tries { ReadsLongest IsLineComment (chars text.now) result }
    ensures utf8 { IfSome result (λ rest. IsUtf8 rest.now) }
{
    let body = past_char(past_char(text, '/')?, '/')?;
    Some(past_line(body))
}

/// Returns the rest of `text` after a leading `/* .. */` comment, which may contain nested
/// comments.
///
/// Returns `None` if `text` does not begin with `/*`, or if the comment is not closed.
#[inline(always)]
pub fn past_block_comment(text: &str) -> Option<&str>
    ensures tries { ReadsLongest IsBlockComment (chars text.now) result }
    ensures utf8 { IfSome result (λ rest. IsUtf8 rest.now) }
{
    let body = past_char(past_char(text, '/')?, '*')?;
    past_block(body)
}

/// Returns the rest of `text` after the end of a block comment. `text` begins after the `/*` of the
/// comment.
///
/// Returns `None` if the comment is not closed.
#[inline(always)]
pub fn past_block(text: &str) -> Option<&str>
    ensures tries { ReadsLongest (Closes 1) (chars text.now) result }
    ensures utf8 { IfSome result (λ rest. IsUtf8 rest.now) }
{
    let mut rest = text;
    let mut depth = 1usize;
    while depth > 0 {
        let mark = past_others(rest, b'*', b'/');
        if let Some(after) = past_char(mark, '*') {
            rest = after;
            if let Some(outer) = past_char(after, '/') {
                depth -= 1;
                rest = outer;
            }
        } else {
            let Some(after) = past_char(mark, '/') else {
                return None;
            };
            rest = after;
            if let Some(inner) = past_char(after, '*') {
                depth += 1;
                rest = inner;
            }
        }
    }
    Some(rest)
}

/// Returns `true` if a line comment is a doc comment. `body` is the text of the comment after `//`.
#[inline]
pub fn opens_line_doc(body: &str) -> bool
    ensures { result ≡ opens_line_doc (chars body.now) }
{
    match past_char(body, '/') {
        Some(more) => !begins_with(more, '/'),
        None => begins_with(body, '!'),
    }
}

/// Returns `true` if a block comment is a doc comment. `body` is the text after the `/*` of the
/// comment.
#[inline]
pub fn opens_block_doc(body: &str) -> bool
    ensures { result ≡ opens_block_doc (chars body.now) }
{
    match past_char(body, '*') {
        Some(more) => !begins_with(more, '*') && !begins_with(more, '/'),
        None => begins_with(body, '!'),
    }
}

/// Returns `true` if the line comment `piece` is a doc comment, such as `/// A point.`.
pub fn is_line_doc(piece: &str) -> bool
    ensures { result ≡ is_line_doc (chars piece.now) }
{
    opens_line_doc(past_first(past_first(piece)))
}

/// Returns `true` if the block comment `piece` is a doc comment, such as `/** A point. */`.
pub fn is_block_doc(piece: &str) -> bool
    ensures { result ≡ is_block_doc (chars piece.now) }
{
    opens_block_doc(past_first(past_first(piece)))
}

/// Returns `true` if the doc comment `piece` begins with `//!` or `/*!`.
pub fn is_inner_doc(piece: &str) -> bool
    ensures { result ≡ is_inner_doc (chars piece.now) }
{
    begins_with(past_first(past_first(piece)), '!')
}

/// Returns the text of the doc comment `piece` after its `///` or `//!`.
///
/// A carriage return at the end of `piece` belongs to the line ending. It is not part of the
/// result.
pub fn line_doc_text(piece: &str) -> &str
    ensures { chars result.now ≡ line_doc_text (chars piece.now) }
{
    let text = past_first(past_first(past_first(piece)));
    up_to(text, b'\r')
}

/// Returns the text of the doc comment `piece` after its `///` or `//!`, like `line_doc_text`.
///
/// If `returns` is `false`, the call assumes that `piece` contains no carriage return, and does not
/// search for one.
#[inline(always)]
pub fn line_doc_contents(piece: &str, returns: bool) -> &str
    ensures { (has_return (chars piece.now) ≡ true → returns ≡ true)
        → chars result.now ≡ line_doc_text (chars piece.now) }
{
    if returns {
        line_doc_text(piece)
    } else {
        past_first(past_first(past_first(piece)))
    }
}

/// Returns `true` if the line comment `piece` contains a carriage return that is not part of its
/// line ending.
///
/// `after` is the text directly after the comment. If `returns` is `false`, the call assumes that
/// `piece` contains no carriage return, and does not search for one.
#[inline(always)]
pub(crate) fn has_broken_line(piece: &str, after: &str, returns: bool) -> bool
    ensures { (has_return (chars piece.now) ≡ true → returns ≡ true)
        → result ≡ breaks_line (chars piece.now) (chars after.now) }
{
    returns && breaks_line(piece, after)
}

/// Returns `true` if the line comment `piece` contains a carriage return that is not part of its
/// line ending.
///
/// `after` is the text directly after the comment.
#[inline(never)]
pub fn breaks_line(piece: &str, after: &str) -> bool
    ensures { result ≡ breaks_line (chars piece.now) (chars after.now) }
{
    match next_char(past_others(piece, b'\r', b'\r')) {
        Some((_, rest)) => match next_char(rest) {
            Some(_) => true,
            None => !begins_with(after, '\n'),
        },
        None => false,
    }
}

/// Returns the text of the doc comment `piece` between its `/**` or `/*!` and its `*/`.
///
/// # Requires
///
/// `piece` must be a whole block doc comment.
pub fn block_doc_text(piece: &str) -> &str
    requires { (c : ℕ) × (front : List ℕ)
        × (chars piece.now ≡ slash ∷ star ∷ c ∷ (front ++ star ∷ slash ∷ [])) }
    ensures { chars result.now ≡ block_doc_text (chars piece.now) }
{
    let text = past_first(past_first(past_first(piece)));
    front_of(text, "*/")
}
