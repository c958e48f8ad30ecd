//! Skips the white space and the comments between tokens.
ghost use Rattle.std.specs.Prelude.{◌<◌, ◌≤◌, ◌-◌, length, IfSome};
ghost use Rattle.std.specs.Str.{chars, IsUtf8};
ghost use Rattle.tok_core.specs.Private.Built.{IsBlank};

use tok_lexical::classes::past_whitespace;
use tok_lexical::comments::{opens_block_doc, opens_line_doc, past_block, past_line};
use tok_lexical::text::past_char;

/// Returns `text` without its leading white space and comments.
///
/// The call does not remove doc comments, or comments that are not closed.
// Inlined: the loop over pieces exists twice, for trees and for entries, and a call in each would
// cost every piece.
#[inline(always)]
pub fn past_blanks(text: &str) -> &str
    ensures blank { IsBlank (chars text.now) (chars result.now)
        (length text.now - length result.now) }
    ensures shorter { length result.now ≤ length text.now }
{
    let rest = past_whitespace(text);
    match rest.as_bytes().first() {
        Some(b'/') => past_comments(rest),
        _ => rest,
    }
}

/// Returns `text` without its leading comments, and without the white space after each of these
/// comments.
#[inline(never)]
fn past_comments(text: &str) -> &str
    ensures blank { IsBlank (chars text.now) (chars result.now)
        (length text.now - length result.now) }
    ensures shorter { length result.now ≤ length text.now }
{
    let mut rest = text;
    while let Some(next) = past_comment(rest) {
        rest = past_whitespace(next);
    }
    rest
}

/// Returns `text` without a leading comment. Returns `None` if the comment is a doc comment, or is
/// not closed.
fn past_comment(text: &str) -> Option<&str>
    ensures blank { IfSome result
        (λ rest. IsBlank (chars text.now) (chars rest.now) (length text.now - length rest.now)) }
    ensures shorter { IfSome result (λ rest. length rest.now < length text.now) }
    ensures utf8 { IfSome result (λ rest. IsUtf8 rest.now) }
{
    let after = past_char(text, '/')?;
    if let Some(body) = past_char(after, '*') {
        if opens_block_doc(body) {
            None
        } else {
            past_block(body)
        }
    } else {
        let body = past_char(after, '/')?;
        if opens_line_doc(body) {
            None
        } else {
            Some(past_line(body))
        }
    }
}
