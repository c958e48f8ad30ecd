//! Tests for characters and escapes that quoted literals must not contain.
ghost use Rattle.std.specs.Prelude.{◌≡◌, false, true};
ghost use Rattle.std.specs.Str.{chars};
ghost use Rattle.tok_lexical.specs.Contents.{is_misfit, has_quote, has_misfit, has_bare_return, has_return, is_unfit, only_zeros, names_zero, has_zero, is_wrong};

use crate::text::{begins_with, next_char, past_char, past_first, past_others};

/// The kind of a string literal: a string, a byte string or a C string.
#[derive(Clone, Copy, Debug)]
pub enum Contents {
    Text,
    Bytes,
    C,
}

impl Contents {
    // Returns `true` if no literal of this kind may contain the character as it is.
    fn is_misfit(self, c: char) -> bool
        ensures { result ≡ is_misfit self c }
    {
        match self {
            Contents::Text => false,
            Contents::Bytes => c >= '\u{80}',
            Contents::C => c == '\0',
        }
    }
}

fn has_quote(text: &str) -> bool
    ensures { result ≡ has_quote (chars text.now) }
{
    let mut rest = text;
    while let Some((c, after)) = next_char(rest) {
        if c == '"' {
            return true;
        }
        rest = after;
    }
    false
}

/// Returns `true` if a character that the literal must not contain is before its last quote.
// Kept out of line: byte strings and C strings are rare.
#[inline(never)]
fn has_misfit(contents: Contents, piece: &str) -> bool
    ensures { result ≡ has_misfit contents (chars piece.now) }
{
    let mut rest = piece;
    while let Some((c, after)) = next_char(rest) {
        if contents.is_misfit(c) {
            return has_quote(after);
        }
        rest = after;
    }
    false
}

/// Returns `true` if `text` contains a carriage return (U+000D).
// Without an exit from the loop, so that it is compiled to vector instructions.
#[inline(never)]
pub fn has_return(text: &str) -> bool
    ensures { result ≡ has_return (chars text.now) }
{
    let mut found = false;
    for byte in text.as_bytes() {
        found = found | (*byte == b'\r');
    }
    found
}

/// Returns `true` if `text` contains a carriage return that is not directly before a line feed.
///
/// If `returns` is `false`, the call assumes that `text` contains no carriage return, and does not
/// search for one.
#[inline(always)]
pub fn has_bare_return(text: &str, returns: bool) -> bool
    ensures { (has_return (chars text.now) ≡ true → returns ≡ true)
        → result ≡ has_bare_return (chars text.now) }
{
    returns && finds_bare_return(text)
}

#[inline(never)]
fn finds_bare_return(text: &str) -> bool
    ensures { result ≡ has_bare_return (chars text.now) }
{
    let mut rest = text;
    while let Some(after) = past_char(past_others(rest, b'\r', b'\r'), '\r') {
        if !begins_with(after, '\n') {
            return true;
        }
        rest = after;
    }
    false
}

/// Returns `true` if the string literal `piece` contains a character that no literal of the kind
/// `contents` may contain.
///
/// A carriage return must be directly before a line feed. Apart from its suffix, a byte string must
/// consist of ASCII characters, and a C string must not contain U+0000.
///
/// If `returns` is `false`, the call assumes that `piece` contains no carriage return, and does not
/// search for one.
// Inlined, but for the searches: each string of a source asks this, and its kind is known.
#[inline(always)]
pub fn is_unfit(contents: Contents, piece: &str, returns: bool) -> bool
    ensures { (has_return (chars piece.now) ≡ true → returns ≡ true)
        → result ≡ is_unfit contents (chars piece.now) }
{
    match contents {
        Contents::Text => has_bare_return(piece, returns),
        _ => has_bare_return(piece, returns) || has_misfit(contents, piece),
    }
}

/// Returns `true` if `text` contains only zeros and underscores before its first closing brace.
fn only_zeros(text: &str) -> bool
    ensures { result ≡ only_zeros (chars text.now) }
{
    let mut rest = text;
    while let Some((c, after)) = next_char(rest) {
        if c == '}' {
            return true;
        }
        if c != '0' && c != '_' {
            return false;
        }
        rest = after;
    }
    false
}

/// Returns `true` if an escape stands for U+0000. `text` begins after the backslash of the escape.
fn names_zero(text: &str) -> bool
    ensures { result ≡ names_zero (chars text.now) }
{
    let Some((kind, rest)) = next_char(text) else {
        return false;
    };
    match kind {
        '0' => true,
        'x' => begins_with(rest, '0') && begins_with(past_first(rest), '0'),
        'u' => begins_with(rest, '{') && only_zeros(past_first(rest)),
        _ => false,
    }
}

/// Returns `true` if `piece` contains an escape that stands for U+0000.
// Kept out of line: C strings are rare.
#[inline(never)]
fn has_zero(piece: &str) -> bool
    ensures { result ≡ has_zero false (chars piece.now) }
{
    let mut rest = piece;
    let mut escaped = false;
    while let Some((c, after)) = next_char(rest) {
        if escaped && names_zero(rest) {
            return true;
        }
        escaped = !escaped && c == '\\';
        rest = after;
    }
    false
}

/// Returns `true` if `piece` contains a character or an escape that no literal of the kind
/// `contents` may contain.
///
/// `piece` is a string literal that is not raw. The call rejects the same characters as `is_unfit`.
/// In a C string, it also rejects an escape that stands for U+0000.
///
/// If `returns` is `false`, the call assumes that `piece` contains no carriage return, and does not
/// search for one.
// Inlined for the same reason.
#[inline(always)]
pub fn is_wrong(contents: Contents, piece: &str, returns: bool) -> bool
    ensures { (has_return (chars piece.now) ≡ true → returns ≡ true)
        → result ≡ is_wrong contents (chars piece.now) }
{
    match contents {
        Contents::C => is_unfit(contents, piece, returns) || has_zero(piece),
        _ => is_unfit(contents, piece, returns),
    }
}
