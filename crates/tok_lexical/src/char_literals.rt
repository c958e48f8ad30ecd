//! Functions that skip character literals and byte literals.
ghost use Rattle.std.specs.Prelude.{◌≡◌, IfSome};
ghost use Rattle.std.specs.Str.{chars, IsUtf8};
ghost use Rattle.tok_lexical.specs.Ascii.{apostrophe, lower_b};
ghost use Rattle.tok_lexical.specs.Pieces.{IsOne, After, ReadsLongest};
ghost use Rattle.tok_lexical.specs.Private.Finds.{ReadsPrefix};
ghost use Rattle.tok_lexical.specs.Words.{IsSuffix};
ghost use Rattle.tok_lexical.specs.Strings.{is_char, is_byte, IsEscapedChar, IsByte, IsQuoted};

use crate::escapes::past_escape;
use crate::text::{next_char, past_char};
use crate::words::past_suffix;

fn is_char(c: char) -> bool
    ensures { result ≡ is_char c }
{
    !matches!(c, '\'' | '\\' | '\t' | '\n' | '\r')
}

fn is_byte(c: char) -> bool
    ensures { result ≡ is_byte c }
{
    is_char(c) && c < '\u{80}'
}

/// Returns the rest of `text` after the closing apostrophe of a literal and the suffix of the
/// literal.
// Inlined: it is the end of each of the three rules, and mostly two tests.
#[inline(always)]
fn past_end(text: &str) -> Option<&str>
    ensures tries { ReadsLongest (After apostrophe IsSuffix) (chars text.now) result }
    ensures utf8 { IfSome result (λ rest. IsUtf8 rest.now) }
{
    let rest = past_char(text, '\'')?;
    Some(past_suffix(rest))
}

/// Returns the rest of `text` after one character that a character literal may contain without an
/// escape.
///
/// Returns `None` if `text` does not begin with such a character.
pub(crate) fn past_plain(text: &str) -> Option<&str>
    ensures finds { ReadsPrefix (IsOne is_char) (chars text.now) result }
    ensures utf8 { IfSome result (λ rest. IsUtf8 rest.now) }
{
    let (first, rest) = next_char(text)?;
    if is_char(first) { Some(rest) } else { None }
}

/// Returns the rest of `text` after a leading escape that a character literal may contain.
///
/// Returns `None` if `text` does not begin with such an escape.
pub(crate) fn past_escaped(text: &str) -> Option<&str>
    ensures finds { ReadsPrefix IsEscapedChar (chars text.now) result }
    ensures utf8 { IfSome result (λ rest. IsUtf8 rest.now) }
{
    let rest = past_char(text, '\\')?;
    past_escape(rest, false, false)
}

/// Returns the rest of `text` after one ASCII character or escape that a byte literal may contain.
///
/// Returns `None` if `text` begins with neither of them.
pub(crate) fn past_byte(text: &str) -> Option<&str>
    ensures finds { ReadsPrefix IsByte (chars text.now) result }
    ensures utf8 { IfSome result (λ rest. IsUtf8 rest.now) }
{
    let (first, rest) = next_char(text)?;
    if first == '\\' {
        past_escape(rest, false, true)
    } else if is_byte(first) {
        Some(rest)
    } else {
        None
    }
}

/// Returns the rest of `text` after a leading character literal without an escape.
///
/// The literal includes its suffix. Returns `None` if `text` does not begin with such a literal.
#[inline(always)]
pub fn past_plain_char(text: &str) -> Option<&str>
    ensures tries { ReadsLongest (IsQuoted (IsOne is_char)) (chars text.now) result }
    ensures utf8 { IfSome result (λ rest. IsUtf8 rest.now) }
{
    let start = past_char(text, '\'')?;
    let end = past_plain(start)?;
    past_end(end)
}

/// Returns the rest of `text` after a leading character literal that contains an escape.
///
/// The literal includes its suffix. Returns `None` if `text` does not begin with such a literal.
#[inline(always)]
pub fn past_escaped_char(text: &str) -> Option<&str>
    ensures tries { ReadsLongest (IsQuoted IsEscapedChar) (chars text.now) result }
    ensures utf8 { IfSome result (λ rest. IsUtf8 rest.now) }
{
    let start = past_char(text, '\'')?;
    let end = past_escaped(start)?;
    past_end(end)
}

/// Returns the rest of `text` after the part of a byte literal that begins at its apostrophe.
fn past_quoted_byte(text: &str) -> Option<&str>
    ensures tries { ReadsLongest (IsQuoted IsByte) (chars text.now) result }
    ensures utf8 { IfSome result (λ rest. IsUtf8 rest.now) }
{
    let start = past_char(text, '\'')?;
    let end = past_byte(start)?;
    past_end(end)
}

/// Returns the rest of `text` after a leading byte literal, such as `b'a'`.
///
/// The literal includes its suffix. Returns `None` if `text` does not begin with such a literal.
#[inline(always)]
pub fn past_byte_char(text: &str) -> Option<&str>
    ensures tries { ReadsLongest (After lower_b (IsQuoted IsByte)) (chars text.now) result }
    ensures utf8 { IfSome result (λ rest. IsUtf8 rest.now) }
{
    let start = past_char(text, 'b')?;
    past_quoted_byte(start)
}
