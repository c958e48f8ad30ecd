//! Functions that skip escapes.
ghost use Rattle.std.specs.Prelude.{◌≡◌, ◌≤◌, IfSome, length, ◌<◌, false, if◌then◌else◌, MatchBool};
ghost use Rattle.std.specs.Str.{chars, IsUtf8};
ghost use Rattle.tok_lexical.specs.Private.Finds.{ReadsPrefix};
ghost use Rattle.tok_lexical.specs.Strings.{is_simple_escape, IsHex, NamesChar, IsCode, IsLineEnd, IsEscape, IsCEscape};

use crate::numbers::past_digits;
use crate::text::{front_of, next_char, past_char, past_pair};

fn is_simple_escape(c: char) -> bool
    ensures { result ≡ is_simple_escape c }
{
    matches!(c, 'n' | 'r' | 't' | '\\' | '0' | '\'' | '"')
}

/// Returns the rest of `text` after two hexadecimal digits, of which the first is below `top`.
fn past_hex(text: &str, top: u32) -> Option<&str>
    requires low { 2 ≤ top }
    requires high { top ≤ 16 }
    ensures finds { ReadsPrefix (IsHex top) (chars text.now) result }
    ensures utf8 { IfSome result (λ rest. IsUtf8 rest.now) }
    ensures shorter { IfSome result (λ rest. length rest.now < length text.now) }
{
    let (high, rest) = next_char(text)?;
    let (low, rest) = next_char(rest)?;
    if !high.is_digit(top) {
        return None;
    }
    if low.is_digit(16) { Some(rest) } else { None }
}

/// Returns `true` if `digits` has at most six hexadecimal digits, and these digits name a
/// character.
fn names_char(digits: &str) -> bool
    ensures { MatchBool result (NamesChar (chars digits.now)) (NamesChar (chars digits.now) → ⊥) }
{
    let mut rest = digits;
    let mut value = 0u32;
    let mut count = 0u32;
    while let Some((c, after)) = next_char(rest) {
        if let Some(digit) = c.to_digit(16) {
            if count == 6 {
                return false;
            }
            if value > 0x10_FFFF {
                return false;
            }
            count += 1;
            value = value * 16 + digit;
        }
        rest = after;
    }
    char::from_u32(value).is_some()
}

/// Returns the rest of `text` after the braces of a `\u{..}` escape. `text` begins after the `\u`.
fn past_code(text: &str) -> Option<&str>
    ensures finds { ReadsPrefix IsCode (chars text.now) result }
    ensures utf8 { IfSome result (λ rest. IsUtf8 rest.now) }
    ensures shorter { IfSome result (λ rest. length rest.now < length text.now) }
{
    let start = past_char(text, '{')?;
    let (first, second) = next_char(start)?;
    if !first.is_digit(16) {
        return None;
    }
    let (_, after) = past_digits(second, 16);
    let rest = past_char(after, '}')?;
    if names_char(front_of(start, after)) {
        Some(rest)
    } else {
        None
    }
}

/// Returns the rest of `text` after a leading line ending, which is LF or CRLF.
fn past_line_end(text: &str) -> Option<&str>
    ensures finds { ReadsPrefix IsLineEnd (chars text.now) result }
    ensures utf8 { IfSome result (λ rest. IsUtf8 rest.now) }
    ensures shorter { IfSome result (λ rest. length rest.now < length text.now) }
{
    match past_char(text, '\n') {
        Some(rest) => Some(rest),
        None => past_pair(text, '\r', '\n'),
    }
}

/// Returns the number that the first digit of an `\x` escape must be less than.
fn top_digit(wide: bool) -> u32
    ensures value { result ≡ (if wide then 16 else 8) }
    ensures low { 2 ≤ result }
    ensures high { result ≤ 16 }
{
    if wide { 16 } else { 8 }
}

/// Returns the rest of `text` after an escape. `text` begins after the backslash of the escape.
///
/// If `line_ends` is `true`, a backslash before a line ending is also an escape. If `wide` is
/// `true`, the digits after `\x` may exceed 7F, and `\u` is not an escape. Returns `None` if the
/// escape is invalid.
pub fn past_escape(text: &str, line_ends: bool, wide: bool) -> Option<&str>
    ensures finds { ReadsPrefix (IsEscape line_ends wide) (chars text.now) result }
    ensures utf8 { IfSome result (λ rest. IsUtf8 rest.now) }
    ensures shorter { IfSome result (λ rest. length rest.now < length text.now) }
{
    let (kind, rest) = next_char(text)?;
    if is_simple_escape(kind) {
        Some(rest)
    } else if kind == 'x' {
        past_hex(rest, top_digit(wide))
    } else if kind == 'u' {
        if wide { None } else { past_code(rest) }
    } else if line_ends {
        past_line_end(text)
    } else {
        None
    }
}

/// Returns the rest of `text` after an escape of a C string. `text` begins after the backslash of
/// the escape.
///
/// Returns `None` if the escape is invalid.
pub fn past_c_escape(text: &str) -> Option<&str>
    ensures finds { ReadsPrefix IsCEscape (chars text.now) result }
    ensures utf8 { IfSome result (λ rest. IsUtf8 rest.now) }
    ensures shorter { IfSome result (λ rest. length rest.now < length text.now) }
{
    match past_char(text, 'u') {
        Some(rest) => past_code(rest),
        None => past_escape(text, true, true),
    }
}
