//! Finds the characters that escapes stand for.
ghost use Rattle.std.specs.Prelude.{◌≡◌, ◌<◌, ◌≤◌, IfSome, length, true};
ghost use Rattle.std.specs.Str.{chars, IsUtf8};
ghost use Rattle.tok_values.specs.Escapes.{FindsCharacter, char_of, code, escape, hex, named_char, simple};

use crate::integers::{is_digits, number};
use tok_lexical::text::{front_of, next_char, past_char, past_others};

// Returns the character that an escape of one character names.
fn simple(kind: char) -> Option<char>
    ensures { result ≡ simple kind }
{
    match kind {
        'n' => Some('\n'),
        'r' => Some('\r'),
        't' => Some('\t'),
        '0' => Some('\0'),
        '\\' | '\'' | '"' => Some(kind),
        _ => None,
    }
}

// Returns the number that two hexadecimal digits write, the first below `top`, and the text after
// them.
fn hex(text: &str, top: u32) -> Option<(char, &str)>
    requires low { 2 ≤ top }
    requires high { top ≤ 16 }
    ensures finds { FindsCharacter (hex top (chars text.now)) result }
    ensures utf8 { IfSome result (λ r. IsUtf8 r.1.now) }
    ensures shorter { IfSome result (λ r. length r.1.now < length text.now) }
{
    let (high, rest) = next_char(text)?;
    let (low, rest) = next_char(rest)?;
    let high = high.to_digit(16)?;
    let low = low.to_digit(16)?;
    if high < top {
        Some(((high * 16 + low) as u8 as char, rest))
    } else {
        None
    }
}

// Returns the character with this code.
fn char_of(number: u64) -> Option<char>
    ensures { result ≡ char_of number }
{
    char::from_u32(u32::try_from(number).ok()?)
}

// Returns the character whose code these digits write.
fn named_char(digits: &str) -> Option<char>
    ensures { result ≡ named_char (chars digits.now) }
{
    if is_digits(digits, 16) {
        char_of(number(digits, 16)?)
    } else {
        None
    }
}

// Returns the character whose code is in braces, and the text after them.
fn code(text: &str) -> Option<(char, &str)>
    ensures finds { FindsCharacter (code (chars text.now)) result }
    ensures utf8 { IfSome result (λ r. IsUtf8 r.1.now) }
    ensures shorter { IfSome result (λ r. length r.1.now < length text.now) }
{
    let start = past_char(text, '{')?;
    let after = past_others(start, b'}', b'}');
    let digits = front_of(start, after);
    let rest = past_char(after, '}')?;
    Some((named_char(digits)?, rest))
}

/// Returns the character that an escape stands for, and the rest of `text` after the escape.
///
/// `text` begins after the backslash. If `wide` is `true`, the digits after `\x` may exceed 7F, and
/// `\u` is not an escape. Returns `None` if the escape is invalid.
#[inline(always)]
pub fn escape(text: &str, wide: bool) -> Option<(char, &str)>
    ensures finds { FindsCharacter (escape wide (chars text.now)) result }
    ensures utf8 { IfSome result (λ r. IsUtf8 r.1.now) }
    ensures shorter { IfSome result (λ r. length r.1.now < length text.now) }
    ensures narrow { wide ≡ true → IfSome result (λ r. r.0 < 256) }
{
    let (kind, rest) = next_char(text)?;
    match kind {
        'x' => hex(rest, if wide { 16 } else { 8 }),
        'u' => { if wide { None } else { code(rest) } }
        _ => Some((simple(kind)?, rest)),
    }
}
