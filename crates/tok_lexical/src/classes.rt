//! White space, punctuation characters, and the characters that open and close groups.
ghost use Rattle.std.specs.Prelude.{◌≡◌, ◌≤◌, ℕ, List, length, true};
ghost use Rattle.std.specs.Str.{chars};
ghost use Rattle.tok_lexical.specs.Private.Fronts.{is_ascii_whitespace, begins_passing, begins_visibly};
ghost use Rattle.tok_lexical.specs.Characters.{is_whitespace, is_punct, is_punct_or_apostrophe, opening_mark, closing_mark};
ghost use Rattle.tok_lexical.specs.Delimiters.{is_invisible};
ghost use Rattle.tok_lexical.specs.Pieces.{Skips};

use crate::delimiter::Delimiter;
use crate::scan::{Blanks, ByteTest};
use crate::text::{begins_beyond_ascii, next_char, past_char, past_run};

/// Returns `true` if `c` has the Unicode property Pattern_White_Space.
pub fn is_whitespace(c: char) -> bool
    ensures { result ≡ is_whitespace c }
{
    // Nearly all characters that this is asked of are ASCII.
    if c < '\u{80}' {
        Blanks.holds(c as u8)
    } else {
        matches!(
            c,
            '\u{85}' | '\u{200E}' | '\u{200F}' | '\u{2028}' | '\u{2029}'
        )
    }
}

/// Returns `true` if `text` begins with a visible ASCII character.
#[inline]
fn begins_visibly(text: &str) -> bool
    ensures { result ≡ begins_visibly (chars text.now) }
{
    match text.as_bytes().first() {
        Some(byte) => byte.is_ascii_graphic(),
        None => false,
    }
}

/// Returns `text` without its leading white space.
#[inline]
pub fn past_whitespace(text: &str) -> &str
    ensures skips { (front : List ℕ)
        × Skips is_whitespace (chars text.now) front (chars result.now) }
    ensures shorter { length result.now ≤ length text.now }
{
    // Most of it is one space or nothing.
    let rest = past_char(text, ' ').unwrap_or(text);
    if begins_visibly(rest) {
        rest
    } else {
        past_any_whitespace(rest)
    }
}

/// Returns `text` without its leading ASCII white space.
#[inline(always)]
fn past_ascii_whitespace(text: &str) -> &str
    ensures skips { (front : List ℕ)
        × Skips is_ascii_whitespace (chars text.now) front (chars result.now) }
    ensures shorter { length result.now ≤ length text.now }
{
    if begins_beyond_ascii(text) {
        text
    } else {
        past_run(text, &Blanks)
    }
}

/// Returns `text` without its leading white space, of any kind and length.
#[inline(always)]
fn past_any_whitespace(text: &str) -> &str
    ensures skips { (front : List ℕ)
        × Skips is_whitespace (chars text.now) front (chars result.now) }
    ensures shorter { length result.now ≤ length text.now }
{
    let rest = past_ascii_whitespace(text);
    if begins_beyond_ascii(rest) {
        past_beyond_ascii(rest)
    } else {
        rest
    }
}

/// Returns `text` without its leading white space.
///
/// The caller has checked that `text` begins with a character beyond ASCII.
// Kept out of line, so that what comes before it is inlined. Most characters beyond ASCII are no
// white space: nearly all are told here by their first byte.
#[inline(never)]
fn past_beyond_ascii(text: &str) -> &str
    ensures skips { (front : List ℕ)
        × Skips is_whitespace (chars text.now) front (chars result.now) }
    ensures shorter { length result.now ≤ length text.now }
{
    if !may_begin_whitespace(text) {
        return text;
    }
    match next_char(text) {
        Some((c, rest)) if is_whitespace(c) => past_other_whitespace(rest),
        _ => text,
    }
}

/// Returns `false` only if the first byte of `text` begins no white space.
// White space beyond ASCII begins with 0xC2 or 0xE2. No character begins with 0x80 to 0xC1.
#[inline(always)]
fn may_begin_whitespace(text: &str) -> bool
    ensures { begins_passing is_whitespace (chars text.now) ≡ true → result ≡ true }
{
    match text.as_bytes().first() {
        Some(byte) if *byte > 0xC2 => *byte == 0xE2,
        Some(_) => true,
        None => false,
    }
}

/// Returns `text` without its leading white space, and reads characters beyond ASCII one at a time.
// Kept out of line: little white space is beyond ASCII.
#[inline(never)]
fn past_other_whitespace(text: &str) -> &str
    ensures skips { (front : List ℕ)
        × Skips is_whitespace (chars text.now) front (chars result.now) }
    ensures shorter { length result.now ≤ length text.now }
{
    let mut rest = text;
    while let Some((c, after)) = next_char(rest) {
        if !is_whitespace(c) {
            break;
        }
        rest = past_ascii_whitespace(after);
    }
    rest
}

/// Returns `true` if `c` is a punctuation character other than the apostrophe.
pub fn is_punct(c: char) -> bool
    ensures { result ≡ is_punct c }
{
    matches!(c, '!' | '#'..='&' | '*'..='/' | ':'..='@' | '^' | '|' | '~')
}

/// Returns `true` if `c` is a punctuation character or an apostrophe.
pub fn is_punct_or_apostrophe(c: char) -> bool
    ensures { result ≡ is_punct_or_apostrophe c }
{
    is_punct(c) || c == '\''
}

/// Returns the character that opens a group with the delimiter `delimiter`.
///
/// For `Delimiter::None`, the character is `«`.
pub fn opening_mark(delimiter: Delimiter) -> char
    ensures { result ≡ opening_mark delimiter }
{
    match delimiter {
        Delimiter::Parenthesis => '(',
        Delimiter::Brace => '{',
        Delimiter::Bracket => '[',
        Delimiter::None => '\u{AB}',
    }
}

/// Returns the character that closes a group with the delimiter `delimiter`.
///
/// For `Delimiter::None`, the character is `»`.
pub fn closing_mark(delimiter: Delimiter) -> char
    ensures { result ≡ closing_mark delimiter }
{
    match delimiter {
        Delimiter::Parenthesis => ')',
        Delimiter::Brace => '}',
        Delimiter::Bracket => ']',
        Delimiter::None => '\u{BB}',
    }
}

/// Returns `true` if `delimiter` is `Delimiter::None`.
pub fn is_invisible(delimiter: Delimiter) -> bool
    ensures { result ≡ is_invisible delimiter }
{
    match delimiter {
        Delimiter::None => true,
        _ => false,
    }
}
