//! Functions that recognize and skip identifiers.
ghost use Rattle.std.specs.Prelude.{◌≡◌, ℕ, List, IfSome, MatchBool};
ghost use Rattle.std.specs.Str.{chars, IsUtf8};
ghost use Rattle.unicode_ident.specs.Ident.{is_xid_continue};
ghost use Rattle.tok_lexical.specs.Ascii.{apostrophe};
ghost use Rattle.tok_lexical.specs.Following.{starts_name};
ghost use Rattle.tok_lexical.specs.Pieces.{After, IsLongestPrefix, ReadsLongest, Skips};
ghost use Rattle.tok_lexical.specs.Words.{IsIdentifier, IsRawIdentifier, IsName, IsSuffix, is_identifier_start, has_no_raw, is_missing_raw, is_plain, is_raw_prefix};

use crate::scan::{ByteTest, Continues};
use crate::text::{begins_beyond_ascii, next_char, past_char, past_pair, past_rare_run};
use unicode_ident::{is_xid_continue, is_xid_start};

/// Returns `true` if `c` may begin an identifier.
// Inlined, and most are ASCII: each literal asks this of the character after it.
#[inline(always)]
pub fn is_identifier_start(c: char) -> bool
    ensures { result ≡ is_identifier_start c }
{
    if c < '\u{80}' {
        c.is_ascii_alphabetic() || c == '_'
    } else {
        is_xid_start(c)
    }
}

/// Returns `true` if `text` begins with a character that may begin an identifier.
#[inline(always)]
pub fn starts_name(text: &str) -> bool
    ensures { result ≡ starts_name (chars text.now) }
{
    match next_char(text) {
        Some((first, _)) => is_identifier_start(first),
        None => false,
    }
}

// Returns `true` if a character may go on in an identifier.
fn goes_on(c: char) -> bool
    ensures { result ≡ is_xid_continue c }
{
    if c < '\u{80}' {
        Continues.holds(c as u8)
    } else {
        is_xid_continue(c)
    }
}

// Returns the text after the characters at the front that may go on in an identifier, by each
// character.
// Kept out of line: few names have a character beyond ASCII.
#[inline(never)]
fn past_any_continues(text: &str) -> &str
    ensures { (front : List ℕ) × Skips is_xid_continue (chars text.now) front (chars result.now) }
{
    let mut rest = text;
    while let Some((c, after)) = next_char(rest) {
        // The first byte tells sooner than the decoded character whether it is ASCII.
        let passes = if begins_beyond_ascii(rest) {
            is_xid_continue(c)
        } else {
            goes_on(c)
        };
        if !passes {
            break;
        }
        rest = after;
    }
    rest
}

/// Returns `text` without its leading characters that may continue an identifier.
#[inline(always)]
pub fn past_continues(text: &str) -> &str
    ensures { (front : List ℕ) × Skips is_xid_continue (chars text.now) front (chars result.now) }
{
    // Many names are one letter, and no run is looked for after those.
    let rest = past_rare_run(text, &Continues);
    if begins_beyond_ascii(rest) {
        past_any_continues(rest)
    } else {
        rest
    }
}

/// Returns the rest of `text` after a leading identifier that is not raw.
///
/// Returns `None` if `text` does not begin with such an identifier.
pub fn past_identifier(text: &str) -> Option<&str>
    ensures tries { ReadsLongest IsIdentifier (chars text.now) result }
    ensures utf8 { IfSome result (λ rest. IsUtf8 rest.now) }
{
    let (first, rest) = next_char(text)?;
    if is_identifier_start(first) {
        Some(past_continues(rest))
    } else {
        None
    }
}

/// Returns the rest of `text` after a leading suffix, or all of `text` if there is no suffix.
// Inlined, without what comes after the test: most literals have no suffix.
#[inline(always)]
pub fn past_suffix(text: &str) -> &str
    ensures { (suffix : List ℕ)
        × IsLongestPrefix IsSuffix (chars text.now) suffix (chars result.now) }
{
    if starts_name(text) {
        past_identifier(text).unwrap_or(text)
    } else {
        text
    }
}

/// Returns the rest of `text` after a leading raw identifier.
///
/// Returns `None` if `text` does not begin with a raw identifier.
#[inline(always)]
pub fn past_raw_identifier(text: &str) -> Option<&str>
    ensures tries { ReadsLongest IsRawIdentifier (chars text.now) result }
    ensures utf8 { IfSome result (λ rest. IsUtf8 rest.now) }
{
    let name = past_pair(text, 'r', '#')?;
    past_identifier(name)
}

/// Returns the rest of `text` after a leading identifier, which may be raw.
///
/// Returns `None` if `text` does not begin with an identifier.
pub fn past_name(text: &str) -> Option<&str>
    ensures tries { ReadsLongest IsName (chars text.now) result }
    ensures utf8 { IfSome result (λ rest. IsUtf8 rest.now) }
{
    match past_raw_identifier(text) {
        Some(rest) => Some(rest),
        None => past_identifier(text),
    }
}

/// Returns the rest of `text` after a leading lifetime, which may be raw.
///
/// Returns `None` if `text` does not begin with a lifetime.
#[inline(always)]
pub fn past_lifetime(text: &str) -> Option<&str>
    ensures tries { ReadsLongest (After apostrophe IsName) (chars text.now) result }
    ensures utf8 { IfSome result (λ rest. IsUtf8 rest.now) }
{
    let name = past_char(text, '\'')?;
    past_name(name)
}

/// Returns the rest of `text` after a leading lifetime that is not raw.
///
/// Returns `None` if `text` does not begin with such a lifetime.
#[inline(always)]
pub fn past_plain_lifetime(text: &str) -> Option<&str>
    ensures tries { ReadsLongest (After apostrophe IsIdentifier) (chars text.now) result }
    ensures utf8 { IfSome result (λ rest. IsUtf8 rest.now) }
{
    let word = past_char(text, '\'')?;
    past_identifier(word)
}

// Compares the bytes of a word, for `has_no_raw`.
fn is_never_raw(word: &str) -> bool
    ensures { result ≡ has_no_raw word.now }
{
    matches!(word, "_" | "self" | "Self" | "super" | "crate")
}

/// Returns `true` if `word` is `_`, `self`, `Self`, `super` or `crate`, which have no raw form.
pub fn has_no_raw(word: &str) -> bool
    ensures { result ≡ has_no_raw (chars word.now) }
{
    is_never_raw(word)
}

/// Returns `true` if `name` consists of `r#` and a word that has no raw form, as in `r#self`.
pub fn is_missing(name: &str) -> bool
    ensures { result ≡ is_missing_raw (chars name.now) }
{
    match past_pair(name, 'r', '#') {
        Some(word) => has_no_raw(word),
        None => false,
    }
}

// Compares the bytes of a word, for `is_raw_prefix`.
fn is_raw_word(word: &str) -> bool
    ensures { result ≡ is_raw_prefix word.now }
{
    matches!(word, "r" | "br")
}

/// Returns `true` if `word` is `r` or `br`, which are prefixes of raw strings.
pub fn is_raw_prefix(word: &str) -> bool
    ensures { result ≡ is_raw_prefix (chars word.now) }
{
    is_raw_word(word)
}

/// Returns `true` if the identifier `name` is not raw.
pub fn is_plain(name: &str) -> bool
    ensures { result ≡ is_plain (chars name.now) }
{
    past_pair(name, 'r', '#').is_none()
}

/// Returns `true` if `text` is an identifier that is not raw.
pub fn is_identifier(text: &str) -> bool
    ensures { MatchBool result (IsIdentifier (chars text.now)) (IsIdentifier (chars text.now) → ⊥) }
{
    match past_identifier(text) {
        Some(rest) => rest.is_empty(),
        None => false,
    }
}
