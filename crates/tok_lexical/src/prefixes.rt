//! Functions that skip the prefixes of raw strings, byte strings and C strings.
ghost use Rattle.std.specs.Prelude.{◌==◌, ◌<◌, ℕ, List, IfSome};
ghost use Rattle.std.specs.Str.{chars, IsUtf8};
ghost use Rattle.tok_lexical.specs.Ascii.{lower_r, number_sign};
ghost use Rattle.tok_lexical.specs.Pieces.{After, ReadsLongest, Skips};
ghost use Rattle.tok_lexical.specs.Private.Finds.{ReadsPrefix};
ghost use Rattle.tok_lexical.specs.Strings.{IsHashes, IsPrefixed, IsPrefixOf, IsStringPrefix};

use crate::contents::Contents;
use crate::text::{next_char, past_char};

/// Returns `text` without its leading `#` characters.
pub fn past_number_signs(text: &str) -> &str
    ensures { (front : List ℕ)
        × Skips (λ c. c == number_sign) (chars text.now) front (chars result.now) }
{
    let mut rest = text;
    while let Some(after) = past_char(rest, '#') {
        rest = after;
    }
    rest
}

/// Returns the rest of `text` after any number of leading `#` characters and a quote.
fn past_hashes(text: &str) -> Option<&str>
    ensures finds { ReadsPrefix IsHashes (chars text.now) result }
    ensures utf8 { IfSome result (λ rest. IsUtf8 rest.now) }
{
    past_char(past_number_signs(text), '"')
}

/// Returns the rest of `text` after a leading `r`, any number of `#` characters and a quote.
fn past_raw(text: &str) -> Option<&str>
    ensures finds { ReadsPrefix (After lower_r IsHashes) (chars text.now) result }
    ensures utf8 { IfSome result (λ rest. IsUtf8 rest.now) }
{
    let rest = past_char(text, 'r')?;
    past_hashes(rest)
}

/// Returns the rest of `text` after a leading quote, or after the prefix and the quote of a raw
/// string.
fn past_prefixed(text: &str) -> Option<&str>
    ensures finds { ReadsPrefix IsPrefixed (chars text.now) result }
    ensures utf8 { IfSome result (λ rest. IsUtf8 rest.now) }
{
    match past_char(text, '"') {
        Some(rest) => Some(rest),
        None => past_raw(text),
    }
}

/// Returns the rest of `text` after `letter` and the opening quote of a string, which may be raw.
fn past_prefixed_by(text: &str, letter: char) -> Option<&str>
    requires ascii { letter < 128 }
    ensures finds { ReadsPrefix (After letter IsPrefixed) (chars text.now) result }
    ensures utf8 { IfSome result (λ rest. IsUtf8 rest.now) }
{
    let rest = past_char(text, letter)?;
    past_prefixed(rest)
}

/// Returns the rest of `text` after the prefix and the opening quote of a string literal.
///
/// `contents` is the kind of the literal. A literal of the kind `Contents::Text` has a prefix only
/// if it is raw. Returns `None` if `text` does not begin with such a prefix and a quote.
#[inline(never)]
pub fn past_prefix_of(text: &str, contents: Contents) -> Option<&str>
    ensures tries { ReadsLongest (IsPrefixOf contents) (chars text.now) result }
    ensures utf8 { IfSome result (λ rest. IsUtf8 rest.now) }
{
    match contents {
        Contents::Text => past_raw(text),
        Contents::Bytes => past_prefixed_by(text, 'b'),
        Contents::C => past_prefixed_by(text, 'c'),
    }
}

/// Returns the rest of `text` after the prefix and the opening quote of a raw string, a byte string
/// or a C string.
///
/// Returns `None` if `text` does not begin with such a prefix and a quote.
#[inline(always)]
pub fn past_string_prefix(text: &str) -> Option<&str>
    ensures tries { ReadsLongest IsStringPrefix (chars text.now) result }
    ensures utf8 { IfSome result (λ rest. IsUtf8 rest.now) }
{
    let (first, rest) = next_char(text)?;
    if first == 'b' {
        past_prefixed(rest)
    } else if first == 'c' {
        past_prefixed(rest)
    } else {
        past_raw(text)
    }
}
