//! Functions that skip raw strings.
ghost use Rattle.std.specs.Prelude.{◌≡◌, ℕ, ◌<◌, ◌∷◌, ◌++◌, List, MatchOption, IfSome};
ghost use Rattle.std.specs.Str.{chars, IsUtf8};
ghost use Rattle.tok_lexical.specs.Ascii.{lower_r, quote};
ghost use Rattle.tok_lexical.specs.Pieces.{After, ReadsLongest};
ghost use Rattle.tok_lexical.specs.Private.Finds.{ReadsPrefix};
ghost use Rattle.tok_lexical.specs.Raw.{EndsAt, IsRaw, IsRawString};

use crate::contents::Contents;
use crate::prefixes::past_number_signs;
use crate::text::{front_of, next_char, past_char, past_others};
use crate::words::past_suffix;

/// The most number signs that a raw string may have before its quote.
pub(crate) const MOST_SIGNS: usize = 255;

/// Returns `text` without the leading text `front`, or `None` if `text` does not begin with
/// `front`.
fn past_same<'a>(text: &'a str, front: &str) -> Option<&'a str>
    ensures chars { MatchOption result
        ((more : List ℕ) → chars text.now ≡ chars front.now ++ more → ⊥)
        (λ rest. chars text.now ≡ chars front.now ++ chars rest.now) }
    ensures utf8 { IfSome result (λ rest. IsUtf8 rest.now) }
{
    let mut rest = text;
    let mut left = front;
    while let Some((wanted, more)) = next_char(left) {
        let Some((c, after)) = next_char(rest) else {
            return None;
        };
        if c != wanted {
            return None;
        }
        rest = after;
        left = more;
    }
    Some(rest)
}

/// Returns the rest of `text` after the contents, the closing quote and the `#` characters of a raw
/// string.
///
/// `text` begins after the opening quote. The closing quote is the first quote directly before
/// `hashes`. Returns `None` if there is no such quote.
pub(crate) fn past_raw_body<'a>(text: &'a str, hashes: &str) -> Option<&'a str>
    ensures finds { ReadsPrefix (EndsAt (quote ∷ chars hashes.now)) (chars text.now) result }
    ensures utf8 { IfSome result (λ rest. IsUtf8 rest.now) }
{
    let mut rest = text;
    while let Some(after) = past_char(past_others(rest, b'"', b'"'), '"') {
        if let Some(end) = past_same(after, hashes) {
            return Some(end);
        }
        rest = after;
    }
    None
}

/// Returns the rest of `text` after a raw string and its suffix. `text` begins after the letters of
/// the raw string's prefix.
fn past_raw_rest(text: &str) -> Option<&str>
    ensures tries { ReadsLongest IsRaw (chars text.now) result }
    ensures utf8 { IfSome result (λ rest. IsUtf8 rest.now) }
{
    let quote = past_number_signs(text);
    let hashes = front_of(text, quote);
    if hashes.len() > MOST_SIGNS {
        return None;
    }
    let start = past_char(quote, '"')?;
    let end = past_raw_body(start, hashes)?;
    Some(past_suffix(end))
}

/// Returns the rest of `text` after a leading `r`, the rest of a raw string and its suffix.
fn past_raw_text(text: &str) -> Option<&str>
    ensures tries { ReadsLongest (After lower_r IsRaw) (chars text.now) result }
    ensures utf8 { IfSome result (λ rest. IsUtf8 rest.now) }
{
    let rest = past_char(text, 'r')?;
    past_raw_rest(rest)
}

/// Returns the rest of `text` after a leading `letter` and `r`, the rest of a raw string and its
/// suffix.
///
/// # Requires
///
/// `letter` must be an ASCII character.
fn past_raw_by(text: &str, letter: char) -> Option<&str>
    requires ascii { letter < 128 }
    ensures tries { ReadsLongest (After letter (After lower_r IsRaw)) (chars text.now) result }
    ensures utf8 { IfSome result (λ rest. IsUtf8 rest.now) }
{
    let rest = past_char(text, letter)?;
    past_raw_text(rest)
}

/// Returns the rest of `text` after a leading raw string of the kind `contents` and its suffix.
///
/// Returns `None` if `text` does not begin with such a string.
#[inline(never)]
pub fn past_raw_string(text: &str, contents: Contents) -> Option<&str>
    ensures tries { ReadsLongest (IsRawString contents) (chars text.now) result }
    ensures utf8 { IfSome result (λ rest. IsUtf8 rest.now) }
{
    match contents {
        Contents::Text => past_raw_text(text),
        Contents::Bytes => past_raw_by(text, 'b'),
        Contents::C => past_raw_by(text, 'c'),
    }
}
