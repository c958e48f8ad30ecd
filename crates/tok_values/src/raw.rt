//! Finds the text between the quotes of raw strings.
ghost use Rattle.std.specs.Prelude.{ℕ, List, IfSome, MatchOption};
ghost use Rattle.std.specs.Str.{chars, IsUtf8};
ghost use Rattle.tok_values.specs.RawStrings.{IsRawStringValue};
ghost use Rattle.tok_values.specs.Suffixed.{InRaw};

use crate::suffixes::{is_suffix, literal_suffix};
use tok_lexical::in_raw_quotes;
use tok_lexical::text::{begins_with, front_of, past_char};

/// Returns the text between the quotes of a raw string, such as `r"a"`.
///
/// Returns `None` if `text` is not a raw string, or has a suffix.
pub fn in_raw(text: &str) -> Option<&str>
    ensures value { MatchOption result
        ((value : List ℕ) → IsRawStringValue (chars text.now) value → ⊥)
        (λ value. IsRawStringValue (chars text.now) value.now) }
    ensures utf8 { IfSome result (λ value. IsUtf8 value.now) }
{
    let quoted = past_char(text, 'r')?;
    in_raw_quotes(quoted)
}

/// Returns the text between the quotes of a raw string, which may have any suffix.
///
/// Returns `None` if `text` is not a raw string.
pub fn in_raw_by(text: &str) -> Option<&str>
    ensures value { MatchOption result ((value : List ℕ) → InRaw (chars text.now) value → ⊥)
        (λ value. InRaw (chars text.now) value.now) }
    ensures utf8 { IfSome result (λ value. IsUtf8 value.now) }
{
    // Only a raw string is searched for its suffix.
    if !begins_with(text, 'r') {
        return None;
    }
    let suffix = literal_suffix(text);
    if !is_suffix(suffix) {
        return None;
    }
    in_raw(front_of(text, suffix))
}
