//! Finds the text between the quotes of a raw string.
ghost use Rattle.std.specs.Prelude.{ℕ, List, IfSome, MatchOption};
ghost use Rattle.std.specs.Str.{chars, IsUtf8};
ghost use Rattle.tok_lexical.specs.RawQuotes.{InRawQuotes};

use crate::prefixes::past_number_signs;
use crate::raw::{MOST_SIGNS, past_raw_body};
use crate::text::{front_of, past_char};

/// Returns the text between the quotes of a raw string.
///
/// `text` is the raw string without the letters of its prefix, such as `#"a"#`. Returns `None` if
/// `text` has any other form, for example if the string has a suffix.
pub fn in_raw_quotes(text: &str) -> Option<&str>
    ensures reads { MatchOption result
        ((contents : List ℕ) → InRawQuotes (chars text.now) contents → ⊥)
        (λ contents. InRawQuotes (chars text.now) (chars contents.now)) }
    ensures utf8 { IfSome result (λ contents. IsUtf8 contents.now) }
{
    let quote = past_number_signs(text);
    let hashes = front_of(text, quote);
    if hashes.len() > MOST_SIGNS {
        return None;
    }
    let start = past_char(quote, '"')?;
    let end = past_raw_body(start, hashes)?;
    if !end.is_empty() {
        return None;
    }
    // The closing takes as many bytes as a quote and the number signs.
    let (contents, _) = start.split_at(start.len() - (hashes.len() + 1));
    Some(contents)
}
