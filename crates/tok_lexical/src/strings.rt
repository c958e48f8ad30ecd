//! Functions that skip strings.
ghost use Rattle.std.specs.Prelude.{IfSome, length, ◌<◌};
ghost use Rattle.std.specs.Str.{chars, IsUtf8};
ghost use Rattle.tok_lexical.specs.Ascii.{lower_b, lower_c};
ghost use Rattle.tok_lexical.specs.Pieces.{After, ReadsLongest};
ghost use Rattle.tok_lexical.specs.Private.Finds.{FindsUnits, ReadsPrefix};
ghost use Rattle.tok_lexical.specs.Strings.{EscapeOf, IsString};
ghost use Rattle.tok_lexical.specs.declared.contents.Contents.TheVariants.{Text, Bytes, C};

use crate::contents::Contents;
use crate::escapes::{past_c_escape, past_escape};
use crate::text::{next_char, past_char, past_others};
use crate::words::past_suffix;

/// Returns the rest of `text` after an escape in a string of the kind `contents`. `text` begins
/// after the backslash.
#[inline(always)]
fn past_escape_of(text: &str, contents: Contents) -> Option<&str>
    ensures finds { ReadsPrefix (EscapeOf contents) (chars text.now) result }
    ensures utf8 { IfSome result (λ rest. IsUtf8 rest.now) }
    ensures shorter { IfSome result (λ rest. length rest.now < length text.now) }
{
    match contents {
        Contents::Text => past_escape(text, true, false),
        Contents::Bytes => past_escape(text, true, true),
        Contents::C => past_c_escape(text),
    }
}

/// Skips one escape, or all characters up to the next escape or quote, and returns the rest of
/// `text`.
///
/// Returns `None` if `text` is empty, or begins with a quote or an invalid escape.
#[inline(always)]
pub(crate) fn past_units(text: &str, contents: Contents) -> Option<&str>
    ensures finds { FindsUnits contents (chars text.now) result }
    ensures utf8 { IfSome result (λ rest. IsUtf8 rest.now) }
    ensures shorter { IfSome result (λ rest. length rest.now < length text.now) }
{
    if let Some(rest) = past_char(text, '\\') {
        return past_escape_of(rest, contents);
    }
    let (first, rest) = next_char(text)?;
    if first == '"' {
        None
    } else {
        Some(past_others(rest, b'"', b'\\'))
    }
}

/// Returns the rest of `text` after a string of the kind `contents` and its suffix. `text` begins
/// at the opening quote.
// Inlined, so that each kind has a loop of its own.
#[inline(always)]
fn past_string_of(text: &str, contents: Contents) -> Option<&str>
    ensures tries { ReadsLongest (IsString contents) (chars text.now) result }
    ensures utf8 { IfSome result (λ rest. IsUtf8 rest.now) }
{
    let start = past_char(text, '"')?;
    let mut rest = start;
    while let Some(after) = past_units(rest, contents) {
        rest = after;
    }
    let end = past_char(rest, '"')?;
    Some(past_suffix(end))
}

/// Returns the rest of `text` after a leading string literal and its suffix.
///
/// Returns `None` if `text` does not begin with a string literal.
#[inline(always)]
pub fn past_string(text: &str) -> Option<&str>
    ensures tries { ReadsLongest (IsString Text) (chars text.now) result }
    ensures utf8 { IfSome result (λ rest. IsUtf8 rest.now) }
{
    past_string_of(text, Contents::Text)
}

/// Returns the rest of `text` after a leading byte string literal and its suffix.
///
/// Returns `None` if `text` does not begin with a byte string literal.
#[inline(never)]
pub fn past_byte_string(text: &str) -> Option<&str>
    ensures tries { ReadsLongest (After lower_b (IsString Bytes)) (chars text.now) result }
    ensures utf8 { IfSome result (λ rest. IsUtf8 rest.now) }
{
    let rest = past_char(text, 'b')?;
    past_string_of(rest, Contents::Bytes)
}

/// Returns the rest of `text` after a leading C string literal and its suffix.
///
/// Returns `None` if `text` does not begin with a C string literal.
#[inline(never)]
pub fn past_c_string(text: &str) -> Option<&str>
    ensures tries { ReadsLongest (After lower_c (IsString C)) (chars text.now) result }
    ensures utf8 { IfSome result (λ rest. IsUtf8 rest.now) }
{
    let rest = past_char(text, 'c')?;
    past_string_of(rest, Contents::C)
}
