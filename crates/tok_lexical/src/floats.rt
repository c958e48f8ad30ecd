//! Functions that skip floats, and decimal integers with a dot directly after them.
ghost use Rattle.std.specs.Prelude.{IfSome};
ghost use Rattle.std.specs.Str.{chars, IsUtf8};
ghost use Rattle.tok_lexical.specs.Pieces.{ReadsLongest};
ghost use Rattle.tok_lexical.specs.Floats.{IsExponentDigits, IsSigned, IsExponent, IsFraction, IsFloatTail, IsFloat, IsPointed};

use crate::numbers::{is_exponent, past_digits, past_number_suffix, past_some_decimals};
use crate::text::{past_char, past_first};
use crate::words::past_suffix;

/// Returns the rest of `text` after the leading digits of an exponent and a suffix.
fn past_exponent_digits(text: &str) -> Option<&str>
    ensures tries { ReadsLongest IsExponentDigits (chars text.now) result }
    ensures utf8 { IfSome result (λ rest. IsUtf8 rest.now) }
{
    let (found, rest) = past_digits(text, 10);
    if found { Some(past_suffix(rest)) } else { None }
}

/// Returns the rest of `text` after an optional sign, the digits of an exponent and a suffix.
fn past_signed(text: &str) -> Option<&str>
    ensures tries { ReadsLongest IsSigned (chars text.now) result }
    ensures utf8 { IfSome result (λ rest. IsUtf8 rest.now) }
{
    if let Some(rest) = past_char(text, '+') {
        return past_exponent_digits(rest);
    }
    if let Some(rest) = past_char(text, '-') {
        return past_exponent_digits(rest);
    }
    past_exponent_digits(text)
}

/// Returns the rest of `text` after a leading exponent, such as `e10`, and its suffix.
///
/// Returns `None` if `text` does not begin with an exponent.
pub fn past_exponent(text: &str) -> Option<&str>
    ensures tries { ReadsLongest IsExponent (chars text.now) result }
    ensures utf8 { IfSome result (λ rest. IsUtf8 rest.now) }
{
    if is_exponent(text) {
        past_signed(past_first(text))
    } else {
        None
    }
}

/// Skips the part of a float after its dot, and returns the rest of `text`. `text` begins directly
/// after the dot.
///
/// The skipped part consists of digits, an optional exponent and an optional suffix. Returns `None`
/// if `text` does not begin with a digit.
#[inline(never)]
pub fn past_fraction(text: &str) -> Option<&str>
    ensures tries { ReadsLongest IsFraction (chars text.now) result }
    ensures utf8 { IfSome result (λ rest. IsUtf8 rest.now) }
{
    let rest = past_some_decimals(text)?;
    match past_exponent(rest) {
        Some(end) => Some(end),
        None => Some(past_number_suffix(rest, 10)),
    }
}

/// Skips the part of a float after its first digits, and returns the rest of `text`.
fn past_float_tail(text: &str) -> Option<&str>
    ensures tries { ReadsLongest IsFloatTail (chars text.now) result }
    ensures utf8 { IfSome result (λ rest. IsUtf8 rest.now) }
{
    match past_char(text, '.') {
        Some(rest) => past_fraction(rest),
        None => past_exponent(text),
    }
}

/// Returns the rest of `text` after a leading float, such as `1.5` or `2e3f32`.
///
/// Returns `None` if `text` does not begin with a float.
#[inline(never)]
pub fn past_float(text: &str) -> Option<&str>
    ensures tries { ReadsLongest IsFloat (chars text.now) result }
    ensures utf8 { IfSome result (λ rest. IsUtf8 rest.now) }
{
    let rest = past_some_decimals(text)?;
    past_float_tail(rest)
}

/// Returns the rest of `text` after leading decimal digits and a dot, such as `1.`.
///
/// Returns `None` if `text` does not begin with decimal digits and a dot.
#[inline(never)]
pub fn past_pointed(text: &str) -> Option<&str>
    ensures tries { ReadsLongest IsPointed (chars text.now) result }
    ensures utf8 { IfSome result (λ rest. IsUtf8 rest.now) }
{
    let rest = past_some_decimals(text)?;
    past_char(rest, '.')
}
