//! Finds the suffixes of literals.
ghost use Rattle.std.specs.Prelude.{◌≡◌, ◌≤◌, ◌++◌, [], MatchBool};
ghost use Rattle.std.specs.Str.{chars};
ghost use Rattle.tok_lexical.specs.Words.{IsSuffix};
ghost use Rattle.tok_values.specs.Suffixes.{after_digits, after_exponent, after_fraction, after_marks, after_sign, is_mark, literal_suffix, number_suffix, without_minus};

use crate::integers::{base_of, past_digits, starts_digit};
use tok_lexical::text::{begins_with, front_of, next_char, past_first};
use tok_lexical::words::is_identifier;

// Returns `true` for what a string or a character may end with.
fn is_mark(c: char) -> bool
    ensures { result ≡ is_mark c }
{
    matches!(c, '"' | '\'' | '#')
}

// Returns the text after the last quote, apostrophe or number sign.
fn after_marks(text: &str) -> &str
    ensures { chars result.now ≡ after_marks [] (chars text.now) }
{
    let mut rest = "";
    let mut left = text;
    while let Some((c, after)) = next_char(left) {
        if is_mark(c) {
            rest = after;
        }
        left = after;
    }
    rest
}

fn after_digits(text: &str, radix: u32) -> &str
    requires low { 2 ≤ radix }
    requires high { radix ≤ 16 }
    ensures { chars result.now ≡ after_digits radix (chars text.now) }
{
    past_digits(text, radix)
}

// Returns the text after a dot and digits, if they are at the front.
fn after_fraction(text: &str) -> &str
    ensures { chars result.now ≡ after_fraction (chars text.now) }
{
    if begins_with(text, '.') {
        after_digits(past_first(text), 10)
    } else {
        text
    }
}

// Returns the text after a sign, if one is at the front.
fn after_sign(text: &str) -> &str
    ensures { chars result.now ≡ after_sign (chars text.now) }
{
    if begins_with(text, '+') || begins_with(text, '-') {
        past_first(text)
    } else {
        text
    }
}

// Returns the text after an exponent, if one is at the front.
fn after_exponent(text: &str) -> &str
    ensures { chars result.now ≡ after_exponent (chars text.now) }
{
    if begins_with(text, 'e') || begins_with(text, 'E') {
        after_digits(after_sign(past_first(text)), 10)
    } else {
        text
    }
}

fn number_suffix(text: &str) -> &str
    ensures { chars result.now ≡ number_suffix (chars text.now) }
{
    let (radix, rest) = base_of(text);
    let suffix = after_digits(rest, radix);
    if radix == 10 {
        after_exponent(after_fraction(suffix))
    } else {
        suffix
    }
}

fn without_minus(text: &str) -> &str
    ensures { chars result.now ≡ without_minus (chars text.now) }
{
    if begins_with(text, '-') {
        past_first(text)
    } else {
        text
    }
}

/// Returns the suffix of the literal `text`, or an empty text if the literal has no suffix.
pub fn literal_suffix(text: &str) -> &str
    ensures { chars result.now ≡ literal_suffix (chars text.now) }
{
    let number = without_minus(text);
    if starts_digit(number) {
        number_suffix(number)
    } else {
        after_marks(text)
    }
}

/// Returns the literal `text` without its suffix.
pub fn before_suffix(text: &str) -> &str
    ensures { chars result.now ++ literal_suffix (chars text.now) ≡ chars text.now }
{
    front_of(text, literal_suffix(text))
}

/// Returns `true` if `text` is empty or an identifier, as a suffix must be.
pub fn is_suffix(text: &str) -> bool
    ensures { MatchBool result (IsSuffix (chars text.now)) (IsSuffix (chars text.now) → ⊥) }
{
    text.is_empty() || is_identifier(text)
}
