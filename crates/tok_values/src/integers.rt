//! Finds the values of integers.
ghost use Rattle.std.specs.Prelude.{◌≡◌, ◌<◌, ◌≤◌, ◌+◌, ◌*◌, ◌^◌, Some, SomeIff, ℕ, List, MatchBool, MatchOption, length};
ghost use Rattle.std.specs.Str.{chars};
ghost use Rattle.tok_lexical.specs.Numbers.{IsNumberSuffix, has_digit, is_digit_or_underscore, starts_digit};
ghost use Rattle.tok_lexical.specs.Pieces.{Skips};
ghost use Rattle.tok_lexical.specs.Private.Scans.{IsRun};
ghost use Rattle.tok_values.specs.Integers.{ReadsInteger, base_of, integer_fault_words};
ghost use Rattle.tok_values.specs.Numbers.{is_digits, number};

use std::fmt;
use std::fmt::{Display, Formatter, Write};
use tok_lexical::text::{begins_with, front_of, next_char, past_pair};
use tok_lexical::words::is_identifier;

/// The value and the suffix of an integer literal. If the literal has no suffix, `suffix` is empty.
#[derive(Clone, Copy, Debug)]
pub struct Integer<'a> {
    pub value: u64,
    pub suffix: &'a str,
}

/// The reason why a literal has no integer value.
#[derive(Clone, Copy, PartialEq, Eq, Debug)]
pub enum IntegerFault {
    /// The literal is not an integer.
    NotInteger,
    /// The value is above `u64::MAX`.
    TooLarge,
}

/// Writes a description of the reason.
impl Display for IntegerFault {
    ghost output = { λ fault. Some (integer_fault_words fault) };

    fn fmt<W: Write>(&self, f: &mut Formatter<W>) -> fmt::Result {
        match self {
            IntegerFault::NotInteger => f.write_str("expected an integer"),
            IntegerFault::TooLarge => f.write_str("expected an integer below 2^64"),
        }
    }
}

impl std::error::Error for IntegerFault {}

// Returns the number with one digit more, or `None` past `u64::MAX`.
fn appended(value: u64, radix: u32, digit: u32) -> Option<u64>
    ensures { SomeIff result (value * radix + digit < 2 ^ 64) (value * radix + digit) }
{
    value
        .checked_mul(u64::from(radix))?
        .checked_add(u64::from(digit))
}

/// Returns the number that `digits` represents in base `radix`, or `None` if the number is above
/// `u64::MAX`.
///
/// The call ignores characters that are not digits in this base.
///
/// # Requires
///
/// `radix` must be at least 2 and at most 16.
pub fn number(digits: &str, radix: u32) -> Option<u64>
    requires low { 2 ≤ radix }
    requires high { radix ≤ 16 }
    ensures { MatchOption result (2 ^ 64 ≤ number radix (chars digits.now))
        (λ n. n ≡ number radix (chars digits.now)) }
{
    let mut value = 0u64;
    let mut rest = digits.as_bytes();
    while let Some((byte, after)) = rest.split_first() {
        if let Some(digit) = (*byte as char).to_digit(radix) {
            let Some(longer) = appended(value, radix, digit) else {
                return None;
            };
            value = longer;
        }
        rest = after;
    }
    Some(value)
}

// Counts the digits and underscores at the front.
fn digits_len(bytes: &[u8], radix: u32) -> usize
    requires low { 2 ≤ radix }
    requires high { radix ≤ 16 }
    ensures { IsRun (is_digit_or_underscore radix) bytes.now 0 (length bytes.now) result }
{
    let mut end = 0;
    while end < bytes.len() {
        let c = bytes[end] as char;
        if !(c.is_digit(radix) || c == '_') {
            return end;
        }
        end += 1;
    }
    end
}

// Returns the text after the digits and underscores at the front.
pub(crate) fn past_digits(text: &str, radix: u32) -> &str
    requires low { 2 ≤ radix }
    requires high { radix ≤ 16 }
    ensures { (digits : List ℕ)
        × Skips (is_digit_or_underscore radix) (chars text.now) digits (chars result.now) }
{
    let (_, rest) = text.split_at(digits_len(text.as_bytes(), radix));
    rest
}

// Returns `true` if a character is a digit.
fn has_digit(text: &str, radix: u32) -> bool
    requires low { 2 ≤ radix }
    requires high { radix ≤ 16 }
    ensures { result ≡ has_digit radix (chars text.now) }
{
    let mut rest = text;
    while let Some((c, after)) = next_char(rest) {
        if c.is_digit(radix) {
            return true;
        }
        rest = after;
    }
    false
}

/// Returns `true` if `text` consists of underscores and digits in base `radix`, with at least one
/// digit.
///
/// # Requires
///
/// `radix` must be at least 2 and at most 16.
pub fn is_digits(text: &str, radix: u32) -> bool
    requires low { 2 ≤ radix }
    requires high { radix ≤ 16 }
    ensures { result ≡ is_digits radix (chars text.now) }
{
    if !has_digit(text, radix) {
        return false;
    }
    match next_char(past_digits(text, radix)) {
        Some(_) => false,
        None => true,
    }
}

// Returns the base that a number names, and the text after its name.
pub(crate) fn base_of(text: &str) -> (u32, &str)
    ensures base { result.0 ≡ (base_of (chars text.now)).0 }
    ensures rest { chars result.1.now ≡ (base_of (chars text.now)).1 }
    ensures low { 2 ≤ result.0 }
    ensures high { result.0 ≤ 16 }
{
    // Most integers are decimal.
    if !begins_with(text, '0') {
        return (10, text);
    }
    if let Some(rest) = past_pair(text, '0', 'x') {
        return (16, rest);
    }
    if let Some(rest) = past_pair(text, '0', 'o') {
        return (8, rest);
    }
    if let Some(rest) = past_pair(text, '0', 'b') {
        return (2, rest);
    }
    (10, text)
}

// Returns `true` if the text may be the suffix of a number.
fn is_number_suffix(text: &str, radix: u32) -> bool
    requires low { 2 ≤ radix }
    requires high { radix ≤ 16 }
    ensures { MatchBool result (IsNumberSuffix radix (chars text.now))
        (IsNumberSuffix radix (chars text.now) → ⊥) }
{
    let Some((first, _)) = next_char(text) else {
        return true;
    };
    if first.is_digit(radix) || first == '_' || first == 'e' || first == 'E' {
        return false;
    }
    is_identifier(text)
}

// tok_lexical's function of this name decodes a character, since its callers have done so already:
// with this body, raw strings and `0x` took more instructions there.
pub(crate) fn starts_digit(text: &str) -> bool
    ensures { result ≡ starts_digit (chars text.now) }
{
    match text.as_bytes().first() {
        Some(first) => (*first as char).is_digit(10),
        None => false,
    }
}

/// Returns the value and the suffix of an integer literal.
///
/// Returns `NotInteger` if `text` is not an integer literal, and `TooLarge` if the value is above
/// `u64::MAX`.
pub fn read_integer(text: &str) -> Result<Integer<'_>, IntegerFault>
    ensures { ReadsInteger (chars text.now) result }
{
    if !starts_digit(text) {
        return Err(IntegerFault::NotInteger);
    }
    let (radix, rest) = base_of(text);
    let suffix = past_digits(rest, radix);
    let digits = front_of(rest, suffix);
    if !has_digit(digits, radix) || !is_number_suffix(suffix, radix) {
        return Err(IntegerFault::NotInteger);
    }
    match number(digits, radix) {
        Some(value) => Ok(Integer { value, suffix }),
        None => Err(IntegerFault::TooLarge),
    }
}
