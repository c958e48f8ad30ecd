//! Functions that skip integers.
ghost use Rattle.std.specs.Prelude.{◌≡◌, ℕ, ◌≤◌, List, MatchOption, IfSome, length, true, false};
ghost use Rattle.std.specs.Str.{chars, IsUtf8};
ghost use Rattle.tok_lexical.specs.Pieces.{IsLongestPrefix, ReadsLongest, Skips};
ghost use Rattle.tok_lexical.specs.Numbers.{base_mark, radix, is_digit_or_underscore, is_exponent, starts_digit, is_fraction, starts_number_suffix, IsNumberSuffix, IsNumber, has_digit, IsBased, IsDecimal, is_bare, is_malformed, is_float};

use crate::scan::Decimals;
use crate::text::{next_ascii, next_char, past_pair, past_rare_run};
use crate::words::{is_identifier_start, past_identifier, starts_name};

/// The base of an integer literal that begins with `0x`, `0o` or `0b`.
#[derive(Clone, Copy, Debug)]
pub enum Base {
    Hexadecimal,
    Octal,
    Binary,
}

impl Base {
    /// Returns the letter of the base's prefix: `x`, `o` or `b`.
    pub fn mark(self) -> char
        ensures { result ≡ base_mark self }
    {
        match self {
            Base::Hexadecimal => 'x',
            Base::Octal => 'o',
            Base::Binary => 'b',
        }
    }

    fn radix(self) -> u32
        ensures value { result ≡ radix self }
        ensures low { 2 ≤ result }
        ensures high { result ≤ 16 }
    {
        match self {
            Base::Hexadecimal => 16,
            Base::Octal => 8,
            Base::Binary => 2,
        }
    }
}

fn is_digit_or_underscore(c: char, radix: u32) -> bool
    requires low { 2 ≤ radix }
    requires high { radix ≤ 16 }
    ensures { result ≡ is_digit_or_underscore radix c }
{
    c.is_digit(radix) || c == '_'
}

/// Skips the leading digits and underscores of `text`, where the digits are in base `radix`.
///
/// Returns a pair: whether at least one of the skipped characters is a digit, and the rest of
/// `text`.
///
/// # Requires
///
/// `radix` must be at least 2 and at most 16.
pub fn past_digits(text: &str, radix: u32) -> (bool, &str)
    requires low { 2 ≤ radix }
    requires high { radix ≤ 16 }
    ensures skips { (front : List ℕ)
        × Skips (is_digit_or_underscore radix) (chars text.now) front (chars result.1.now)
        × (result.0 ≡ has_digit radix front) }
    ensures shorter { length result.1.now ≤ length text.now }
{
    let mut rest = text;
    let mut found = false;
    while let Some((c, after)) = next_ascii(rest) {
        if c.is_digit(radix) {
            found = true;
        } else if c != '_' {
            break;
        }
        rest = after;
    }
    (found, rest)
}

/// Returns `text` without its leading decimal digits and underscores.
///
/// # Requires
///
/// `text` must begin with a decimal digit.
// Most numbers are one digit, and no 16 bytes are loaded after it. Kept out of line: in the lexer's
// loop it would take registers from names.
#[inline(never)]
pub(crate) fn past_decimals(text: &str) -> &str
    requires { starts_digit (chars text.now) ≡ true }
    ensures { (front : List ℕ)
        × Skips (is_digit_or_underscore 10) (chars text.now) front (chars result.now) }
{
    match next_ascii(text) {
        Some((_, rest)) => past_rare_run(rest, &Decimals),
        None => unreachable!(),
    }
}

/// Returns `text` without its leading decimal digits and underscores.
///
/// Returns `None` if `text` does not begin with a decimal digit.
#[inline(always)]
pub(crate) fn past_some_decimals(text: &str) -> Option<&str>
    ensures digits { MatchOption result (starts_digit (chars text.now) ≡ false)
        (λ rest. (starts_digit (chars text.now) ≡ true) × ((front : List ℕ)
        × Skips (is_digit_or_underscore 10) (chars text.now) front (chars rest.now))) }
    ensures utf8 { IfSome result (λ rest. IsUtf8 rest.now) }
{
    if starts_digit(text) {
        Some(past_decimals(text))
    } else {
        None
    }
}

fn starts_number_suffix(c: char, radix: u32) -> bool
    requires low { 2 ≤ radix }
    requires high { radix ≤ 16 }
    ensures { result ≡ starts_number_suffix radix c }
{
    !(is_digit_or_underscore(c, radix) || c == 'e' || c == 'E')
}

/// Returns the rest of `text` after the leading suffix of a number in base `radix`.
///
/// Returns all of `text` if there is no suffix.
///
/// # Requires
///
/// `radix` must be at least 2 and at most 16.
pub fn past_number_suffix(text: &str, radix: u32) -> &str
    requires low { 2 ≤ radix }
    requires high { radix ≤ 16 }
    ensures { (suffix : List ℕ)
        × IsLongestPrefix (IsNumberSuffix radix) (chars text.now) suffix (chars result.now) }
{
    // Most numbers have none.
    if !starts_name(text) {
        return text;
    }
    let Some((first, _)) = next_char(text) else {
        return text;
    };
    if !starts_number_suffix(first, radix) {
        return text;
    }
    past_identifier(text).unwrap_or(text)
}

/// Returns the rest of `text` after the leading digits of a number in base `radix`, and its suffix.
fn past_in_base(text: &str, radix: u32) -> Option<&str>
    requires low { 2 ≤ radix }
    requires high { radix ≤ 16 }
    ensures tries { ReadsLongest (IsNumber radix (has_digit radix)) (chars text.now) result }
    ensures utf8 { IfSome result (λ rest. IsUtf8 rest.now) }
{
    let (found, rest) = past_digits(text, radix);
    if found {
        Some(past_number_suffix(rest, radix))
    } else {
        None
    }
}

/// Returns the rest of `text` after a leading integer with the prefix of `base`, such as `0xff`.
///
/// Returns `None` if `text` does not begin with such an integer.
pub fn past_based(text: &str, base: Base) -> Option<&str>
    ensures tries { ReadsLongest (IsBased base) (chars text.now) result }
    ensures utf8 { IfSome result (λ rest. IsUtf8 rest.now) }
{
    let digits = past_pair(text, '0', base.mark())?;
    past_in_base(digits, base.radix())
}

/// Returns `true` if `text` begins with a decimal digit.
#[inline(always)]
pub fn starts_digit(text: &str) -> bool
    ensures { result ≡ starts_digit (chars text.now) }
{
    match next_char(text) {
        Some((first, _)) => first.is_digit(10),
        None => false,
    }
}

/// Returns the rest of `text` after a leading decimal integer and its suffix.
///
/// Returns `None` if `text` does not begin with a decimal digit.
#[inline(always)]
pub fn past_decimal(text: &str) -> Option<&str>
    ensures tries { ReadsLongest IsDecimal (chars text.now) result }
    ensures utf8 { IfSome result (λ rest. IsUtf8 rest.now) }
{
    let rest = past_some_decimals(text)?;
    Some(past_number_suffix(rest, 10))
}

/// Returns `true` if `text` begins with `e` or `E`.
#[inline(always)]
pub fn is_exponent(text: &str) -> bool
    ensures { result ≡ is_exponent (chars text.now) }
{
    match next_char(text) {
        Some((first, _)) => first == 'e' || first == 'E',
        None => false,
    }
}

/// Returns `true` if `text` begins with a dot, and neither another dot nor an identifier is
/// directly after this dot.
fn is_fraction(text: &str) -> bool
    ensures { result ≡ is_fraction (chars text.now) }
{
    match next_char(text) {
        Some(('.', rest)) => match next_char(rest) {
            Some((second, _)) => !(second == '.' || is_identifier_start(second)),
            None => true,
        },
        _ => false,
    }
}

/// Returns `true` if `text` consists only of digits and underscores.
fn is_bare(text: &str, radix: u32) -> bool
    requires low { 2 ≤ radix }
    requires high { radix ≤ 16 }
    ensures { result ≡ is_bare radix (chars text.now) }
{
    let (_, rest) = past_digits(text, radix);
    match next_char(rest) {
        Some(_) => false,
        None => true,
    }
}

/// Returns `true` if the integer `piece` is malformed because of the text `after` it.
///
/// The integer is malformed if it has no suffix, and `after` begins with a decimal digit, `e`, `E`
/// or the dot of a fraction.
// Inlined: each number with a base asks this, and mostly the first character after it tells.
#[inline(always)]
pub fn is_malformed(base: Base, piece: &str, after: &str) -> bool
    ensures { result ≡ is_malformed base (chars piece.now) (chars after.now) }
{
    let Some((_, rest)) = next_char(piece) else {
        return is_exponent(after) || starts_digit(after) || is_fraction(after);
    };
    let Some((_, digits)) = next_char(rest) else {
        return is_exponent(after) || starts_digit(after) || is_fraction(after);
    };
    (is_exponent(after) || starts_digit(after) || is_fraction(after))
        && is_bare(digits, base.radix())
}

/// Returns `true` if the text `after` the decimal integer `piece` makes `piece` the first part of a
/// float.
///
/// This is the case if `piece` has no suffix, and `after` begins with `e`, `E` or the dot of a
/// fraction.
pub fn is_float(piece: &str, after: &str) -> bool
    ensures { result ≡ is_float (chars piece.now) (chars after.now) }
{
    (is_exponent(after) || is_fraction(after)) && is_bare(piece, 10)
}
