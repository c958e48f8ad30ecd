//! Finds the values of literals in quotes or apostrophes.
ghost use Rattle.std.specs.Ffi.{HasNoNul};
ghost use Rattle.std.specs.CStr.{c_string_bytes};
ghost use Rattle.std.specs.Prelude.{◌≡◌, ◌<◌, ℕ, List, IfOk, IfSome, MatchBool, MatchOption, None, Ok, false, true, string_bytes};
ghost use Rattle.std.specs.Str.{chars};
ghost use Rattle.tok_lexical.specs.Ascii.{quote};
ghost use Rattle.tok_lexical.specs.Pieces.{After, begins_with};
ghost use Rattle.tok_lexical.specs.Words.{IsSuffix};
ghost use Rattle.tok_values.specs.CStrings.{c_unit};
ghost use Rattle.tok_values.specs.Private.Tails.{IsTail};
ghost use Rattle.tok_values.specs.Strings.{InApostrophes, InQuotes, IsQuotedValue, unit};
ghost use Rattle.tok_values.specs.Suffixed.{IsStringBy, begins_string};

use crate::raw::in_raw_by;
use crate::strings::{one_char, push_bytes, push_c_bytes, push_text};
use crate::suffixes::is_suffix;
use std::alloc::{AllocError, Global};
use std::ffi::CString;
use tok_lexical::text::past_char;

/// Selects whether a literal may have a suffix.
#[derive(Clone, Copy)]
pub enum Tail {
    Nothing,
    /// The literal may have a suffix.
    Suffix,
}

#[inline(always)]
fn is_tail(text: &str, tail: Tail) -> bool
    ensures { MatchBool result (IsTail tail (chars text.now)) (IsTail tail (chars text.now) → ⊥) }
{
    match tail {
        Tail::Nothing => text.is_empty(),
        Tail::Suffix => is_suffix(text),
    }
}

/// Returns `true` if `text` consists of the closing character `mark` and a suffix that `tail`
/// allows.
///
/// # Requires
///
/// `mark` must be ASCII.
#[inline(always)]
pub fn closes(text: &str, mark: char, tail: Tail) -> bool
    requires ascii { mark < 128 }
    ensures { MatchBool result (After mark (IsTail tail) (chars text.now))
        (After mark (IsTail tail) (chars text.now) → ⊥) }
{
    match past_char(text, mark) {
        Some(rest) => is_tail(rest, tail),
        None => false,
    }
}

/// Returns the text that a string literal stands for, or `None` if there is no such text.
///
/// `text` is the whole literal, and `tail` selects whether it may have a suffix. Returns an error
/// if an allocation fails.
// Inlined: each caller has one tail.
#[inline(always)]
pub fn text_in_quotes(alloc: Global, text: &str, tail: Tail) -> Result<Option<String>, AllocError>
    ensures others { begins_with quote (chars text.now) ≡ false → result ≡ Ok None }
    ensures value { IfOk result (λ answer. MatchOption answer
        ((value : List ℕ) → IsQuotedValue (IsTail tail) (chars text.now) value → ⊥)
        (λ value. IsQuotedValue (IsTail tail) (chars text.now) (string_bytes value))) }
{
    let Some(inner) = past_char(text, '"') else {
        return Ok(None);
    };
    let mut value = String::new(alloc);
    let rest = push_text(&mut value, inner)?;
    if closes(rest, '"', tail) {
        Ok(Some(value))
    } else {
        Ok(None)
    }
}

// Returns the bytes between two quotes.
fn bytes_by(alloc: Global, text: &str) -> Result<Option<Vec<u8>>, AllocError>
    ensures others { begins_with quote (chars text.now) ≡ false → result ≡ Ok None }
    ensures value { IfOk result (λ answer. MatchOption answer
        ((bytes : List ℕ) → InQuotes IsSuffix (unit true) (chars text.now) bytes → ⊥)
        (λ value. InQuotes IsSuffix (unit true) (chars text.now) value.items)) }
{
    let Some(inner) = past_char(text, '"') else {
        return Ok(None);
    };
    let mut value = Vec::new(alloc);
    let rest = push_bytes(&mut value, inner)?;
    if closes(rest, '"', Tail::Suffix) {
        Ok(Some(value))
    } else {
        Ok(None)
    }
}

// Returns the bytes between the two quotes of a C string. `bytes_by` differs in the units that it
// reads: one function for both would choose between them at each unit.
fn c_bytes_by(alloc: Global, text: &str) -> Result<Option<Vec<u8>>, AllocError>
    ensures others { begins_with quote (chars text.now) ≡ false → result ≡ Ok None }
    ensures value { IfOk result (λ answer. MatchOption answer
        ((bytes : List ℕ) → InQuotes IsSuffix c_unit (chars text.now) bytes → ⊥)
        (λ value. InQuotes IsSuffix c_unit (chars text.now) value.items)) }
{
    let Some(inner) = past_char(text, '"') else {
        return Ok(None);
    };
    let mut value = Vec::new(alloc);
    let rest = push_c_bytes(&mut value, inner)?;
    if closes(rest, '"', Tail::Suffix) {
        Ok(Some(value))
    } else {
        Ok(None)
    }
}

/// Returns the bytes that a byte string literal stands for, or `None` if there are no such bytes.
///
/// `text` is the literal without its `b`. Returns an error if an allocation fails.
pub fn byte_string(alloc: Global, text: &str) -> Result<Option<Vec<u8>>, AllocError>
    ensures others { begins_string (chars text.now) ≡ false → result ≡ Ok None }
    ensures value { IfOk result (λ answer. MatchOption answer
        ((bytes : List ℕ) → IsStringBy (unit true) (chars text.now) bytes → ⊥)
        (λ value. IsStringBy (unit true) (chars text.now) value.items)) }
{
    match in_raw_by(text) {
        Some(value) => Ok(Some(Vec::from_slice(alloc, value.as_bytes())?)),
        None => bytes_by(alloc, text),
    }
}

/// Returns the bytes that a C string literal stands for, or `None` if there are no such bytes.
///
/// `text` is the literal without its `c`. The result does not include a zero byte at the end.
/// Returns an error if an allocation fails.
pub fn c_string(alloc: Global, text: &str) -> Result<Option<Vec<u8>>, AllocError>
    ensures others { begins_string (chars text.now) ≡ false → result ≡ Ok None }
    ensures value { IfOk result (λ answer. MatchOption answer
        ((bytes : List ℕ) → IsStringBy c_unit (chars text.now) bytes → ⊥)
        (λ value. IsStringBy c_unit (chars text.now) value.items)) }
{
    match in_raw_by(text) {
        Some(value) => {
            // With room for the zero that `ended` appends.
            let mut bytes = Vec::with_capacity(alloc, value.len().saturating_add(1))?;
            bytes.extend_from_slice(value.as_bytes())?;
            Ok(Some(bytes))
        }
        None => c_bytes_by(alloc, text),
    }
}

/// Converts bytes into a C string, or returns `None` if one of the bytes is zero.
///
/// Returns an error if an allocation fails.
pub fn ended(bytes: Vec<u8>) -> Result<Option<CString>, AllocError>
    ensures { IfOk result (λ answer. MatchOption answer (HasNoNul bytes.items → ⊥)
        (λ value. (c_string_bytes value ≡ bytes.items) × HasNoNul bytes.items)) }
{
    let mut bytes = bytes;
    bytes.push(0)?;
    Ok(CString::from_vec_with_nul(bytes).ok())
}

/// Returns the character that a character literal stands for, or `None` if there is no such
/// character.
///
/// `text` begins at the opening apostrophe. If `wide` is `true`, the rules of byte literals apply.
/// `tail` selects whether the literal may have a suffix.
#[inline(always)]
pub fn in_apostrophes(text: &str, wide: bool, tail: Tail) -> Option<char>
    ensures finds { MatchOption result
        ((c : ℕ) → InApostrophes (IsTail tail) wide (chars text.now) c → ⊥)
        (λ c. InApostrophes (IsTail tail) wide (chars text.now) c) }
    ensures narrow { wide ≡ true → IfSome result (λ c. c < 256) }
{
    let inner = past_char(text, '\'')?;
    let (c, rest) = one_char(inner, wide)?;
    if closes(rest, '\'', tail) {
        Some(c)
    } else {
        None
    }
}
