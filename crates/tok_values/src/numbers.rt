//! Creates integer and float literals from their texts.
ghost use Rattle.std.specs.Prelude.{◌≡◌, ◌⊎◌, IfErr, IfOk, MatchBool, Some, false};
ghost use Rattle.std.specs.Str.{chars};
ghost use Rattle.tok_lexical.specs.Numbers.{starts_digit};
ghost use Rattle.tok_leaves.specs.Leaves.{literal, literal_of};
ghost use Rattle.tok_values.specs.Floats.{IsFloatSuffix};
ghost use Rattle.tok_values.specs.Integers.{IsIntegerSuffix};
ghost use Rattle.tok_values.specs.TypedNumbers.{HasFloatValue, IsNumberFault, IsNumberText, IsTypedInteger, IsTypedNumber, number_fault_words};
ghost use Rattle.tok_values.specs.declared.numbers.NumberFault.TheVariants.{Memory};

use crate::integers::{IntegerFault, base_of, read_integer, starts_digit};
use crate::suffixes::literal_suffix;
use std::alloc::{AllocError, Global};
use std::fmt::{self, Display, Formatter, Write};
use tok_leaves::known::unchecked_literal;
use tok_leaves::{IntegerType, Literal, Span, Text, is_literal};
use tok_lexical::text::begins_with;

/// An error that `LiteralExt::number` can return.
#[derive(Clone, Copy, PartialEq, Eq, Debug)]
pub enum NumberFault {
    /// The text begins with `-` or `+`. A sign is a separate punct.
    Sign,
    /// The text is neither an integer nor a float, or contains other text before or after the
    /// number.
    NotNumber,
    /// The suffix is not the name of a type that the number may have.
    Suffix,
    /// An allocation failed.
    Memory,
}

impl From<AllocError> for NumberFault {
    ghost use Rattle.tok_values.specs.declared.numbers.NumberFault.TheVariants.{Memory};

    ghost from_gives = { λ _ fault. fault ≡ Memory };

    fn from(_: AllocError) -> Self {
        NumberFault::Memory
    }
}

/// Writes a description of the error.
impl Display for NumberFault {
    ghost output = { λ fault. Some (number_fault_words fault) };

    fn fmt<W: Write>(&self, f: &mut Formatter<W>) -> fmt::Result {
        match self {
            NumberFault::Sign => f.write_str("begins with a sign, which is a punct of its own"),
            NumberFault::NotNumber => f.write_str("not exactly one integer or float"),
            NumberFault::Suffix => f.write_str("the suffix names no type of such a number"),
            NumberFault::Memory => f.write_str("out of memory"),
        }
    }
}

impl std::error::Error for NumberFault {}

// Returns `true` for nothing and for the name of a type of integers.
fn is_integer_suffix(suffix: &str) -> bool
    ensures { MatchBool result (IsIntegerSuffix (chars suffix.now))
        (IsIntegerSuffix (chars suffix.now) → ⊥) }
{
    suffix.is_empty() || IntegerType::of(suffix).is_some()
}

// Returns `true` for an integer without a suffix, or with the name of a type of integers.
fn is_typed_integer(text: &str) -> bool
    ensures { MatchBool result (IsTypedInteger (chars text.now))
        (IsTypedInteger (chars text.now) → ⊥) }
{
    match read_integer(text) {
        Ok(_) => is_integer_suffix(literal_suffix(text)),
        Err(IntegerFault::TooLarge) => is_integer_suffix(literal_suffix(text)),
        Err(IntegerFault::NotInteger) => false,
    }
}

// Returns `true` for nothing and for the name of a type of floats.
fn is_float_suffix(suffix: &str) -> bool
    ensures { MatchBool result (IsFloatSuffix (chars suffix.now))
        (IsFloatSuffix (chars suffix.now) → ⊥) }
{
    matches!(suffix, "" | "f32" | "f64")
}

// Returns `true` if a number has a value as a float. The base and the suffix tell.
fn has_float_value(text: &str) -> bool
    requires { IsNumberText (chars text.now) }
    ensures { MatchBool result (HasFloatValue text.now) (HasFloatValue text.now → ⊥) }
{
    base_of(text).0 == 10 && is_float_suffix(literal_suffix(text))
}

// Returns `true` if a number has no suffix, or the name of a type that it may have.
fn is_typed(text: &str) -> bool
    requires { IsNumberText (chars text.now) }
    ensures { MatchBool result
        (IsTypedInteger (chars text.now) ⊎ HasFloatValue text.now)
        (IsTypedInteger (chars text.now) ⊎ HasFloatValue text.now → ⊥) }
{
    is_typed_integer(text) || has_float_value(text)
}

// Returns why a text that begins with no digit is no number.
fn no_number(text: &str) -> NumberFault
    requires { starts_digit (chars text.now) ≡ false }
    ensures { IsNumberFault text.now result }
{
    if begins_with(text, '-') || begins_with(text, '+') {
        NumberFault::Sign
    } else {
        NumberFault::NotNumber
    }
}

/// Creates an integer or float literal from its text, like `LiteralExt::number`.
pub fn number(alloc: Global, text: &str, span: Span) -> Result<Literal, NumberFault>
    ensures made { IfOk result (λ l. (literal_of l ≡ literal text.now span)
        × IsTypedNumber text.now) }
    ensures takes { IsTypedNumber text.now → IfErr result (λ fault. fault ≡ Memory) }
    ensures refuses { IfErr result (λ fault. (fault ≡ Memory) ⊎ IsNumberFault text.now fault) }
    ensures rejects { (IsTypedNumber text.now → ⊥)
        → IfErr result (λ fault. IsNumberFault text.now fault) }
{
    if !starts_digit(text) {
        return Err(no_number(text));
    }
    if !is_literal(text) {
        return Err(NumberFault::NotNumber);
    }
    if !is_typed(text) {
        return Err(NumberFault::Suffix);
    }
    let text = Text::from_str(alloc, text)?;
    Ok(unchecked_literal(text, span))
}
