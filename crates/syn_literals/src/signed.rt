//! Numbers with an optional minus sign. The sign and the number are separate tokens.
ghost use Rattle.std.specs.Prelude.{◌≡◌, IfOk, is_some, option_map};
ghost use Rattle.std.specs.Str.{chars};
ghost use Rattle.tok_leaves.specs.Leaves.{leaf_text, literal_of};
ghost use Rattle.tok_values.specs.Floats.{float_value};
ghost use Rattle.tok_values.specs.Values.{integer_value};
ghost use Rattle.syn_literals.specs.Signed.{HasSignedValue, signed_float};

use crate::float::LitFloat;
use crate::integer::LitInt;
use std::alloc::{AllocError, Global};
use tok_types::token;
use tok_values::IntegerFault;

/// An integer literal with an optional minus sign before it.
///
/// The parser of this type reads a `-` if one is next, and then the literal. White space may
/// separate the two tokens.
///
/// # Examples
///
/// ```rust
/// let number = input.parse::<SignedInt>()?;
/// match signed_int_value(&number) {
///     Ok(value) => Ok(value),
///     Err(fault) => Err(Fault::at(alloc, number.1.span(), fault)),
/// }
/// ```
pub type SignedInt = (Option<token::Minus>, LitInt);

/// A floating-point literal with an optional minus sign before it.
///
/// The parser of this type reads a `-` if one is next, and then the literal. White space may
/// separate the two tokens.
pub type SignedFloat = (Option<token::Minus>, LitFloat);

/// Returns the value of an integer literal with an optional minus sign.
///
/// The call ignores the suffix. Returns `IntegerFault::TooLarge` if the value without the sign is
/// greater than `u64::MAX`.
pub fn signed_int_value(number: &SignedInt) -> Result<i128, IntegerFault>
    ensures { HasSignedValue (is_some number.now.0)
        (integer_value (chars (leaf_text (literal_of number.now.1)))) result }
{
    let (minus, literal) = number;
    let integer = literal.value()?;
    let value = i128::from(integer.value);
    Ok(if minus.is_some() { -value } else { value })
}

/// Returns the `f64` that is nearest to the value of a floating-point literal with an optional
/// minus sign.
///
/// Returns `None` if the literal has a suffix other than `f32` and `f64`, and an error if an
/// allocation fails.
pub fn signed_float_value(alloc: Global, number: &SignedFloat) -> Result<Option<f64>, AllocError>
    ensures { IfOk result (λ answer. answer ≡ option_map (signed_float (is_some number.now.0))
        (float_value (leaf_text (literal_of number.now.1)))) }
{
    let (minus, literal) = number;
    let Some(value) = literal.value(alloc)? else {
        return Ok(None);
    };
    Ok(Some(if minus.is_some() { -value } else { value }))
}
