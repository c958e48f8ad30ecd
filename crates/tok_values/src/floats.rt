//! Finds the values of floats.
ghost use Rattle.std.specs.Prelude.{◌≡◌, IfOk, None, Ok, false};
ghost use Rattle.tok_values.specs.Floats.{begins_decimal, float_value, without_type};

use std::alloc::{AllocError, Global};

fn begins_decimal(bytes: &[u8]) -> bool
    ensures { result ≡ begins_decimal bytes.now }
{
    match bytes.first() {
        Some(first) => first.is_ascii_digit(),
        None => false,
    }
}

// Returns the text without a suffix `f32` or `f64`.
fn without_type(bytes: &[u8]) -> &[u8]
    ensures { result.now ≡ without_type bytes.now }
{
    let (front, last) = bytes.split_at(bytes.len().saturating_sub(3));
    if last == b"f32".as_slice() || last == b"f64".as_slice() {
        front
    } else {
        bytes
    }
}

/// Returns the `f64` nearest to the value of a float or a decimal integer, or `None` for any other
/// text.
///
/// Returns an error if an allocation fails.
pub fn float_value(alloc: Global, text: &str) -> Result<Option<f64>, AllocError>
    ensures value { IfOk result (λ value. value ≡ float_value text.now) }
    ensures others { begins_decimal text.now ≡ false → result ≡ Ok None }
{
    let bytes = text.as_bytes();
    if !begins_decimal(bytes) {
        return Ok(None);
    }
    let digits: Vec<u8> = without_type(bytes)
        .iter()
        .copied()
        .filter(|byte| *byte != b'_')
        .collect(alloc)?;
    Ok(fast_float::parse::<f64, _>(digits.as_slice()).ok())
}
