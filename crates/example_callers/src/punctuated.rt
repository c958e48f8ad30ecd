//! Callers of `syn_punctuated`, which build the list `2, 3, 4`, change it, and write it as a text.
ghost use Rattle.std.specs.Prelude.{◌≡◌, ◌-◌, ◌<◌, ◌^◌, [], ◌∷◌, length, slice_set, string_bytes, sum, IfOk, OnOk, OnErr};
ghost use Rattle.std.specs.Bool.{OnTrue, OnFalse};
ghost use Rattle.syn_punctuated.specs.Lists.{values_of, separators_of, IsUnchanged};
ghost use Rattle.example_callers.specs.Text.{text_of};

use std::alloc::{AllocError, Global};
use syn_punctuated::Punctuated;

type Numbers = Punctuated<u32, char>;

/// Creates the list `2,3,4`. Returns an error if an allocation fails.
pub fn two_three_four(alloc: Global) -> Result<Numbers, AllocError>
    ensures values { IfOk result (λ list. values_of list ≡ 2 ∷ 3 ∷ 4 ∷ []) }
    ensures separators { IfOk result (λ list. separators_of list ≡ 44 ∷ 44 ∷ []) }
{
    let mut list = Punctuated::new(alloc);
    list.push_value(2)?;
    list.push_punct(',')?;
    list.push_value(3)?;
    list.push_punct(',')?;
    list.push_value(4)?;
    Ok(list)
}

/// Replaces the first value of the list with 9.
///
/// # Requires
///
/// The list must not be empty.
pub fn raise_first(list: &mut Numbers)
    requires { 0 < length (values_of list.old) }
    ensures values { values_of list.new ≡ slice_set (values_of list.old) 0 9 }
    ensures separators { separators_of list.new ≡ separators_of list.old }
{
    list[0] = 9;
}

/// Replaces the last value of the list with 8, and returns `true`.
///
/// If the list is empty, returns `false`.
pub fn raise_last(list: &mut Numbers) -> bool
    ensures any { OnTrue result (0 < length (values_of list.old)) }
    ensures written { OnTrue result
        (values_of list.new ≡ slice_set (values_of list.old) (length (values_of list.old) - 1) 8) }
    ensures none { OnFalse result (values_of list.old ≡ []) }
    ensures kept { OnFalse result (IsUnchanged list.old list.new) }
    ensures separators { separators_of list.new ≡ separators_of list.old }
{
    match list.last_mut() {
        Some(value) => {
            *value = 8;
            true
        }
        None => false,
    }
}

/// Inserts 7 at the start of the list. If an allocation fails, the list is unchanged.
///
/// # Requires
///
/// The list must not be empty.
pub fn put_seven(list: &mut Numbers) -> Result<(), AllocError>
    requires { 0 < length (values_of list.old) }
    ensures ok { OnOk result (values_of list.new ≡ 7 ∷ values_of list.old) }
    ensures err { OnErr result (IsUnchanged list.old list.new) }
{
    list.insert(0, 7)
}

/// Returns the sum of the values.
///
/// # Requires
///
/// The sum must be less than 2^32.
pub fn total(list: &Numbers) -> u32
    requires { sum (values_of list.now) < 2 ^ 32 }
    ensures { result ≡ sum (values_of list.now) }
{
    list.iter().copied().sum()
}

/// Returns a text that consists of the values and separators of the list, in order.
#[tactic(auto, using(crate::proofs::Text::text_paired))]
pub fn written(alloc: Global, list: &Numbers) -> Result<String, AllocError>
    ensures { IfOk result
        (λ text. string_bytes text ≡ text_of (values_of list.now) (separators_of list.now)) }
{
    let mut text = String::new(alloc);
    for pair in list.pairs() {
        write!(text, "{}", pair.value())?;
        if let Some(separator) = pair.punct() {
            text.push(**separator)?;
        }
    }
    Ok(text)
}
