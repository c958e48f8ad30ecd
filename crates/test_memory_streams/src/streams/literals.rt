//! The calls of `syn_literals`.
use super::{rejects, takes};
use std::alloc::Global;
use syn_literals::{LitBool, LitFloat, LitInt, LitStr};
use syn_parse::{Parse, parse_source};
use test_outcomes::memory::{Outcome, Stop, ended, made, worst};
use tok_core::{Edition, Span, ToTokens, TokenStream};

/// Makes each call.
pub fn calls(alloc: Global) -> Outcome {
    worst(&[
        takes::<LitStr>(alloc, "\"abcdefghijklmnop\""),
        takes::<LitInt>(alloc, "12_345_678_901_234"),
        ended(one::<LitFloat>(alloc, "0.123_456_789_012_345")),
        takes::<LitBool>(alloc, "true"),
        rejects::<LitStr>(alloc, "1", "LitStr::parse"),
        rejects::<LitInt>(alloc, "a", "LitInt::parse"),
        rejects::<LitFloat>(alloc, "1", "LitFloat::parse"),
        rejects::<LitBool>(alloc, "a", "LitBool::parse"),
        value(alloc),
        clones(alloc),
        written(alloc),
    ])
}

// Parses a literal of a Rust source, which also has floats and raw strings.
fn one<T: Parse + Drop>(alloc: Global, text: &str) -> Result<T, Stop> {
    made(parse_source::<T>(alloc, Edition::Edition2024, text))
}

// Without `LitFloat::value` and `signed_float_value`: both gather digits by std's `collect`, which can
// do without some of its allocations.
fn value(alloc: Global) -> Outcome {
    let literal = one::<LitStr>(alloc, "\"abcdefghijklmnop\"")?;
    let raw = one::<LitStr>(alloc, "r\"abcdefghijklmnop\"")?;
    worst(&[ended(literal.value(alloc)), ended(raw.value(alloc))])
}

fn clones(alloc: Global) -> Outcome {
    let string = one::<LitStr>(alloc, "\"abcdefghijklmnop\"")?;
    let integer = one::<LitInt>(alloc, "12_345_678_901_234")?;
    let float = one::<LitFloat>(alloc, "0.123_456_789_012_345")?;
    worst(&[
        ended(string.clone()),
        ended(integer.clone()),
        ended(float.clone()),
    ])
}

fn written(alloc: Global) -> Outcome {
    let string = one::<LitStr>(alloc, "\"abcdefghijklmnop\"")?;
    let integer = one::<LitInt>(alloc, "12_345_678_901_234")?;
    let float = one::<LitFloat>(alloc, "0.123_456_789_012_345")?;
    let mut tokens = TokenStream::new(alloc);
    let outcomes = [
        ended(string.to_tokens(&mut tokens)),
        ended(integer.to_tokens(&mut tokens)),
        ended(float.to_tokens(&mut tokens)),
    ];
    let boolean = LitBool::new(true, Span::call_site());
    worst(&[worst(&outcomes), ended(boolean.to_tokens(&mut tokens))])
}
