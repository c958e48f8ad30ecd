//! The parser of `example_callers` with two choices in the middle.
use crate::said::all_said;
use either::Either;
use example_callers::constant::Constant;
use std::alloc::Global;
use syn_parse::{ParseStream, Parser, Result};
use test_outcomes::Sample;

// The parser of this module.
struct WholeConstant;

impl Sample for WholeConstant {
    fn run(&self, alloc: Global, text: &str) -> Result<String> {
        whole_constant.parse_str(alloc, text)
    }
}

// Returns a constant's name, whether it has generics, and its value or kind.
fn whole_constant(input: ParseStream<'_, '_>) -> Result<String> {
    let constant: Constant = input.parse()?;
    let name = constant.head.name.as_str();
    let has_generics = constant.head.generics.is_some();
    let alloc = input.allocator();
    match &constant.body {
        Either::Left(value) => {
            Ok(format!(in alloc; "{name} {has_generics} = {}", value.1.as_str())?)
        }
        Either::Right(kind) => Ok(format!(in alloc; "{name} {has_generics}: {}", kind.1.as_str())?),
    }
}

#[test]
fn reads_constants(rt: HostRuntime) {
    all_said(
        &rt,
        &WholeConstant,
        &[
            ("const a = 1;", "a false = 1"),
            ("const a<T> = 1;", "a true = 1"),
            ("const a: B;", "a false: B"),
            ("const a<T>: B;", "a true: B"),
            ("const a<T = 1;", "10..11 expected `>`"),
            ("const a 1;", "8..9 expected `:`"),
            ("const a = b;", "10..11 expected literal token"),
            ("const a: B", "call expected `;`"),
        ],
    );
}
