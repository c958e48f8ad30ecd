//! The calls of `arguments`.
use arguments::{arguments_both, parse_arguments};
use std::alloc::Global;
use test_outcomes::memory::{Outcome, ended, made, rejected, worst};
use tok_core::lex;

const LIST: &str = "a, b = 1, c(d, e = \"x\"),";

/// Makes each call.
pub fn calls(alloc: Global) -> Outcome {
    worst(&[list(alloc), error(alloc), both(alloc)])
}

fn list(alloc: Global) -> Outcome {
    ended(parse_arguments(alloc, made(lex(alloc, 0, LIST))?))
}

fn error(alloc: Global) -> Outcome {
    rejected(
        parse_arguments(alloc, made(lex(alloc, 0, "c(d =)"))?),
        "parse_arguments",
    )
}

fn both(alloc: Global) -> Outcome {
    let left = made(lex(alloc, 0, LIST))?;
    let right = made(lex(alloc, 0, "a b"))?;
    ended(arguments_both(alloc, left, right))
}
