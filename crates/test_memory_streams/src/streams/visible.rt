//! The parsers of any visible tree, of all that is left, and of runs.
ghost use Rattle.std.specs.Prelude.{Some};

use super::takes;
use std::alloc::Global;
use syn_parse::{Parse, ParseStream, Result, Run};
use test_outcomes::memory::{Outcome, worst};
use tok_buffer::Cursor;
use tok_core::{TokenStream, TokenTree};

/// By `ParseBuffer::visible_tree`.
#[derive(Drop)]
struct AnyTree(TokenTree);

impl Parse for AnyTree {
    fn parse(input: ParseStream<'_, '_>) -> Result<Self> {
        Ok(AnyTree(input.visible_tree()?))
    }
}

/// By `ParseBuffer::rest`.
#[derive(Drop)]
struct All(TokenStream);

impl Parse for All {
    fn parse(input: ParseStream<'_, '_>) -> Result<Self> {
        Ok(All(input.rest()?))
    }
}

/// Ends nowhere before the end.
#[derive(Clone, Copy)]
struct Everything;

impl Run for Everything {
    ghost passes = { λ run _. Some run };

    fn pass(self, _cursor: Cursor<'_>) -> Option<Self> {
        Some(self)
    }
}

/// By `ParseBuffer::parse_run`.
#[derive(Drop)]
struct InRun(TokenStream);

impl Parse for InRun {
    fn parse(input: ParseStream<'_, '_>) -> Result<Self> {
        Ok(InRun(input.parse_run(Everything)?))
    }
}

/// By `ParseBuffer::parse_run_with_state`.
#[derive(Drop)]
struct RunWithState(TokenStream);

impl Parse for RunWithState {
    fn parse(input: ParseStream<'_, '_>) -> Result<Self> {
        let (tokens, _) = input.parse_run_with_state(Everything)?;
        Ok(RunWithState(tokens))
    }
}

/// Makes each call.
pub fn calls(alloc: Global) -> Outcome {
    worst(&[
        takes::<AnyTree>(alloc, "(a b)"),
        takes::<All>(alloc, "a (b) c"),
        takes::<InRun>(alloc, "a (b) c"),
        takes::<RunWithState>(alloc, "a (b) c"),
    ])
}
