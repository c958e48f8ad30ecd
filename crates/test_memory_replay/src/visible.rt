//! Calls that read visible tokens alone, and `prune`, of streams with empty groups and without.
use std::alloc::Global;
use syn_parse::{ParseStream, Result};
use syn_replay::{Command, Kind};
use test_outcomes::memory::{Outcome, ended, made, rejected, worst};
use tok_core::{Ident, TokenStream, lex_marked};
use tok_pruned::prune;
use visible_arguments::{visible_arguments, visible_arguments_both};
use visible_parse::{parse_visible, parse_visible_both, parse_visible_with};
use visible_replay::{visible_replay, visible_replay_both};

/// Makes each call.
pub fn calls(alloc: Global) -> Outcome {
    worst(&[
        pruned(alloc, "« «» (a «») »"),
        pruned(alloc, "a"),
        of_type(alloc, "a«»"),
        no_value(alloc, "«»"),
        with(alloc, "«»a"),
        of_both(alloc),
        arguments(alloc, "a(«»), «»"),
        arguments_of_both(alloc),
        replayed(alloc, "a «»"),
        replayed_both(alloc),
    ])
}

fn name(input: ParseStream<'_, '_>) -> Result<Ident> {
    input.parse()
}

fn pruned(alloc: Global, text: &str) -> Outcome {
    let stream: TokenStream = made(lex_marked(alloc, 0, text))?;
    ended(prune(alloc, stream))
}

fn of_type(alloc: Global, text: &str) -> Outcome {
    let tokens = made(lex_marked(alloc, 0, text))?;
    ended(parse_visible::<Ident>(alloc, tokens))
}

fn no_value(alloc: Global, text: &str) -> Outcome {
    let tokens = made(lex_marked(alloc, 0, text))?;
    rejected(parse_visible::<Ident>(alloc, tokens), "parse_visible")
}

fn with(alloc: Global, text: &str) -> Outcome {
    let tokens = made(lex_marked(alloc, 0, text))?;
    ended(parse_visible_with(alloc, tokens, name))
}

fn of_both(alloc: Global) -> Outcome {
    let left = made(lex_marked(alloc, 0, "a«»"))?;
    let right = made(lex_marked(alloc, 0, "a«» b"))?;
    let (left, right) = parse_visible_both::<Ident>(alloc, left, right);
    worst(&[ended(left), rejected(right, "parse_visible_both")])
}

fn arguments(alloc: Global, text: &str) -> Outcome {
    let tokens = made(lex_marked(alloc, 0, text))?;
    ended(visible_arguments(alloc, tokens))
}

fn arguments_of_both(alloc: Global) -> Outcome {
    let left = made(lex_marked(alloc, 0, "a«»"))?;
    let right = made(lex_marked(alloc, 0, "«»a"))?;
    ended(visible_arguments_both(alloc, left, right))
}

fn replayed(alloc: Global, text: &str) -> Outcome {
    let stream = made(lex_marked(alloc, 0, text))?;
    ended(visible_replay(alloc, stream, &[Command::Parse(0, Kind::Ident)]))
}

fn replayed_both(alloc: Global) -> Outcome {
    let left = made(lex_marked(alloc, 0, "a «»"))?;
    let right = made(lex_marked(alloc, 0, "a «» b"))?;
    ended(visible_replay_both(alloc, left, right, &[Command::Parse(0, Kind::Ident)]))
}
