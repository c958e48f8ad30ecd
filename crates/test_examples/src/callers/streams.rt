//! The parsers of `example_callers::streams` and `example_callers::lists`.
ghost use Rattle.std.specs.Prelude.{IfOk};
ghost use Rattle.tok_buffer.specs.Cursors.{place_of};
ghost use Rattle.tok_buffer.specs.Progress.{StaysIn};
ghost use Rattle.syn_parse.specs.Steps.{step_state};

use crate::said::all_said;
use example_callers::lists::{names, parse_items};
use example_callers::loops::past_sign;
use example_callers::streams::{Kind, count_names, next_kind, next_tree, optional_field};
use std::alloc::Global;
use syn_parse::{ParseStream, Parser, Result};
use test_outcomes::Sample;
use tok_core::TokenStream;

// The parsers of this module.
enum Read {
    NextKind,
    TreeAndField,
    AfterSign,
    CountedNames,
    ListedNames,
    ListedItems,
}

impl Sample for Read {
    fn run(&self, alloc: Global, text: &str) -> Result<String> {
        match self {
            Read::NextKind => kind_of_next.parse_str(alloc, text),
            Read::TreeAndField => tree_and_field.parse_str(alloc, text),
            Read::AfterSign => after_sign.parse_str(alloc, text),
            Read::CountedNames => counted_names.parse_str(alloc, text),
            Read::ListedNames => listed_names.parse_str(alloc, text),
            Read::ListedItems => listed_items.parse_str(alloc, text),
        }
    }
}

fn kind_text(kind: Kind) -> &'static str {
    match kind {
        Kind::Function => "function",
        Kind::Structure => "structure",
    }
}

fn kind_of_next(input: ParseStream<'_, '_>) -> Result<String> {
    let kind = next_kind(input)?;
    let _: TokenStream = input.parse()?;
    Ok(format!(in input.allocator(); "{}", kind_text(kind))?)
}

// Parses a tree, a field, and no field after it.
fn tree_and_field(input: ParseStream<'_, '_>) -> Result<String> {
    let _ = next_tree(input)?;
    let is_first = optional_field(input)?.is_some();
    let is_second = optional_field(input)?.is_some();
    let _: TokenStream = input.parse()?;
    Ok(format!(in input.allocator(); "{is_first} {is_second}")?)
}

// Steps past the next `@`, and parses the trees after it.
fn after_sign(input: ParseStream<'_, '_>) -> Result<String> {
    let alloc = input.allocator();
    input.step(
        |from|
            ensures { IfOk result (λ r. StaysIn (step_state from.entry).place (place_of r.1)) }
        {
            match past_sign(alloc, from.cursor())? {
                Some(rest) => Ok(((), rest)),
                None => Err(from.error("no `@` was found after this point")),
            }
        },
    )?;
    let rest: TokenStream = input.parse()?;
    Ok(rest.to_string(alloc)?)
}

#[test]
fn chooses_steps_and_tries(rt: HostRuntime) {
    all_said(
        &rt,
        &Read::NextKind,
        &[
            ("struct S {}", "structure"),
            ("fn f", "function"),
            ("enum E {}", "0..4 expected `fn` or `struct`"),
        ],
    );
    all_said(&rt, &Read::TreeAndField, &[("(a) b: C d e", "true false")]);
    all_said(
        &rt,
        &Read::AfterSign,
        &[
            ("a @ b c", "b c"),
            ("a b", "0..1 no `@` was found after this point"),
            (
                "",
                "call unexpected end of input, no `@` was found after this point",
            ),
        ],
    );
}

fn counted_names(input: ParseStream<'_, '_>) -> Result<String> {
    let count = count_names(input)?;
    Ok(format!(in input.allocator(); "{count}")?)
}

#[test]
fn counts_names(rt: HostRuntime) {
    all_said(
        &rt,
        &Read::CountedNames,
        &[
            ("(a (b) ((c)))", "3"),
            ("(a 1)", "3..4 expected parentheses"),
        ],
    );
}

fn listed_names(input: ParseStream<'_, '_>) -> Result<String> {
    let count = names(input)?.len();
    Ok(format!(in input.allocator(); "{count}")?)
}

fn listed_items(input: ParseStream<'_, '_>) -> Result<String> {
    let count = parse_items(input)?.list.len();
    Ok(format!(in input.allocator(); "{count}")?)
}

#[test]
fn lists_of_names_and_of_items(rt: HostRuntime) {
    all_said(&rt, &Read::ListedNames, &[("a, b", "2")]);
    all_said(
        &rt,
        &Read::ListedItems,
        &[("a, (b, (), c)", "2"), ("a, (b c)", "6..7 expected `,`")],
    );
}
