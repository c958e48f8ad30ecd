//! Any visible tree, all that is left, and runs of trees, in texts with marks.
ghost use Rattle.std.specs.Prelude.{None, Some, ◌==◌, ◌-◌, if◌then◌else◌};

use std::alloc::Global;
use syn_parse::{ParseStream, Parser, Result, Run};
use tok_buffer::Cursor;
use tok_core::{Ident, TokenStream, lex_marked};

/// Parses a text by the parser of this name, if there is one here.
pub fn parsed(alloc: Global, parser: &str, text: &str) -> Option<Result<String>> {
    let returned = match parser {
        "OneTree" => one_tree.parse2(alloc, marked(alloc, text)?),
        "AllLeft" => all_left.parse2(alloc, marked(alloc, text)?),
        "FirstTwo" => first_two.parse2(alloc, marked(alloc, text)?),
        "FirstFive" => first_five.parse2(alloc, marked(alloc, text)?),
        _ => return None,
    };
    Some(returned)
}

// Reads a text with marks for invisible groups.
pub(crate) fn marked(alloc: Global, text: &str) -> Option<TokenStream> {
    lex_marked(alloc, 0, text).ok()
}

// Returns a tree as text.
fn one_tree(input: ParseStream<'_, '_>) -> Result<String> {
    let tree = input.visible_tree()?;
    Ok(format!(in input.allocator(); "{tree}")?)
}

// Returns all after a name, and whether the end is reached.
fn all_left(input: ParseStream<'_, '_>) -> Result<String> {
    let _: Ident = input.parse()?;
    let rest = input.rest()?;
    Ok(format!(in input.allocator(); "{rest} {}", input.is_empty())?)
}

// Ends after so many trees.
#[derive(Clone, Copy)]
struct InRun {
    count: usize,
}

impl Run for InRun {
    ghost passes = { λ run _.
        if run.count == 0 then None else Some (record { count = run.count - 1 }) };

    fn pass(self, _cursor: Cursor<'_>) -> Option<Self> {
        if self.count == 0 {
            None
        } else {
            Some(InRun {
                count: self.count - 1,
            })
        }
    }
}

// Returns the first trees, and all after them.
fn first(input: ParseStream<'_, '_>, count: usize) -> Result<String> {
    let run = input.parse_run(InRun { count })?;
    let rest = input.rest()?;
    Ok(format!(in input.allocator(); "{run} | {rest}")?)
}

fn first_two(input: ParseStream<'_, '_>) -> Result<String> {
    first(input, 2)
}

fn first_five(input: ParseStream<'_, '_>) -> Result<String> {
    first(input, 5)
}
