//! Parses texts by the parsers that its lines name, and prints the values or the errors.
//!
//! A line of the input is `PARSER TEXT`, where the text may be empty; `escapes` of `test_outcomes`
//! says what stands for characters that a line can't show. It prints the value as text, `read` if
//! that is empty, or the range and the words of the error. A line that begins with `#` is printed
//! as it stands. Of the parser `arguments` it prints what `argument_lists` says.
#![tactic(auto)]

mod argument_lists;
mod choices;
mod groups;
mod hostile;
mod lists;
mod literals;
mod loops;
mod own;
mod values;
mod visible;

use anyhow::Result;
use std::alloc::Global;
use test_outcomes::escapes::unescaped;
use test_outcomes::lines::print_answers;
use test_outcomes::said;

fn main(rt: HostRuntime) -> Result<()> {
    print_answers(&rt, answer_to)
}

// Returns what is printed for a line, or `None` if it is no case or an allocation fails.
fn answer_to(alloc: Global, line: &str) -> Option<String> {
    let (parser, text) = line.split_once(' ').unwrap_or((line, ""));
    let text = unescaped(alloc, text)?;
    if parser == "arguments" {
        return argument_lists::answer(alloc, text.as_str());
    }
    said(alloc, parsed(alloc, parser, text.as_str())?)
}

// Parses a text by the parser of this name.
fn parsed(alloc: Global, parser: &str, text: &str) -> Option<syn_parse::Result<String>> {
    if let Some(returned) = values::parsed(alloc, parser, text) {
        Some(returned)
    } else if let Some(returned) = choices::parsed(alloc, parser, text) {
        Some(returned)
    } else if let Some(returned) = groups::parsed(alloc, parser, text) {
        Some(returned)
    } else if let Some(returned) = lists::parsed(alloc, parser, text) {
        Some(returned)
    } else if let Some(returned) = loops::parsed(alloc, parser, text) {
        Some(returned)
    } else if let Some(returned) = visible::parsed(alloc, parser, text) {
        Some(returned)
    } else if let Some(returned) = own::parsed(alloc, parser, text) {
        Some(returned)
    } else if let Some(returned) = literals::parsed(alloc, parser, text) {
        Some(returned)
    } else {
        hostile::parsed(alloc, parser, text)
    }
}
