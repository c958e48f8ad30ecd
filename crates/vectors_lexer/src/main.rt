//! Reads texts by the list of rules that each names, and prints their tokens, or the number of the
//! rule that rejects them.
//!
//! A line of the input is `GOAL RULES TEXT`. The goal is `tokens`, which prints the tokens with
//! their spans; `outcome`, which prints only that the text is read; `words`, which prints the words
//! of an error; or `alike`, which prints neither. The rules are `plain`, `marked`, or the edition
//! of a source. `escapes` of `test_outcomes` says what stands for characters that a line can't show. A line that
//! begins with `#` is printed as it stands.
//!
//! Each text is read into trees, straight into a buffer, and once more as its trees are printed. If
//! these differ, the line is `differs`.
#![tactic(auto)]

mod texts;

use anyhow::Result;
use std::alloc::Global;
use test_outcomes::escapes::unescaped;
use test_outcomes::lines::print_answers;
use texts::{Goal, Rules, answer};
use tok_core::Edition;

fn main(rt: HostRuntime) -> Result<()> {
    print_answers(&rt, answer_to)
}

// Returns what is printed for a line, or `None` if it is no case or an allocation fails.
fn answer_to(alloc: Global, line: &str) -> Option<String> {
    let (goal, rest) = line.split_once(' ')?;
    let (rules, text) = rest.split_once(' ')?;
    let goal = goal_named(goal)?;
    let rules = rules_named(rules)?;
    let text = unescaped(alloc, text)?;
    answer(alloc, goal, &rules, text.as_str())
}

fn goal_named(name: &str) -> Option<Goal> {
    match name {
        "tokens" => Some(Goal::Tokens),
        "outcome" => Some(Goal::Outcome),
        "words" => Some(Goal::Words),
        "alike" => Some(Goal::Alike),
        _ => None,
    }
}

fn rules_named(name: &str) -> Option<Rules> {
    match name {
        "plain" => Some(Rules::Plain),
        "marked" => Some(Rules::Marked),
        "2015" => Some(Rules::Source(Edition::Edition2015)),
        "2018" => Some(Rules::Source(Edition::Edition2018)),
        "2021" => Some(Rules::Source(Edition::Edition2021)),
        "2024" => Some(Rules::Source(Edition::Edition2024)),
        _ => None,
    }
}
