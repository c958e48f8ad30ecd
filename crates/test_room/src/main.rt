//! Makes one call, of which `tests/room` counts the bytes that it asks for.
//!
//! The words are a call and two numbers, which say how much it gets: `count` things, and so many
//! `bytes`. The program makes what the call takes, then marks the place, makes the call, and marks
//! the place again while it holds what the call returned. A mark is an allocation of `MARK` bytes.
//!
//! The status is 0 if each allocation succeeds, 3 if one fails, and 1 if the words are wrong, or the
//! call is.
#![tactic(auto)]

mod buffers;
mod replays;
mod texts;
mod trees;

use std::alloc::Global;
use std::process::ExitCode;
use std::{env, io};
use test_outcomes::memory::{Outcome, Stop, made, status};

// No call asks for just as many.
const MARK: usize = 77_777;

fn main(rt: HostRuntime) -> io::Result<ExitCode> {
    let mut words = env::args(&rt)?;
    let _ = words.next();
    let outcome = match (words.next(), number(words.next()), number(words.next())) {
        (Some(call), Some(count), Some(bytes)) => run(rt.alloc(), call.as_str(), count, bytes),
        _ => Err(Stop::Wrong("no call and two numbers")),
    };
    let (status, call) = status(outcome);
    print!(rt; "{call}")?;
    Ok(status)
}

fn number(word: Option<String>) -> Option<usize> {
    word?.as_str().parse().ok()
}

/// Marks a place among the allocations.
pub fn mark(alloc: Global) -> Outcome {
    let _mark = made(Vec::<u8>::with_capacity(alloc, MARK))?;
    Ok(())
}

/// Returns this piece so many times.
pub fn times(alloc: Global, piece: &str, count: usize) -> Result<String, Stop> {
    let mut text = String::new(alloc);
    push_times(&mut text, piece, count)?;
    Ok(text)
}

/// Appends this piece so many times.
pub fn push_times(text: &mut String, piece: &str, count: usize) -> Outcome {
    for _ in 0..count {
        made(text.push_str(piece))?;
    }
    Ok(())
}

fn run(alloc: Global, call: &str, count: usize, bytes: usize) -> Outcome {
    match call {
        "text" => texts::copied(alloc, count),
        "moved" => texts::moved(alloc, count, bytes),
        "clone" => texts::cloned(alloc, count, bytes),
        "string" => texts::string(alloc, count, bytes),
        "doc" => texts::doc(alloc, count, bytes),
        "string_value" => texts::string_value(alloc, count, bytes),
        "bytes_value" => texts::bytes_value(alloc, count, bytes),
        "lex" => trees::lexed(alloc, count, bytes),
        "lex_group" => trees::in_group(alloc, count, bytes),
        "append" => trees::appended(alloc, count),
        "from_text" => buffers::read(alloc, count, bytes),
        "lexed" => buffers::lexed(alloc, count, bytes),
        "from_entries" => buffers::accepted(alloc, count, bytes),
        "stream" => buffers::flat(alloc, count),
        "up_to" => buffers::up_to(alloc, count),
        "deep" => buffers::deep(alloc, count),
        "entered" => buffers::entered(alloc, count),
        "error" => buffers::error(alloc, count, bytes),
        "replay" => replays::replayed(alloc, count),
        "both" => replays::both(alloc, count),
        "commands" => replays::commands(alloc, count, bytes),
        "blank" => replays::blank(alloc, count, bytes),
        "bad" => replays::bad(alloc, count, bytes),
        "looks" => replays::looks(alloc, count, bytes),
        _ => Err(Stop::Wrong("no such call")),
    }
}
