//! The calls of `syn_replay` and `replay_program` on lists of commands.
use crate::{mark, push_times, times};
use replay_program::respond;
use std::alloc::Global;
use syn_replay::{Command, replay, replay_both_texts};
use test_outcomes::memory::{Outcome, Stop, expect, made};
use tok_core::TokenStream;

// Returns this many commands that print `true`.
fn empties(alloc: Global, count: usize) -> Result<Vec<Command>, Stop> {
    let mut commands = Vec::new(alloc);
    for _ in 0..count {
        made(commands.push(Command::Empty(0)))?;
    }
    Ok(commands)
}

/// Replays `count` commands.
pub fn replayed(alloc: Global, count: usize) -> Outcome {
    let commands = empties(alloc, count)?;
    mark(alloc)?;
    let _report = made(replay(alloc, TokenStream::new(alloc), &commands))?;
    mark(alloc)
}

/// Replays `count` commands on two streams, and writes both reports.
pub fn both(alloc: Global, count: usize) -> Outcome {
    let commands = empties(alloc, count)?;
    mark(alloc)?;
    let left = TokenStream::new(alloc);
    let right = TokenStream::new(alloc);
    let _both = made(replay_both_texts(alloc, left, right, &commands))?;
    mark(alloc)
}

// Returns what the program says of an input: its status must be this.
fn responded(alloc: Global, input: &str, wanted: u8) -> Outcome {
    mark(alloc)?;
    let (_text, status) = made(respond(alloc, input.as_bytes()))?;
    mark(alloc)?;
    expect(status == wanted, "respond")
}

/// Answers `count` commands, each with `bytes` blanks after it.
pub fn commands(alloc: Global, count: usize, bytes: usize) -> Outcome {
    let blanks = times(alloc, " ", bytes)?;
    let mut input = times(alloc, "---\n", 1)?;
    for _ in 0..count {
        made(input.push_str("empty 0"))?;
        made(input.push_str(blanks.as_str()))?;
        made(input.push('\n'))?;
    }
    responded(alloc, input.as_str(), 0)
}

/// Answers `count` commands, and `bytes` empty lines after them.
pub fn blank(alloc: Global, count: usize, bytes: usize) -> Outcome {
    let mut input = times(alloc, "---\n", 1)?;
    push_times(&mut input, "empty 0\n", count)?;
    push_times(&mut input, "\n", bytes)?;
    responded(alloc, input.as_str(), 0)
}

/// Answers a line that is no command, before `count` commands and `bytes` empty lines.
pub fn bad(alloc: Global, count: usize, bytes: usize) -> Outcome {
    let mut input = times(alloc, "---\nno\n", 1)?;
    push_times(&mut input, "empty 0\n", count)?;
    push_times(&mut input, "\n", bytes)?;
    responded(alloc, input.as_str(), 2)
}

/// Answers `count` lookaheads, each for so many targets between blanks.
pub fn looks(alloc: Global, count: usize, targets: usize) -> Outcome {
    let looks = times(alloc, "  End  ", targets)?;
    let mut input = times(alloc, "---\n", 1)?;
    for _ in 0..count {
        made(input.push_str("lookahead 0"))?;
        made(input.push_str(looks.as_str()))?;
        made(input.push('\n'))?;
    }
    responded(alloc, input.as_str(), 0)
}
