//! A program that reads one or two texts and a list of commands, and writes the reports of
//! `replay`.
#![tactic(auto)]

mod channel;
mod command_text;
mod compared;
mod fault;
mod input;
mod output;

ghost use Rattle.std.specs.Prelude.{◌≡◌, ℕ, IfOk, IfSome, List, MatchResult, Some, map, string_bytes};
ghost use Rattle.replay_program.specs.Failures.{all_read, reading, writing};
ghost use Rattle.replay_program.specs.Faults.{OnUnreadable};
ghost use Rattle.replay_program.specs.Comparison.{Comparison, Compares, both_status, comparison_text, verdict_status};
ghost use Rattle.replay_program.specs.Outcomes.{Comes, ComesFor};
ghost use Rattle.syn_replay.specs.Commands.{command_of};
ghost use Rattle.syn_replay.specs.ReportText.{report_text};
ghost use Rattle.syn_replay.specs.Session.Walk.{walk};
ghost use Rattle.replay_program.specs.Program.{IsForest, IsUnreadable, IsUnreadableFor, IsUnreadableOther, Prints, PrintsFor, PrintsOnly, Serves, ServesOnly};

pub use crate::channel::{Sink, Source};
use crate::command_text::read_commands;
use crate::compared::{compare, status};
use crate::fault::{Fault, Unreadable};
use crate::input::{ReadFault, parts, read_input};
use crate::output::send;
use std::alloc::{AllocError, Global};
use std::str::from_utf8;
use syn_replay::{Command, replay_onto};
use tok_buffer::TokenBuffer;
use tok_core::{TokenStream, lex_marked};

/// Reads `input` to its end, writes the program's output to `output`, and returns the exit status.
///
/// The input is one or two marked texts, with a line `---` after each text, and then commands, one
/// on each line. The output for one text is its report. The output for two texts consists of both
/// reports and five facts about the texts.
///
/// The call creates the whole output in memory before it writes anything. The exit status is one of
/// the following numbers:
///
/// - 0 if every report accepts its text.
/// - 1 if a report rejects its text.
/// - 2 if the input does not have this form, or if a read, a write or a flush fails. For an input
///   of another form, the output is one line that states the reason.
/// - 3 if an allocation fails. The output is then the line `memory`.
///
/// If the input has not ended after 4,294,967,295 reads, the call treats this as a failed read.
///
/// The contract holds for every implementation of `Source` and `Sink`. It states that every read
/// and every write, except the last one, moved some bytes or was interrupted. Unless a call or an
/// allocation failed, the last read found the end of the input, and the sink was flushed after the
/// last write.
///
/// The sink receives the program's output for the bytes that the reads returned, in order, or a
/// prefix of this output if a write failed. If a read failed, the sink receives nothing. For a
/// reader of `std`, the contract determines the bytes that the reads return only if the reader's
/// remaining bytes are known, for example for a reader in memory.
pub fn serve<R: Source, W: Sink>(alloc: Global, input: &mut R, output: &mut W) -> u8
    ensures answers { let read = reading R.reads input.old input.new in
        let written = writing W.writes W.flushes output.old output.new in
        (bytes : List ℕ) × Serves read written bytes result (W.contents output.old)
        (W.contents output.new)
        × ServesOnly read written bytes result (W.contents output.old) (W.contents output.new) }
    ensures serves { let read = reading R.reads input.old input.new in
        let written = writing W.writes W.flushes output.old output.new in
        IfSome (R.remaining input.old)
        (λ bytes. Serves read written bytes result (W.contents output.old)
        (W.contents output.new)) }
    ensures only { let read = reading R.reads input.old input.new in
        let written = writing W.writes W.flushes output.old output.new in
        IfSome (R.remaining input.old)
        (λ bytes. ServesOnly read written bytes result (W.contents output.old)
        (W.contents output.new)) }
{
    match read_input(alloc, input) {
        Ok(bytes) => answer(alloc, &bytes, output),
        Err(ReadFault::Memory) => send(output, "memory\n", 3),
        Err(ReadFault::Failed) => 2,
    }
}

// Writes the output for an input that was read.
fn answer<W: Sink>(alloc: Global, input: &[u8], output: &mut W) -> u8
    ensures serves { let written = writing W.writes W.flushes output.old output.new in
        Serves all_read written input.now result (W.contents output.old)
        (W.contents output.new) }
    ensures only { let written = writing W.writes W.flushes output.old output.new in
        ServesOnly all_read written input.now result (W.contents output.old)
        (W.contents output.new) }
{
    match respond(alloc, input) {
        Ok((text, status)) => send(output, text.as_str(), status),
        Err(AllocError) => send(output, "memory\n", 3),
    }
}

/// Returns the program's output for `input`, and the exit status.
///
/// `serve` writes the same output. Returns an error if an allocation fails.
///
/// # Examples
///
/// ```rust
/// let (output, status) = respond(alloc, b"a\n---\nparse 0 Ident\n")?;
/// assert_eq!(rt; output.as_str(), "read a 0..1 @1\naccepted\n");
/// assert_eq!(rt; status, 0);
/// ```
pub fn respond(alloc: Global, input: &[u8]) -> Result<(String, u8), AllocError>
    ensures prints { IfOk result (λ p. Prints input.now (string_bytes p.0) p.1) }
    ensures only { IfOk result (λ p. PrintsOnly input.now (string_bytes p.0) p.1) }
{
    match outcome(alloc, input) {
        Ok((text, status)) => Ok((text, status)),
        Err(Fault::Unreadable(why)) => Ok((format!(in alloc; "{why}\n")?, 2)),
        Err(Fault::Memory) => Err(AllocError),
    }
}

/// Runs commands over the tokens in `buffer`, and returns the program's output and exit status.
///
/// `commands` is a text with one command on each line. The output is the report, or one line that
/// states why `commands` can't be read.
///
/// Returns an error if an allocation fails.
///
/// # Requires
///
/// The number of `buffer` must be 0.
pub fn respond_to(
    alloc: Global,
    buffer: &TokenBuffer,
    commands: &[u8],
) -> Result<(String, u8), AllocError>
    requires { buffer.now.number ≡ 0 }
    ensures { IfOk result
        (λ p. PrintsFor buffer.now.forest commands.now (string_bytes p.0) p.1) }
{
    match outcome_for(alloc, buffer, commands) {
        Ok((text, status)) => Ok((text, status)),
        Err(Fault::Unreadable(why)) => {
            let line = format!(in alloc; "{why}\n")?;
            Ok((line, 2))
        }
        Err(Fault::Memory) => Err(AllocError),
    }
}

// Returns what comes of a buffer under the commands of a text and the status, or the first thing in
// the commands that can't be read.
fn outcome_for(alloc: Global, buffer: &TokenBuffer, commands: &[u8]) -> Result<(String, u8), Fault>
    requires { buffer.now.number ≡ 0 }
    ensures { MatchResult result
        (λ p. ComesFor buffer.now.forest commands.now (string_bytes p.0) p.1)
        (λ fault. OnUnreadable fault (IsUnreadableFor commands.now)) }
{
    let Ok(lines) = from_utf8(commands) else {
        return Err(Fault::Unreadable(Unreadable::Utf8));
    };
    let commands = read_commands(alloc, Some(lines))?;
    told(alloc, buffer, &commands)
}

// Returns what the program prints for an input and the status, or the first thing in it that can't
// be read.
fn outcome(alloc: Global, input: &[u8]) -> Result<(String, u8), Fault>
    ensures { MatchResult result
        (λ p. Comes input.now (string_bytes p.0) p.1)
        (λ fault. OnUnreadable fault (IsUnreadable input.now)) }
{
    let Ok(input) = from_utf8(input) else {
        return Err(Fault::Unreadable(Unreadable::Utf8));
    };
    let Some((text, other, lines)) = parts(input) else {
        return Err(Fault::Unreadable(Unreadable::Parts));
    };
    let Some(other) = other else {
        let buffer = TokenBuffer::from_marked(alloc, 0, 0, text)?;
        let commands = read_commands(alloc, lines)?;
        return told(alloc, &buffer, &commands);
    };
    let stream = lex_marked(alloc, 0, text)?;
    let right = lex_other(alloc, other)?;
    let commands = read_commands(alloc, lines)?;
    told_both(alloc, stream, right, &commands)
}

// Returns the text of the report on a buffer, and the status.
fn told(alloc: Global, buffer: &TokenBuffer, commands: &[Command]) -> Result<(String, u8), Fault>
    requires { buffer.now.number ≡ 0 }
    ensures { MatchResult result
        (λ p. let report = walk buffer.now.forest (map command_of commands.now) in
        (string_bytes p.0 ≡ report_text report) × (p.1 ≡ verdict_status report.verdict))
        (λ fault. fault ≡ Fault.Memory) }
{
    let mut text = String::new(alloc);
    let verdict = replay_onto(alloc, buffer, commands, &mut text)?;
    Ok((text, status(&verdict)))
}

// Returns the text of a comparison of two streams, and the status.
fn told_both(
    alloc: Global,
    left: TokenStream,
    right: TokenStream,
    commands: &[Command],
) -> Result<(String, u8), Fault>
    ensures { MatchResult result
        (λ p. (c : Comparison) × Compares left right (map command_of commands.now) c
        × (string_bytes p.0 ≡ comparison_text c)
        × (p.1 ≡ both_status c.left.verdict c.right.verdict))
        (λ fault. fault ≡ Fault.Memory) }
{
    let both = compare(alloc, left, right, commands)?;
    let status = both.status();
    Ok((both.to_string(alloc)?, status))
}

// Lexes the second text.
fn lex_other(alloc: Global, text: &str) -> Result<TokenStream, Fault>
    ensures { MatchResult result
        (λ right. IsForest text.now right)
        (λ fault. OnUnreadable fault (IsUnreadableOther (Some text.now))) }
{
    match lex_marked(alloc, 0, text) {
        Ok(right) => Ok(right),
        Err(fault) => Err(Fault::of_right(fault)),
    }
}
