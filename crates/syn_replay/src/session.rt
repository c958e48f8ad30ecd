//! Runs commands in order over a token stream.
pub mod lists;
pub mod peeks;
pub mod pieces;
pub mod reads;
pub mod rooms;
pub mod runner;
pub mod stream;
pub mod streams;
pub mod tokens;
pub mod written;

ghost use Rattle.std.specs.Prelude.{◌≡◌, IfOk, map};
ghost use Rattle.syn_replay.specs.Session.State.{first_state};
ghost use Rattle.syn_replay.specs.Session.Acceptance.{IsExact};
ghost use Rattle.syn_replay.specs.Session.Walk.{verdict, walk};
ghost use Rattle.syn_replay.specs.Commands.{command_of};
ghost use Rattle.syn_replay.specs.Meanings.{verdict_of, report_of};
ghost use Rattle.syn_replay.specs.Session.Promises.{IsLine, IsPlainVerdict, ArePlain};
ghost use Rattle.syn_replay.specs.Session.Rooms.{streams_room};
ghost use Rattle.syn_replay.specs.Session.Streams.{room_of, state_of};

use crate::command::Command;
use crate::report::{Answer, Line, Report, Verdict};
use crate::session::lists::Form;
use crate::session::runner::run;
use crate::session::streams::Streams;
use std::alloc::{AllocError, Global};
use syn_parse::{Fault, Parse, tokens_to_parse_buffer};
use tok_buffer::TokenBuffer;
use tok_core::{Span, TokenStream};

/// Runs one command, and returns its line of the report.
pub fn line<'a>(streams: &mut Streams<'a>, command: &Command) -> Result<Line, AllocError>
    ensures { IfOk result
        (λ l. IsLine l (state_of streams.new) (state_of streams.old) (command_of command.now)) }
{
    match command {
        Command::Peek(n, look) => {
            streams.read(*n, |input| Ok(Answer::Truth(look.peek(input.cursor()))))
        }
        Command::Peek2(n, look) => {
            streams.read(*n, |input| Ok(Answer::Truth(look.peek2(input.cursor()))))
        }
        Command::Peek3(n, look) => {
            streams.read(*n, |input| Ok(Answer::Truth(look.peek3(input.cursor()))))
        }
        Command::Parse(n, kind) => streams.parse(*n, *kind),
        Command::Optional(n, kind) => streams.read(*n, |input| reads::optional(input, *kind)),
        Command::Empty(n) => streams.read(*n, |input| Ok(Answer::Truth(input.is_empty()))),
        Command::Enter(n, delimiter) => streams.enter(*n, Some(*delimiter)),
        Command::EnterAny(n) => streams.enter(*n, None),
        Command::Terminated(n, kind, separator) => streams.read(*n, |input| {
            lists::read(input, Form::Terminated, *kind, *separator)
        }),
        Command::Separated(n, kind, separator) => streams.read(*n, |input| {
            lists::read(input, Form::Separated, *kind, *separator)
        }),
        Command::Lookahead(n, looks) => streams.read(*n, |input| reads::look_ahead(input, looks)),
        Command::Fork(n) => streams.fork(*n),
        Command::Advance(n, fork) => Ok(streams.advance(*n, *fork)),
        Command::Discard(n) => Ok(streams.discard(*n)),
        Command::Close(n) => Ok(streams.close(*n)),
        Command::StreamSpan(n) => streams.read(*n, |input| Ok(Answer::At(input.span()))),
        Command::CursorSpan(n) => streams.read(*n, |input| Ok(Answer::At(input.cursor().span()))),
        Command::PreviousSpan(n) => {
            streams.read(*n, |input| Ok(Answer::At(input.cursor().prev_span())))
        }
        Command::Tree(n) => streams.read(*n, |input| reads::tree(input)),
        Command::Rest(n) => streams.read(*n, |input| Ok(Answer::Trees(TokenStream::parse(input)?))),
        Command::GroupTree(n) => streams.read(*n, |input| reads::group(input)),
    }
}

/// Creates the streams of a replay, with stream 0 at the start of a buffer. Reserves room for this
/// many commands.
///
/// # Requires
///
/// The number of the buffer must be 0.
pub fn opened<'a>(
    alloc: Global,
    buffer: &'a TokenBuffer,
    commands: usize,
) -> Result<Streams<'a>, AllocError>
    requires { buffer.now.number ≡ 0 }
    ensures state { IfOk result (λ s. state_of s ≡ first_state buffer.now.forest) }
    ensures room { IfOk result (λ s. room_of s ≡ streams_room commands) }
{
    let whole = tokens_to_parse_buffer(alloc, buffer, Span::call_site());
    Streams::new(alloc, whole.pause(), commands)
}

/// Returns the verdict on stream 0. Returns an error if an allocation fails.
pub fn verdict<'a>(streams: &Streams<'a>) -> Result<Verdict, AllocError>
    ensures { IfOk result
        (λ v. (verdict_of v ≡ verdict (state_of streams.now)) × IsPlainVerdict v) }
{
    match streams.gathered(0).finish() {
        Ok(()) => Ok(Verdict::Accepted),
        Err(Fault::Refused(error)) => Ok(Verdict::Refused(error)),
        Err(Fault::Memory(error)) => Err(error),
    }
}

/// Runs the commands over a buffer, and returns the report that `replay` returns for the same
/// tokens.
///
/// A caller that lexes a text straight into a buffer does not need a `TokenStream`. Returns an
/// error if an allocation fails.
///
/// # Requires
///
/// The number of the buffer must be 0.
pub fn replay_in(
    alloc: Global,
    buffer: &TokenBuffer,
    commands: &[Command],
) -> Result<Report, AllocError>
    requires { buffer.now.number ≡ 0 }
    ensures walk { IfOk result
        (λ r. report_of r ≡ walk buffer.now.forest (map command_of commands.now)) }
    ensures acceptance { IfOk result
        (λ r. IsExact buffer.now.forest (map command_of commands.now) (verdict_of r.verdict)) }
    ensures errors { IfOk result (λ r. ArePlain r.lines.items × IsPlainVerdict r.verdict) }
{
    let mut streams = opened(alloc, buffer, commands.len())?;
    let mut lines = Vec::with_capacity(alloc, commands.len())?;
    run(&mut streams, commands, &mut lines)?;
    let verdict = verdict(&streams)?;
    Ok(Report { lines, verdict })
}

/// Runs the commands over a token stream, and returns a report with an answer to each command.
///
/// Stream 0 reads the whole token stream. Each group that a command enters, and each fork, becomes
/// a new stream with the next number. A command that does not fit its streams changes nothing.
///
/// After the last command, all open groups inside stream 0 are closed. The verdict accepts if no
/// token is left over in stream 0, or in a group that was closed inside it. Each error of the
/// report has one message.
///
/// Returns an error if an allocation fails.
///
/// # Examples
///
/// ```rust
/// let stream = lex(alloc, 0, "a b")?;
/// let commands = [Command::Parse(0, Kind::Ident), Command::Rest(0)];
/// let report = replay(alloc, stream, &commands)?;
/// let text = format!(in alloc; "{report}")?;
/// assert_eq!(rt; text.as_str(), "read a 0..1 @1\ntrees b @empty\naccepted\n");
/// ```
pub fn replay(
    alloc: Global,
    stream: TokenStream,
    commands: &[Command],
) -> Result<Report, AllocError>
    ensures walk { IfOk result (λ r. report_of r ≡ walk stream (map command_of commands.now)) }
    ensures acceptance { IfOk result
        (λ r. IsExact stream (map command_of commands.now) (verdict_of r.verdict)) }
    ensures errors { IfOk result (λ r. ArePlain r.lines.items × IsPlainVerdict r.verdict) }
{
    let buffer = TokenBuffer::new2(alloc, 0, stream)?;
    replay_in(alloc, &buffer, commands)
}
