//! Runs commands in order over a buffer, and writes each line of the report once its command has
//! run.
ghost use Rattle.std.specs.Prelude.{◌≡◌, [], ◌++◌, IfOk, OnErr, OnOk, map, string_bytes, string_capacity};
ghost use Rattle.std.specs.Fmt.{HasWritten, IsPlainFormatter};
ghost use Rattle.syn_replay.specs.Commands.{command_of};
ghost use Rattle.syn_replay.specs.Meanings.{line_of, verdict_of};
ghost use Rattle.syn_replay.specs.ReportText.{as_line, line_text, report_text, verdict_text};
ghost use Rattle.syn_replay.specs.Session.Acceptance.{IsExact};
ghost use Rattle.syn_replay.specs.Session.Promises.{IsPlainVerdict};
ghost use Rattle.syn_replay.specs.Session.Rooms as spec;
ghost use Rattle.syn_replay.specs.Session.Walk.{walk};

use crate::command::Command;
use crate::report::print::{write_last, write_line};
use crate::report::{Line, Verdict};
use crate::session::runner::{Receiver, run};
use crate::session::{opened, rooms, verdict};
use std::alloc::{AllocError, Global};
use std::fmt::{Formatter, Write};
use tok_buffer::TokenBuffer;

/// Writes each line, and then a line feed.
impl<W: Write> Receiver for Formatter<W> {
    ghost use Rattle.syn_replay.specs.Session.Receivers.{WritesLine};

    ghost receives = { WritesLine W.write_str_gives };

    fn receive(&mut self, _: &Command, line: Line) -> Result<(), AllocError> {
        push_line(self, &line)
    }
}

/// Writes a line of a report, and then a line feed. Returns `AllocError` if the writer fails, as
/// `format!` does.
pub fn push_line<W: Write>(f: &mut Formatter<W>, line: &Line) -> Result<(), AllocError>
    ensures { OnOk result (IsPlainFormatter f.old → HasWritten W.write_str_gives f.old
        (as_line (line_text (line_of line.now))) f.new) }
{
    match write_line(f, line) {
        Ok(()) => Ok(()),
        Err(_) => Err(AllocError),
    }
}

/// Writes a verdict, and then a line feed. Returns `AllocError` if the writer fails, as `format!`
/// does.
pub fn push_verdict<W: Write>(f: &mut Formatter<W>, verdict: &Verdict) -> Result<(), AllocError>
    ensures { OnOk result (IsPlainFormatter f.old → HasWritten W.write_str_gives f.old
        (as_line (verdict_text (verdict_of verdict.now))) f.new) }
{
    match write_last(f, verdict) {
        Ok(()) => Ok(()),
        Err(_) => Err(AllocError),
    }
}

/// Runs the commands over a buffer, appends the text of the report to `text`, and returns the
/// verdict.
///
/// The text shows the report that `replay_in` returns. The function writes each line once its
/// command has run, instead of storing the lines. It writes the lines to a new string, and copies
/// this string to the end of `text`. If `text` is empty, the new string and its capacity replace
/// it.
///
/// Returns an error if an allocation fails. In that case, `text` is unchanged.
///
/// # Requires
///
/// The number of the buffer must be 0.
///
/// # Examples
///
/// ```rust
/// let buffer = TokenBuffer::from_marked(alloc, 0, 0, "a b")?;
/// let commands = [Command::Parse(0, Kind::Ident), Command::Rest(0)];
/// let mut text = String::new(alloc);
/// let _verdict = replay_onto(alloc, &buffer, &commands, &mut text)?;
/// assert_eq!(rt; text.as_str(), "read a 0..1 @1\ntrees b @empty\naccepted\n");
/// ```
pub fn replay_onto(
    alloc: Global,
    buffer: &TokenBuffer,
    commands: &[Command],
    text: &mut String,
) -> Result<Verdict, AllocError>
    requires { buffer.now.number ≡ 0 }
    ensures text { OnOk result (string_bytes text.new ≡ string_bytes text.old
        ++ report_text (walk buffer.now.forest (map command_of commands.now))) }
    ensures kept { OnErr result (string_bytes text.new ≡ string_bytes text.old) }
    ensures verdict { IfOk result (λ v. verdict_of v
        ≡ (walk buffer.now.forest (map command_of commands.now)).verdict) }
    ensures acceptance { IfOk result
        (λ v. IsExact buffer.now.forest (map command_of commands.now) (verdict_of v)) }
    ensures errors { IfOk result (λ v. IsPlainVerdict v) }
{
    let (report, verdict) = written(alloc, buffer, commands)?;
    append(text, report)?;
    Ok(verdict)
}

// Returns the text of the report and the verdict.
fn written(
    alloc: Global,
    buffer: &TokenBuffer,
    commands: &[Command],
) -> Result<(String, Verdict), AllocError>
    requires { buffer.now.number ≡ 0 }
    ensures text { IfOk result (λ r. string_bytes r.0
        ≡ report_text (walk buffer.now.forest (map command_of commands.now))) }
    ensures verdict { IfOk result (λ r. verdict_of r.1
        ≡ (walk buffer.now.forest (map command_of commands.now)).verdict) }
    ensures errors { IfOk result (λ r. IsPlainVerdict r.1) }
{
    let mut streams = opened(alloc, buffer, commands.len())?;
    let mut f = Formatter::new(report_room(alloc, commands.len())?);
    run(&mut streams, commands, &mut f)?;
    let verdict = verdict(&streams)?;
    push_verdict(&mut f, &verdict)?;
    Ok((f.into_inner(), verdict))
}

/// Returns an empty string with room for the report on this many commands.
pub fn report_room(alloc: Global, commands: usize) -> Result<String, AllocError>
    ensures bytes { IfOk result (λ text. string_bytes text ≡ []) }
    ensures room { IfOk result (λ text. string_capacity text ≡ spec.report_room commands) }
{
    String::with_capacity(alloc, rooms::bytes(commands))
}

// Appends a text. If there is none yet, it is taken as it is.
fn append(text: &mut String, more: String) -> Result<(), AllocError>
    ensures ok { OnOk result (string_bytes text.new ≡ string_bytes text.old ++ string_bytes more) }
    ensures err { OnErr result (string_bytes text.new ≡ string_bytes text.old) }
{
    if text.is_empty() {
        *text = more;
        return Ok(());
    }
    text.push_str(more.as_str())
}
