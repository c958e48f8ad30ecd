//! Functions that run commands over pruned streams.
ghost use Rattle.std.specs.Prelude.{◌≡◌, true, IfOk, map};
ghost use Rattle.syn_replay.specs.Agree.{ReportsAgree};
ghost use Rattle.syn_replay.specs.Commands.{command_of};
ghost use Rattle.syn_replay.specs.Meanings.{report_of, verdict_of};
ghost use Rattle.syn_replay.specs.Session.Acceptance.{IsExact};
ghost use Rattle.syn_replay.specs.Session.Promises.{ArePlain, IsPlainVerdict};
ghost use Rattle.syn_replay.specs.Session.Walk.{walk};
ghost use Rattle.syn_replay.specs.Transparent.{all_transparent};
ghost use Rattle.tok_core.specs.Erase.{erase};
ghost use Rattle.tok_pruned.specs.Pruned.{pruned};

use std::alloc::{AllocError, Global};
use syn_replay::{Command, Report, replay, replay_both};
use tok_core::TokenStream;
use tok_pruned::prune;

/// Removes the invisible groups that contain no visible token from a stream, and runs commands over
/// the remaining stream.
///
/// The call removes these groups with `prune`, and then runs the commands with `replay`. The
/// positions in the report count only the leaves and delimiters that remain.
///
/// Returns an error if an allocation fails.
///
/// # Examples
///
/// ```rust
/// let stream = lex_marked(alloc, 0, "a « »")?;
/// let commands = [Command::Parse(0, Kind::Ident), Command::Empty(0)];
/// let report = visible_replay(alloc, stream, &commands)?;
/// let text = format!(in alloc; "{report}")?;
/// assert_eq!(rt; text.as_str(), "read a 0..1 @1\ntrue @1\naccepted\n");
/// ```
pub fn visible_replay(
    alloc: Global,
    stream: TokenStream,
    commands: &[Command],
) -> Result<Report, AllocError>
    ensures walk { IfOk result
        (λ r. report_of r ≡ walk (pruned stream) (map command_of commands.now)) }
    ensures acceptance { IfOk result
        (λ r. IsExact (pruned stream) (map command_of commands.now) (verdict_of r.verdict)) }
    ensures errors { IfOk result (λ r. ArePlain r.lines.items × IsPlainVerdict r.verdict) }
{
    let filled = prune(alloc, stream)?;
    replay(alloc, filled, commands)
}

/// Runs the same commands over each of two streams, as `visible_replay` does, and returns both
/// reports.
///
/// If both streams have equal visible tokens, including their spans, and every command is
/// transparent (see `is_transparent`), then the two reports agree (see `agree`).
///
/// Returns an error if an allocation fails.
///
/// # Examples
///
/// ```rust
/// let plain = lex(alloc, 0, "a")?;
/// let marked = lex_marked(alloc, 0, "a « »")?;
/// let commands = [Command::Parse(0, Kind::Ident), Command::Empty(0)];
/// let (left, right) = visible_replay_both(alloc, plain, marked, &commands)?;
/// assert_eq!(rt; agree(&left, &right), true);
/// ```
pub fn visible_replay_both(
    alloc: Global,
    left: TokenStream,
    right: TokenStream,
    commands: &[Command],
) -> Result<(Report, Report), AllocError>
    ensures left { IfOk result
        (λ r. report_of r.0 ≡ walk (pruned left) (map command_of commands.now)) }
    ensures right { IfOk result
        (λ r. report_of r.1 ≡ walk (pruned right) (map command_of commands.now)) }
    ensures agree { erase left ≡ erase right
        → all_transparent (map command_of commands.now) ≡ true
        → IfOk result (λ r. ReportsAgree (report_of r.0) (report_of r.1)) }
    ensures errors { IfOk result
        (λ r. ArePlain r.0.lines.items × IsPlainVerdict r.0.verdict × ArePlain r.1.lines.items
        × IsPlainVerdict r.1.verdict) }
{
    let first = prune(alloc, left)?;
    let second = prune(alloc, right)?;
    replay_both(alloc, first, second, commands)
}
