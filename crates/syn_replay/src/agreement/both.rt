//! Replays of one list of commands over two token streams.
ghost use Rattle.std.specs.Prelude.{◌≡◌, true, IfOk, map};
ghost use Rattle.syn_replay.specs.Agree.{ReportsAgree};
ghost use Rattle.syn_replay.specs.Commands.{command_of};
ghost use Rattle.syn_replay.specs.Meanings.{report_of};
ghost use Rattle.syn_replay.specs.Session.Promises.{ArePlain, IsPlainVerdict};
ghost use Rattle.syn_replay.specs.Transparent.{DifferInInvisibleGroups, all_transparent};
ghost use Rattle.syn_replay.specs.Session.Walk.{walk};

use crate::command::Command;
use crate::report::Report;
use crate::session::replay;
use std::alloc::{AllocError, Global};
use tok_core::TokenStream;

/// Runs the commands over each of two token streams, and returns both reports.
///
/// Each report is the one that `replay` returns for its stream. The two reports agree (see `agree`)
/// if the streams differ only in invisible groups, each invisible group contains a visible token,
/// and every command is transparent (see `is_transparent`).
///
/// Returns an error if an allocation fails.
///
/// # Examples
///
/// ```rust
/// let plain = lex(alloc, 0, "a b")?;
/// let marked = lex_marked(alloc, 0, "«a» b")?;
/// let commands = [Command::Parse(0, Kind::Ident), Command::Empty(0)];
/// assert_eq!(rt; is_transparent(&commands[0]), true);
/// let (left, right) = replay_both(alloc, plain, marked, &commands)?;
/// assert_eq!(rt; agree(&left, &right), true);
/// ```
pub fn replay_both(
    alloc: Global,
    left: TokenStream,
    right: TokenStream,
    commands: &[Command],
) -> Result<(Report, Report), AllocError>
    ensures left { IfOk result (λ r. report_of r.0 ≡ walk left (map command_of commands.now)) }
    ensures right { IfOk result (λ r. report_of r.1 ≡ walk right (map command_of commands.now)) }
    ensures agree { DifferInInvisibleGroups left right
        → all_transparent (map command_of commands.now) ≡ true
        → IfOk result (λ r. ReportsAgree (report_of r.0) (report_of r.1)) }
    ensures errors { IfOk result
        (λ r. ArePlain r.0.lines.items × IsPlainVerdict r.0.verdict × ArePlain r.1.lines.items
        × IsPlainVerdict r.1.verdict) }
{
    let left = replay(alloc, left, commands)?;
    let right = replay(alloc, right, commands)?;
    Ok((left, right))
}
