//! Laws about replays. Each law is the contract of a function that does nothing.
ghost use Rattle.syn_replay.specs.Forks.{ForksFollowCommands};
ghost use Rattle.tok_lexical.specs.Laws.{ClonesKeep, EqualAsValues};
ghost use Rattle.syn_replay.specs.Nesting.{InnerStreamsEndToo};
ghost use Rattle.syn_replay.specs.Transparent.{InvisibleGroupsDoNotMatter};
ghost use Rattle.syn_replay.specs.Turns.{MoreTurnsChangeNothing};

use crate::command::{Kind, Look, Separator};
use crate::report::{Misuse, Position};

/// The reports on two token streams agree if the streams differ only in invisible groups, each of
/// which contains a visible token, and every command is transparent.
///
/// Two reports agree if their answers are equal, or errors with equal texts, and their verdicts
/// both accept, or both reject at equal spans. The texts of two rejecting verdicts may differ: one
/// text may name an expected delimiter that the other text does not name.
pub fn invisible_groups_do_not_matter()
    ensures { InvisibleGroupsDoNotMatter }
{}

/// If `n` visible token trees are left in a stream, a list parser needs at most `n + 1` turns. A
/// higher limit on its turns does not change the result.
///
/// Each turn parses a value and the separator after the value.
pub fn more_turns_change_nothing()
    ensures { MoreTurnsChangeNothing }
{}

/// Commands on a fork have the effect of the same commands on the stream itself, once the stream
/// has advanced to the fork.
///
/// The answers, the position of the stream and its recorded leftover token are equal. The commands
/// must be self-contained (see `is_self_contained`), and the fork must still be in the stream's
/// scope.
///
/// The fork has a number too, so each new stream has a number that is higher by one. Advancing to
/// the fork closes the groups that the commands left open.
pub fn forks_follow_commands()
    ensures { ForksFollowCommands }
{}

/// Closing or discarding a stream, or advancing to it, ends that stream and every stream inside it.
/// No other stream ends. Discarding a fork changes nothing else.
///
/// A group's stream is inside the stream from which the group was entered, and inside every stream
/// that contains this stream.
pub fn inner_streams_end_too()
    ensures { InnerStreamsEndToo }
{}

/// For two values of the type `Position` or `Misuse`, `a == b` is `true` if and only if the
/// variants and their fields are equal.
pub fn positions_are_compared_whole()
    ensures positions { EqualAsValues ⟦<Position as PartialEq>⟧.eq }
    ensures misuses { EqualAsValues ⟦<Misuse as PartialEq>⟧.eq }
{}

/// For two values of the type `Kind`, `Look` or `Separator`, `a == b` is `true` if and only if the
/// variants and their fields are equal.
pub fn looks_are_compared_whole()
    ensures kinds { EqualAsValues ⟦<Kind as PartialEq>⟧.eq }
    ensures looks { EqualAsValues ⟦<Look as PartialEq>⟧.eq }
    ensures separators { EqualAsValues ⟦<Separator as PartialEq>⟧.eq }
{}

/// A clone of a `Kind`, `Look`, `Separator`, `Position` or `Misuse` equals the original.
pub fn clones_keep_commands()
    ensures kinds { ClonesKeep ⟦<Kind as Clone>⟧.is_clone }
    ensures looks { ClonesKeep ⟦<Look as Clone>⟧.is_clone }
    ensures separators { ClonesKeep ⟦<Separator as Clone>⟧.is_clone }
    ensures positions { ClonesKeep ⟦<Position as Clone>⟧.is_clone }
    ensures misuses { ClonesKeep ⟦<Misuse as Clone>⟧.is_clone }
{}
