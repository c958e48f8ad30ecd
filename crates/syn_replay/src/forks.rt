//! A test for commands that have the same effect on a fork as on the stream itself.
ghost use Rattle.std.specs.Prelude.{◌≡◌, map};
ghost use Rattle.syn_replay.specs.Forks as spec;
ghost use Rattle.syn_replay.specs.Commands.{command_of};

use crate::command::Command;

// Returns `true` for the stream, and for the numbers of streams that are made later.
fn is_own(stream: usize, made: usize, number: usize) -> bool
    ensures { result ≡ spec.is_own stream made number }
{
    number == stream || made <= number
}

impl Command {
    fn is_own(&self, stream: usize, made: usize) -> bool
        ensures { result ≡ spec.is_own_command stream made (command_of self.now) }
    {
        let n = self.stream_number();
        match self {
            Command::Advance(..) | Command::Discard(_) => false,
            Command::Close(_) => n != stream && is_own(stream, made, n),
            _ => is_own(stream, made, n),
        }
    }
}

/// Returns `true` if the commands name only `stream` and new streams, and none of them advances a
/// stream, discards a fork or closes `stream`. `made` is the number that the next new stream gets.
///
/// Such commands can run on a fork of `stream` instead. Once `stream` has advanced to the fork, the
/// effect is as if the commands had run on `stream`, and the groups that they left open were closed.
///
/// # Examples
///
/// ```rust
/// let commands = [Command::Parse(0, Kind::Ident), Command::Empty(0)];
/// assert_eq!(rt; is_self_contained(0, 1, &commands), true);
/// assert_eq!(rt; is_self_contained(0, 1, &[Command::Discard(0)]), false);
/// ```
pub fn is_self_contained(stream: usize, made: usize, commands: &[Command]) -> bool
    ensures { result ≡ spec.is_self_contained stream made (map command_of commands.now) }
{
    for command in commands {
        if !command.is_own(stream, made) {
            return false;
        }
    }
    true
}
