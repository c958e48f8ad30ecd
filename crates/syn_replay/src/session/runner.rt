//! Runs commands in order, and passes each line of the report to a receiver.
ghost use Rattle.std.specs.Prelude.{◌≡◌, OnOk, map};
ghost use Rattle.syn_replay.specs.Commands.{command_of};
ghost use Rattle.syn_replay.specs.Session.Promises.{AreReceived};
ghost use Rattle.syn_replay.specs.Session.Receivers.{KeepsLine};
ghost use Rattle.syn_replay.specs.Session.Streams.{state_of};
ghost use Rattle.syn_replay.specs.Session.Walk.{last_state};
ghost use Rattle.syn_replay.specs.declared.command.Command.{Command};
ghost use Rattle.syn_replay.specs.declared.report.Line.{Line};

use crate::command::Command;
use crate::report::Line;
use crate::session::line;
use crate::session::streams::Streams;
use std::alloc::AllocError;

/// A type that receives the lines of a replay, and for example stores or writes them.
pub trait Receiver {
    // Relates a receiver before a line, the line's command, the line, and the receiver after it.
    ghost receives: { Self → Command → Line → Self → Type 0 };

    /// Receives a command and its line. Returns an error if an allocation fails.
    fn receive(&mut self, command: &Command, line: Line) -> Result<(), AllocError>
        ensures { OnOk result (receives self.old command.now line self.new) };
}

/// Appends each line to the vector.
impl Receiver for Vec<Line> {
    ghost receives = { KeepsLine };

    fn receive(&mut self, _: &Command, line: Line) -> Result<(), AllocError> {
        Ok(self.push(line)?)
    }
}

/// Runs commands in order, and passes each command and its line to the receiver.
pub fn run<'a, R: Receiver>(
    streams: &mut Streams<'a>,
    commands: &[Command],
    receiver: &mut R,
) -> Result<(), AllocError>
    ensures state { OnOk result
        (state_of streams.new ≡ last_state (state_of streams.old) (map command_of commands.now)) }
    ensures lines { OnOk result
        (AreReceived R.receives (state_of streams.old) commands.now receiver.old receiver.new) }
{
    for command in commands {
        let line = line(streams, command)?;
        receiver.receive(command, line)?;
    }
    Ok(())
}
