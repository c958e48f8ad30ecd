//! A function that writes the program's output.
ghost use Rattle.std.specs.Bool.{MatchBool};
ghost use Rattle.replay_program.specs.Failures.{writing};
ghost use Rattle.replay_program.specs.Output.{GoesOut, GoesOutInPart, GoesOutWhole};

use crate::channel::Sink;
use std::io::ErrorKind;

/// Writes `text` to `output`, and flushes `output`.
///
/// Returns `status` if the call wrote the whole text and the flush succeeded, and 2 otherwise.
pub fn send<S: Sink>(output: &mut S, text: &str, status: u8) -> u8
    ensures { GoesOut (writing S.writes S.flushes output.old output.new) text.now status result
        (S.contents output.old) (S.contents output.new) }
{
    if write_whole(output, text.as_bytes()) {
        status
    } else {
        2
    }
}

// Writes all bytes, in at most 2^64 - 1 writes, and returns whether it did. An interrupted write is
// repeated. std's `write_all` doesn't say how much was written before it failed.
fn write_whole<S: Sink>(output: &mut S, bytes: &[u8]) -> bool
    ensures { let written = writing S.writes S.flushes output.old output.new in
        MatchBool result
        (GoesOutWhole written bytes.now (S.contents output.old) (S.contents output.new))
        (GoesOutInPart written bytes.now (S.contents output.old) (S.contents output.new)) }
{
    let mut rest = bytes;
    for _i in 0..u64::MAX {
        if rest.is_empty() {
            return match output.flush_all() {
                Ok(()) => true,
                Err(_) => false,
            };
        }
        match output.write_some(rest) {
            Ok(0) => return false,
            Ok(n) => rest = &rest[n..],
            Err(error) if error.kind() == ErrorKind::Interrupted => {}
            Err(_) => return false,
        }
    }
    false
}
