//! The capacities that a replay reserves at its start, computed from the number of commands.
ghost use Rattle.std.specs.Prelude.{◌≡◌};
ghost use Rattle.syn_replay.specs.Session.Rooms.{report_room, streams_room};

// The most commands for which room is asked for at first.
const MOST_COMMANDS: usize = 1 << 16;

// In long lists, about one command in so many makes a stream.
const COMMANDS_A_STREAM: usize = 8;

// The streams for which any list has room.
const FIRST_STREAMS: usize = 4;

// Most lines have fewer bytes.
const BYTES_A_LINE: usize = 24;

/// Returns the number of streams for which a replay of this many commands reserves room.
pub fn streams(commands: usize) -> usize
    ensures { result ≡ streams_room commands }
{
    commands.min(MOST_COMMANDS) / COMMANDS_A_STREAM + FIRST_STREAMS
}

/// Returns the number of bytes that a replay of this many commands reserves for the text of its
/// report.
pub fn bytes(commands: usize) -> usize
    ensures { result ≡ report_room commands }
{
    commands.min(MOST_COMMANDS) * BYTES_A_LINE
}
