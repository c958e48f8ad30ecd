//! A function that runs commands over entries.
ghost use Rattle.syn_tokens_c.specs.Replayed.{AnswersReport, IsReplayed};

use entry_outcomes::{Answer, EntriesFault, Outcome, read_entries, write};
use replay_program::respond_to;
use std::alloc::{AllocError, Global};
use tok_entries::Entry;

/// Runs commands over `entries`, and writes the report to the start of `printed`.
///
/// `commands` is a text with one command on each line. The call first removes the invisible groups
/// that contain no visible token.
///
/// The status in `outcome` is 0 if the report accepts the tokens, 1 if the report rejects the
/// tokens, and 2 if a line is not a command. For status 2, the printed text names the line.
///
/// If `printed` is too short, the call writes nothing to it. `outcome` then contains the required
/// length, and the caller can repeat the call with a longer slice.
#[unsafe(no_mangle)]
pub extern "C" fn syn_tokens_replay(
    alloc: Global,
    entries: &[Entry],
    texts: &[u8],
    commands: &[u8],
    printed: &mut [u8],
    outcome: &mut Outcome,
)
    ensures { IsReplayed entries.now texts.now commands.now outcome.new printed.old printed.new }
{
    let answer = answer(alloc, entries, texts, commands);
    *outcome = write(alloc, answer, &mut [], &mut [], printed);
}

// Returns what there is to write of entries and commands.
fn answer(
    alloc: Global,
    entries: &[Entry],
    texts: &[u8],
    commands: &[u8],
) -> Result<Answer<u8>, AllocError>
    ensures { AnswersReport entries.now texts.now commands.now result }
{
    match read_entries(alloc, entries, texts) {
        Ok(buffer) => {
            let (text, status) = respond_to(alloc, &buffer, commands)?;
            Ok(Answer::of_text(alloc, u32::from(status), text))
        }
        Err(fault) => Answer::of_fault(alloc, EntriesFault::from(fault)),
    }
}
