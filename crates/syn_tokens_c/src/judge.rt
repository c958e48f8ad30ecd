//! A function that parses entries as arguments.
ghost use Rattle.arguments.specs.Reading.{arguments as read_as};
ghost use Rattle.syn_parse.specs.Takings.{Keeps};
ghost use Rattle.syn_tokens_c.specs.Judged.{AnswersArguments, IsJudged, ParsesArguments};

use crate::flat::{FlatArgument, flatten};
use arguments::{Arguments, parse_to_end};
use entry_outcomes::{Answer, EntriesFault, Message, Outcome, parse_entries, write};
use std::alloc::{AllocError, Global};
use syn_parse::ParseStream;
use tok_entries::Entry;
use tok_pruned::laws::pruning_fills;

/// Parses `entries` as arguments, regardless of invisible groups.
///
/// The call writes the arguments to the start of `values`. In this array, each argument precedes
/// the arguments inside it. If the tokens are rejected, the call writes all messages of the error
/// to the start of `messages`, and their texts to the start of `bytes`.
///
/// If one of these slices is too short, the call writes to none of them. `outcome` then contains
/// the required lengths, and the caller can repeat the call with longer slices.
#[unsafe(no_mangle)]
pub extern "C" fn syn_tokens_arguments(
    alloc: Global,
    entries: &[Entry],
    texts: &[u8],
    values: &mut [FlatArgument],
    messages: &mut [Message],
    bytes: &mut [u8],
    outcome: &mut Outcome,
)
    ensures { IsJudged entries.now texts.now outcome.new values.old values.new messages.old
        messages.new bytes.old bytes.new }
{
    *outcome = write(
        alloc,
        answer(alloc, entries, texts),
        values,
        messages,
        bytes,
    );
}

// Returns what there is to write of entries.
fn answer(
    alloc: Global,
    entries: &[Entry],
    texts: &[u8],
) -> Result<Answer<FlatArgument>, AllocError>
    ensures { AnswersArguments entries.now texts.now result }
{
    match arguments(alloc, entries, texts) {
        Ok(list) => flatten(alloc, &list),
        Err(fault) => Answer::of_fault(alloc, fault),
    }
}

// Parses entries as arguments.
fn arguments(alloc: Global, entries: &[Entry], texts: &[u8]) -> Result<Arguments, EntriesFault>
    ensures { ParsesArguments entries.now texts.now result }
{
    pruning_fills();
    parse_entries(alloc, entries, texts, read)
}

// Parses the arguments up to the end of a stream.
fn read(input: ParseStream<'_, '_>) -> syn_parse::Result<Arguments>
    ensures { Keeps read_as input.old result input.new }
{
    parse_to_end(input)
}
