//! A function that parses entries as the input of a derive macro.
ghost use Rattle.syn_parse.specs.Takings.{Keeps};
ghost use Rattle.example_fields.specs.Inputs.{AnswersInput, IsTabulated, ParsesInput, input as read_as};

use crate::table::{Row, tabulate};
use entry_outcomes::{Answer, EntriesFault, Message, Outcome, parse_entries, write};
use std::alloc::{AllocError, Global};
use syn_derive::DeriveInput;
use syn_parse::ParseStream;
use tok_entries::Entry;
use tok_pruned::laws::pruning_fills;

/// Parses `entries` as the input of a derive macro, regardless of invisible groups.
///
/// The call writes the table of this input to the start of `values`. If the tokens are rejected,
/// the call writes all messages of the error to the start of `messages`, and their texts to the
/// start of `bytes`.
///
/// If one of these slices is too short, the call writes to none of them. `outcome` then contains
/// the required lengths, and the caller can repeat the call with longer slices.
#[unsafe(no_mangle)]
pub extern "C" fn example_fields_parse(
    alloc: Global,
    entries: &[Entry],
    texts: &[u8],
    values: &mut [Row],
    messages: &mut [Message],
    bytes: &mut [u8],
    outcome: &mut Outcome,
)
    ensures { IsTabulated entries.now texts.now outcome.new values.old values.new messages.old
        messages.new bytes.old bytes.new }
{
    *outcome = write(
        alloc,
        answer(alloc, entries, texts),
        values,
        messages,
        bytes,
    );
}

// Returns what there is to write of entries.
fn answer(alloc: Global, entries: &[Entry], texts: &[u8]) -> Result<Answer<Row>, AllocError>
    ensures { AnswersInput entries.now texts.now result }
{
    match input(alloc, entries, texts) {
        Ok(input) => tabulate(alloc, &input),
        Err(fault) => Answer::of_fault(alloc, fault),
    }
}

// Parses entries as the input of a derive.
fn input(alloc: Global, entries: &[Entry], texts: &[u8]) -> Result<DeriveInput, EntriesFault>
    ensures { ParsesInput entries.now texts.now result }
{
    pruning_fills();
    parse_entries(alloc, entries, texts, read)
}

// Parses the input of a derive from a stream.
fn read(input: ParseStream<'_, '_>) -> syn_parse::Result<DeriveInput>
    ensures { Keeps read_as input.old result input.new }
{
    input.parse()
}
