//! A function that parses entries, and the type of its errors.
ghost use Rattle.std.specs.Prelude.{◌≡◌};
ghost use Rattle.std.specs.Fn.{FnOnceReturnsAtMut, FnOnceTakesAtMut};
ghost use Rattle.tok_core.specs.Forest.{Forest};
ghost use Rattle.tok_leaves.specs.Spans.{call_site};
ghost use Rattle.syn_parse.specs.Parsers.{ParsesWhole, whole_stream};
ghost use Rattle.entry_outcomes.specs.Parsed.{ParsesEntries, result_of};

use crate::intake::read_entries;
use std::alloc::{AllocError, Global};
use syn_parse::{Fault, ParseStream, tokens_to_parse_buffer};
use tok_buffer::{Error, TokenBuffer};
use tok_core::Span;
use tok_entries::{Entry, EntryFault, Refusal};

/// The error of a call that could not parse entries.
#[derive(Drop, Debug)]
pub enum EntriesFault {
    /// The entries and texts do not form a token stream. The fields are the reason and the index of
    /// the rejected entry.
    Malformed(Refusal, usize),
    /// The parser rejects the tokens, or leaves some of them unread.
    Rejected(Error),
    /// An allocation failed.
    Memory,
}

impl From<EntryFault> for EntriesFault {
    ghost use Rattle.entry_outcomes.specs.Parsed.{stop_of};

    ghost from_gives = { λ fault made. made ≡ stop_of fault };

    fn from(fault: EntryFault) -> Self {
        match fault {
            EntryFault::Refused(refusal, entry) => EntriesFault::Malformed(refusal, entry),
            EntryFault::Memory => EntriesFault::Memory,
        }
    }
}

/// Parses all tokens of `entries` and `texts` with `parser`, and returns the parsed value.
///
/// The call first removes the invisible groups that contain no visible token. If `parser` returns a
/// value but leaves a token unread, the call returns an error.
///
/// # Requires
///
/// `parser` must be callable on every stream that reads a whole token stream.
#[tactic(auto, using(crate::proofs::Stops::stops))]
pub fn parse_entries<T: Drop, F: FnOnce(ParseStream<'_, '_>) -> syn_parse::Result<T>>(
    alloc: Global,
    entries: &[Entry],
    texts: &[u8],
    parser: F,
) -> Result<T, EntriesFault>
    requires { (f : Forest) → FnOnceTakesAtMut F.FnOnce parser (whole_stream f call_site) }
    ensures { ParsesEntries (FnOnceReturnsAtMut F.FnOnce parser) entries.now texts.now result }
{
    match read_entries(alloc, entries, texts) {
        Ok(buffer) => of_parser(parse_buffer(alloc, &buffer, parser)),
        Err(fault) => Err(EntriesFault::from(fault)),
    }
}

// Parses all tokens of a buffer.
fn parse_buffer<T: Drop, F: FnOnce(ParseStream<'_, '_>) -> syn_parse::Result<T>>(
    alloc: Global,
    buffer: &TokenBuffer,
    parser: F,
) -> syn_parse::Result<T>
    requires number { buffer.now.number ≡ 0 }
    requires takes { FnOnceTakesAtMut F.FnOnce parser (whole_stream buffer.now.forest call_site) }
    ensures { ParsesWhole (FnOnceReturnsAtMut F.FnOnce parser)
        (whole_stream buffer.now.forest call_site) result }
{
    let mut input = tokens_to_parse_buffer(alloc, buffer, Span::call_site());
    let parsed = parser(&mut input);
    input.finish_parsed(parsed)
}

// Returns the result of a parser as one of entries.
fn of_parser<T: Drop>(parsed: syn_parse::Result<T>) -> Result<T, EntriesFault>
    ensures { result ≡ result_of parsed }
{
    match parsed {
        Ok(value) => Ok(value),
        Err(Fault::Refused(error)) => Err(EntriesFault::Rejected(error)),
        Err(Fault::Memory(AllocError)) => Err(EntriesFault::Memory),
    }
}
