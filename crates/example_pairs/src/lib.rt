//! A parser for a macro crate, which parses pairs such as `name => "text"` with commas between
//! them.
//!
//! `tools/macro` copies this crate under another name. To parse your own language, change the code
//! above the export.
#![tactic(auto)]

ghost use Rattle.entry_outcomes.specs.Answers.{IsWritten};
ghost use Rattle.syn_parse.specs.Takings.{Keeps};
ghost use Rattle.example_pairs.specs.Pairs.{pairs};

use entry_outcomes::{Answer, Message, Outcome, parse_entries, range, write};
use std::alloc::{AllocError, Global};
use syn_parse::laws::parses_go_on;
use syn_parse::{Parse, ParseStream, Result};
use syn_punctuated::Punctuated;
use tok_core::{Ident, Literal};
use tok_entries::Entry;
use tok_types::token;

/// A pair of the form `name => literal`.
#[derive(Drop)]
pub struct Pair {
    pub name: Ident,
    pub value: Literal,
}

/// A list of pairs with commas between them, and an optional comma after the last pair.
pub type Pairs = Punctuated<Pair, token::Comma>;

impl Parse for Pair {
    ghost use Rattle.syn_parse.specs.Takings.{told, lower};
    ghost use Rattle.example_pairs.specs.Pairs.{take_pair, lowers_pair};

    ghost takes = { told (λ pair. pair) take_pair (lower lowers_pair) };

    fn parse(input: ParseStream<'_, '_>) -> Result<Self> {
        let name = input.parse()?;
        let _: token::FatArrow = input.parse()?;
        let value = input.parse()?;
        Ok(Pair { name, value })
    }
}

// Parses pairs up to the end of a stream.
fn read_pairs(input: ParseStream<'_, '_>) -> Result<Pairs>
    ensures { Keeps pairs input.old result input.new }
{
    parses_go_on();
    Punctuated::parse_terminated(input)
}

/// A pair as a plain struct, which a macro in Rust receives.
///
/// The fields contain the numbers of the pair's two tokens.
#[repr(C)]
#[derive(Clone, Copy)]
pub struct FlatPair {
    pub name: usize,
    pub value: usize,
}

// Returns the answer of a list of pairs.
fn flatten(alloc: Global, pairs: &Pairs) -> std::result::Result<Answer<FlatPair>, AllocError> {
    let mut answer = Answer::new(alloc);
    for pair in pairs.iter() {
        answer.values.push(FlatPair {
            name: range(pair.name.span()).0,
            value: range(pair.value.span()).0,
        })?;
    }
    Ok(answer)
}

/// Parses `entries` as pairs, and writes the pairs to the start of `values`.
///
/// If the tokens are rejected, the call writes all messages of the error to the start of
/// `messages`, and their texts to the start of `bytes`.
///
/// If one of these slices is too short, the call writes to none of them. `outcome` then contains
/// the required lengths, and the caller can repeat the call with longer slices.
#[unsafe(no_mangle)]
pub extern "C" fn example_pairs_parse(
    alloc: Global,
    entries: &[Entry],
    texts: &[u8],
    values: &mut [FlatPair],
    messages: &mut [Message],
    bytes: &mut [u8],
    outcome: &mut Outcome,
)
    ensures { IsWritten outcome.new values.old values.new messages.old messages.new bytes.old
        bytes.new }
{
    let answer = match parse_entries(alloc, entries, texts, read_pairs) {
        Ok(pairs) => flatten(alloc, &pairs),
        Err(fault) => Answer::of_fault(alloc, fault),
    };
    *outcome = write(alloc, answer, values, messages, bytes);
}
