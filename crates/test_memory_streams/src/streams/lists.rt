//! The list parsers.
use super::{rejects, takes};
use std::alloc::Global;
use syn_parse::{IdentExt, Nothing, Parse, ParseStream, Result};
use syn_punctuated::{ParseTerminated, Punctuated};
use test_outcomes::memory::{Outcome, worst};
use tok_core::Ident;
use tok_types::token;

type Names = Punctuated<Ident, token::Comma>;

/// By `Punctuated::parse_terminated`.
#[derive(Drop)]
struct Terminated(Names);

impl Parse for Terminated {
    fn parse(input: ParseStream<'_, '_>) -> Result<Self> {
        Ok(Terminated(Punctuated::parse_terminated(input)?))
    }
}

/// By `Punctuated::parse_terminated_with`.
#[derive(Drop)]
struct TerminatedWith(Names);

impl Parse for TerminatedWith {
    fn parse(input: ParseStream<'_, '_>) -> Result<Self> {
        let names = Punctuated::parse_terminated_with(input, |input| Ident::parse_any(input))?;
        Ok(TerminatedWith(names))
    }
}

/// By `ParseTerminated::parse_terminated`.
#[derive(Drop)]
struct ByStream(Names);

impl Parse for ByStream {
    fn parse(input: ParseStream<'_, '_>) -> Result<Self> {
        let names = input.parse_terminated::<Ident, token::Comma, _>(|stream| stream.parse())?;
        Ok(ByStream(names))
    }
}

/// By `Punctuated::parse_separated_nonempty_with`.
#[derive(Drop)]
struct SeparatedWith(Names);

impl Parse for SeparatedWith {
    fn parse(input: ParseStream<'_, '_>) -> Result<Self> {
        let names = Punctuated::parse_separated_nonempty_with(
            input,
            |input| Ident::parse_any(input),
        )?;
        Ok(SeparatedWith(names))
    }
}

/// By `Punctuated::parse_separated_nonempty`.
#[derive(Drop)]
struct Separated(Names);

impl Parse for Separated {
    fn parse(input: ParseStream<'_, '_>) -> Result<Self> {
        Ok(Separated(Punctuated::parse_separated_nonempty(input)?))
    }
}

/// Nothing between nothing.
#[derive(Drop)]
struct Stuck(Punctuated<Nothing, Nothing>);

impl Parse for Stuck {
    fn parse(input: ParseStream<'_, '_>) -> Result<Self> {
        Ok(Stuck(Punctuated::parse_terminated(input)?))
    }
}

/// Makes each call.
pub fn calls(alloc: Global) -> Outcome {
    worst(&[
        takes::<Terminated>(alloc, "a, b"),
        takes::<TerminatedWith>(alloc, "a, b"),
        takes::<ByStream>(alloc, "a, b"),
        takes::<Separated>(alloc, "a, b"),
        takes::<SeparatedWith>(alloc, "a, b"),
        rejects::<Stuck>(alloc, "a", "Punctuated::parse_terminated"),
    ])
}
