//! The parsers of one of two values, of values of several types, of a value that is tried, of values
//! by a function, and of a list in a group.
use super::takes;
use either::Either;
use std::alloc::Global;
use syn_choices::ParseBufferExt;
use syn_parse::{Parse, ParseStream, Result};
use syn_punctuated::Punctuated;
use test_outcomes::memory::{Outcome, worst};
use tok_core::{DelimSpan, Delimiter, Ident};
use tok_types::token;

/// `*` and a name.
type Star = (token::Star, Ident);

/// By `ParseBufferExt::parse_if`.
#[derive(Drop)]
struct Starred(Option<Star>);

impl Parse for Starred {
    fn parse(input: ParseStream<'_, '_>) -> Result<Self> {
        Ok(Starred(input.parse_if::<token::Star, Star>()?))
    }
}

/// By `ParseBufferExt::parse_either`.
#[derive(Drop)]
struct StarOrName(Either<token::Star, Ident>);

impl Parse for StarOrName {
    fn parse(input: ParseStream<'_, '_>) -> Result<Self> {
        Ok(StarOrName(input.parse_either::<token::Star, token::Star, Ident>()?))
    }
}

/// By `ParseBufferExt::parse_terminated_within`.
#[derive(Drop)]
struct Names((DelimSpan, Punctuated<Ident, token::Comma>));

impl Parse for Names {
    fn parse(input: ParseStream<'_, '_>) -> Result<Self> {
        Ok(Names(input.parse_terminated_within(Delimiter::Bracket)?))
    }
}

/// By `ParseBufferExt::attempt`: a name and a comma, or a name.
#[derive(Drop)]
struct Tried((Option<(Ident, token::Comma)>, Ident));

impl Parse for Tried {
    fn parse(input: ParseStream<'_, '_>) -> Result<Self> {
        let tried = input.attempt()?;
        Ok(Tried((tried, input.parse()?)))
    }
}

/// By `ParseBufferExt::attempt_with`.
#[derive(Drop)]
struct TriedName(Option<Ident>);

impl Parse for TriedName {
    fn parse(input: ParseStream<'_, '_>) -> Result<Self> {
        Ok(TriedName(input.attempt_with(|input| input.parse())?))
    }
}

/// By `ParseBufferExt::parse_while_with`.
#[derive(Drop)]
struct StarsBy(Vec<token::Star>);

impl Parse for StarsBy {
    fn parse(input: ParseStream<'_, '_>) -> Result<Self> {
        Ok(StarsBy(input.parse_while_with::<token::Star, token::Star, _>(|input| input.parse())?))
    }
}

/// By `ParseBufferExt::parse_until_end_with`.
#[derive(Drop)]
struct NamesBy(Vec<Ident>);

impl Parse for NamesBy {
    fn parse(input: ParseStream<'_, '_>) -> Result<Self> {
        Ok(NamesBy(input.parse_until_end_with(|input| input.parse())?))
    }
}

/// Makes each call.
pub fn calls(alloc: Global) -> Outcome {
    worst(&[
        takes::<Starred>(alloc, "* abcdefghijklmnop"),
        takes::<StarOrName>(alloc, "*"),
        takes::<StarOrName>(alloc, "abcdefghijklmnop"),
        takes::<Names>(alloc, "[abcdefghijklmnop, b]"),
        takes::<Tried>(alloc, "abcdefghijklmnop, b"),
        takes::<Tried>(alloc, "abcdefghijklmnop"),
        takes::<TriedName>(alloc, "abcdefghijklmnop"),
        takes::<StarsBy>(alloc, "**"),
        takes::<NamesBy>(alloc, "abcdefghijklmnop b"),
        takes::<(Ident, Ident)>(alloc, "abcdefghijklmnop b"),
        takes::<(Ident, token::Comma, Ident)>(alloc, "abcdefghijklmnop, b"),
    ])
}
