//! The parsers of values that follow one another, and of one after a token.
use super::{rejects, takes};
use std::alloc::Global;
use syn_parse::{Nothing, Parse, ParseStream, Result};
use test_outcomes::memory::{Outcome, worst};
use tok_core::Ident;
use tok_types::token;

/// By `ParseBuffer::parse_while`.
#[derive(Drop)]
struct Stars(Vec<token::Star>);

impl Parse for Stars {
    fn parse(input: ParseStream<'_, '_>) -> Result<Self> {
        Ok(Stars(input.parse_while::<token::Star, token::Star>()?))
    }
}

/// By `ParseBuffer::parse_after`.
#[derive(Drop)]
struct Guard(Option<(token::Where, Ident)>);

impl Parse for Guard {
    fn parse(input: ParseStream<'_, '_>) -> Result<Self> {
        Ok(Guard(input.parse_after::<token::Where, Ident>()?))
    }
}

/// By `ParseBuffer::parse_until_end`.
#[derive(Drop)]
struct ToEnd(Vec<Ident>);

impl Parse for ToEnd {
    fn parse(input: ParseStream<'_, '_>) -> Result<Self> {
        Ok(ToEnd(input.parse_until_end::<Ident>()?))
    }
}

/// Makes each call.
pub fn calls(alloc: Global) -> Outcome {
    worst(&[
        takes::<Stars>(alloc, "**"),
        takes::<Guard>(alloc, "where abcdefghijklmnop"),
        takes::<Vec<Ident>>(alloc, "a b"),
        takes::<ToEnd>(alloc, "a b"),
        rejects::<Vec<Nothing>>(alloc, "a", "ParseBuffer::parse_until_end"),
    ])
}
