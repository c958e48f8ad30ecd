//! The list parsers, with parsers that read nothing or go back.
use std::alloc::Global;
use syn_parse::{Nothing, Parse, ParseStream, Parser, Paused, Result};
use syn_punctuated::{ParseTerminated, Punctuated};
use tok_buffer::Cursor;
use tok_core::{Ident, TokenStream};
use tok_types::token::{self, Token};

/// Parses a text by the parser of this name, if there is one here.
pub fn parsed(alloc: Global, parser: &str, text: &str) -> Option<Result<String>> {
    let returned = match parser {
        "TerminatedCalls" => terminated_calls.parse_str(alloc, text),
        "SeparatedCalls" => separated_calls.parse_str(alloc, text),
        "Terminated" => terminated.parse_str(alloc, text),
        "Separated" => separated.parse_str(alloc, text),
        "ByStream" => by_stream.parse_str(alloc, text),
        "NothingByNothing" => nothing_by_nothing.parse_str(alloc, text),
        "OneRest" => one_rest.parse_str(alloc, text),
        "Rests" => rests.parse_str(alloc, text),
        "FromStart" => from_start.parse_str(alloc, text),
        _ => return None,
    };
    Some(returned)
}

type Names = Punctuated<Ident, token::Comma>;

type Blanks = Punctuated<Nothing, token::Comma>;

// Returns how many names a list has, and whether it ends in a separator.
fn counted(alloc: Global, list: &Names) -> Result<String> {
    let count = list.len();
    let is_trailing = list.trailing_punct();
    Ok(format!(in alloc; "{count} {is_trailing}")?)
}

fn terminated(input: ParseStream<'_, '_>) -> Result<String> {
    let list: Names = Punctuated::parse_terminated(input)?;
    counted(input.allocator(), &list)
}

fn separated(input: ParseStream<'_, '_>) -> Result<String> {
    let list: Names = Punctuated::parse_separated_nonempty(input)?;
    counted(input.allocator(), &list)
}

fn by_stream(input: ParseStream<'_, '_>) -> Result<String> {
    let list = input.parse_terminated::<Ident, token::Comma, _>(|stream| stream.parse())?;
    counted(input.allocator(), &list)
}

// Returns how many names a list has, and how often its parser was called.
fn terminated_calls(input: ParseStream<'_, '_>) -> Result<String> {
    let alloc = input.allocator();
    let mut calls = 0u32;
    let list: Names = Punctuated::parse_terminated_with(input, |stream| {
        calls = calls.wrapping_add(1);
        Ident::parse(stream)
    })?;
    Ok(format!(in alloc; "{} {calls}", list.len())?)
}

fn separated_calls(input: ParseStream<'_, '_>) -> Result<String> {
    let alloc = input.allocator();
    let mut calls = 0u32;
    let list: Names = Punctuated::parse_separated_nonempty_with(input, |stream| {
        calls = calls.wrapping_add(1);
        Ident::parse(stream)
    })?;
    Ok(format!(in alloc; "{} {calls}", list.len())?)
}

fn nothing_by_nothing(input: ParseStream<'_, '_>) -> Result<String> {
    let _: Punctuated<Nothing, Nothing> = Punctuated::parse_terminated(input)?;
    Ok(String::new(input.allocator()))
}

// Parses all that is left, and then nothing. Returns the number of values, and of the first one's
// trees.
fn one_rest(input: ParseStream<'_, '_>) -> Result<String> {
    let list: Punctuated<TokenStream, Nothing> = Punctuated::parse_terminated(input)?;
    let count = list.len();
    let trees = match list.first() {
        Some(value) => value.trees().len(),
        None => 0,
    };
    Ok(format!(in input.allocator(); "{count} {trees}")?)
}

// A separator that is always next, and reads nothing.
#[derive(Drop)]
struct Always;

impl Token for Always {
    fn peek(_cursor: Cursor<'_>) -> bool {
        true
    }

    fn display() -> &'static str {
        "always"
    }
}

impl Parse for Always {
    fn parse(_input: ParseStream<'_, '_>) -> Result<Self> {
        Ok(Always)
    }
}

fn rests(input: ParseStream<'_, '_>) -> Result<String> {
    let _: Punctuated<TokenStream, Always> = Punctuated::parse_separated_nonempty(input)?;
    Ok(String::new(input.allocator()))
}

// Moves to the place of a paused stream, if that is in the same scope.
fn go_to<'a>(stream: ParseStream<'_, 'a>, place: Paused<'a>) {
    let fork = place.resume();
    if stream.cursor().same_scope(fork.cursor()) {
        stream.advance_to(fork);
    } else {
        fork.discard();
    }
}

// Parses nothing between commas, each time from the start.
fn from_start(input: ParseStream<'_, '_>) -> Result<String> {
    let start = input.fork().pause();
    let _: Blanks = Punctuated::parse_terminated_with(input, move |stream| {
        go_to(stream, start);
        Ok(Nothing)
    })?;
    Ok(String::new(input.allocator()))
}
