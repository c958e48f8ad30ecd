//! Examples of `syn_punctuated` and `arguments`.
use arguments::parse_arguments;
use std::alloc::{AllocError, AllocGlobal, Global};
use std::process::Abort;
use syn_parse::{self as parse, IdentExt, ParseStream, Parser};
use syn_punctuated::{ParseTerminated, Punctuated};
use tok_core::{Ident, lex};
use tok_types::token;

fn values(rt: &(impl Abort + AllocGlobal), alloc: Global) -> Result<(), AllocError> {
    let mut list: Punctuated<u8, token::Comma> = Punctuated::new(alloc);
    list.push(1)?;
    list.push(2)?;
    assert_eq!(rt; list.len(), 2);
    assert_eq!(rt; list.trailing_punct(), false);
    assert_eq!(rt; list.last(), Some(&2));
    Ok(())
}

fn pairs(rt: &(impl Abort + AllocGlobal), alloc: Global) -> Result<(), AllocError> {
    let list = Punctuated::<u8, token::Comma>::from_values(alloc, vec![in alloc; 1, 2]?)?;
    let mut bare = None;
    for pair in list.pairs() {
        if pair.punct().is_none() {
            bare = Some(**pair.value());
        }
    }
    assert_eq!(rt; bare, Some(2));
    Ok(())
}

#[test]
fn lists(rt: HostRuntime) {
    assert!(rt; values(&rt, rt.alloc()).is_ok());
    assert!(rt; pairs(&rt, rt.alloc()).is_ok());
}

pub fn names(input: ParseStream<'_, '_>) -> parse::Result<Punctuated<Ident, token::Comma>> {
    Punctuated::parse_terminated_with(input, |input| Ident::parse_any(input))
}

pub fn path(input: ParseStream<'_, '_>) -> parse::Result<Punctuated<Ident, token::PathSep>> {
    Punctuated::parse_separated_nonempty_with(input, |input| Ident::parse_any(input))
}

fn terminated(input: ParseStream<'_, '_>) -> parse::Result<usize> {
    let names: Punctuated<Ident, token::Comma> = Punctuated::parse_terminated(input)?;
    Ok(names.len())
}

fn terminated_by_a_call(input: ParseStream<'_, '_>) -> parse::Result<usize> {
    let names = input.parse_terminated::<Ident, token::Comma, _>(|input| input.parse())?;
    Ok(names.len())
}

fn separated(input: ParseStream<'_, '_>) -> parse::Result<usize> {
    let path: Punctuated<Ident, token::PathSep> = Punctuated::parse_separated_nonempty(input)?;
    Ok(path.len())
}

// How many values a list parser reads, by the parser's name and from its text.
fn counts(alloc: Global) -> parse::Result<[usize; 5]> {
    Ok([
        names.parse_str(alloc, "a, fn,")?.len(),
        path.parse_str(alloc, "a::fn")?.len(),
        terminated.parse_str(alloc, "a, b, c,")?,
        terminated_by_a_call.parse_str(alloc, "a, b, c")?,
        separated.parse_str(alloc, "a::b::c::d")?,
    ])
}

#[test]
fn parsed_lists(rt: HostRuntime) {
    assert_eq!(rt; counts(rt.alloc()).ok(), Some([2, 2, 3, 3, 4]));
}

fn argument_list(rt: &(impl Abort + AllocGlobal), alloc: Global) -> Option<()> {
    let tokens = lex(alloc, 0, "a, b = 1, c(d)").ok()?;
    let list = parse_arguments(alloc, tokens).ok()?;
    assert_eq!(rt; list.len(), 3);
    Some(())
}

#[test]
fn argument_lists(rt: HostRuntime) {
    assert!(rt; argument_list(&rt, rt.alloc()).is_some());
}
