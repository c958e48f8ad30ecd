//! Examples of `syn_parse`: values that follow one another.
use syn_parse::{ParseStream, Parser, Result};
use tok_core::{Delimiter, Ident};
use tok_types::token;

fn starred(input: ParseStream<'_, '_>) -> Result<usize> {
    let stars = input.parse_while::<token::Star, token::Star>()?;
    Ok(stars.len())
}

fn named(input: ParseStream<'_, '_>) -> Result<usize> {
    let names = input.parse_until_end::<Ident>()?;
    Ok(names.len())
}

fn in_braces(input: ParseStream<'_, '_>) -> Result<usize> {
    let (_, names) = input.parse_within::<Vec<Ident>>(Delimiter::Brace)?;
    Ok(names.len())
}

#[test]
fn loops(rt: HostRuntime) {
    let alloc = rt.alloc();
    assert_eq!(rt; starred.parse_str(alloc, "**").ok(), Some(2));
    assert_eq!(rt; named.parse_str(alloc, "a b c").ok(), Some(3));
    assert_eq!(rt; in_braces.parse_str(alloc, "{ a b }").ok(), Some(2));
}
