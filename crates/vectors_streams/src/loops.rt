//! Values that follow one another.
use std::alloc::Global;
use std::num::Saturating;
use syn_choices::{NotNext, OneOf, ParseBufferExt, Then};
use syn_parse::{Nothing, Parse, ParseStream, Parser, Result};
use test_outcomes::read;
use tok_core::{Delimiter, Ident, Literal, TokenTree};
use tok_types::token;

/// Parses a text by the parser of this name, if there is one here.
pub fn parsed(alloc: Global, parser: &str, text: &str) -> Option<Result<String>> {
    let returned = match parser {
        "While" => by_peeks.parse_str(alloc, text),
        "UntilEnd" => to_the_end.parse_str(alloc, text),
        "WhileCounted" => while_counted.parse_str(alloc, text),
        "UntilEndMarked" => until_end_marked.parse_str(alloc, text),
        "UntilEndLeaves" => until_end_leaves.parse_str(alloc, text),
        "UntilEndNothing" => until_end_nothing.parse_str(alloc, text),
        "AllInBraces" => all_in_braces.parse_str(alloc, text),
        "Literals" => read::<Vec<Literal>>.parse_str(alloc, text),
        "Nothings" => read::<Vec<Nothing>>.parse_str(alloc, text),
        _ => return None,
    };
    Some(returned)
}

// Returns how many stars come first, and the name after them.
fn by_peeks(input: ParseStream<'_, '_>) -> Result<String> {
    let stars = input.parse_while::<token::Star, token::Star>()?;
    let name: Ident = input.parse()?;
    Ok(format!(in input.allocator(); "{} {}", stars.len(), name.as_str())?)
}

fn to_the_end(input: ParseStream<'_, '_>) -> Result<String> {
    let names = input.parse_until_end::<Ident>()?;
    Ok(format!(in input.allocator(); "{}", names.len())?)
}

fn all_in_braces(input: ParseStream<'_, '_>) -> Result<String> {
    let (_, names) = input.parse_within::<Vec<Ident>>(Delimiter::Brace)?;
    Ok(format!(in input.allocator(); "{}", names.len())?)
}

// Returns how many names without a `=` after them, or stars, come first, and the name after them.
fn while_counted(input: ParseStream<'_, '_>) -> Result<String> {
    let mut turns = Saturating(0_usize);
    let firsts = input.parse_while_with::<
        OneOf<token::Star, Then<Ident, NotNext<token::Eq>>>,
        usize,
        _,
    >(|input| {
        let _: TokenTree = input.parse()?;
        turns += 1;
        Ok(turns.0)
    })?;
    let name: Ident = input.parse()?;
    let _: token::Eq = input.parse()?;
    Ok(format!(in input.allocator(); "{} {}", firsts.len(), name.as_str())?)
}

// Returns how many names there are, each with `;` after it.
fn until_end_marked(input: ParseStream<'_, '_>) -> Result<String> {
    let names = input.parse_until_end_with(marked)?;
    Ok(format!(in input.allocator(); "{}", names.len())?)
}

fn marked(input: ParseStream<'_, '_>) -> Result<Ident> {
    let name = input.parse()?;
    let _: token::Semi = input.parse()?;
    Ok(name)
}

// Leaves the stream for the group that is next.
fn enter(input: ParseStream<'_, '_>) -> Result<()> {
    let (_, _, mut content) = input.parse_any_delimiter()?;
    input.swap(&mut content);
    content.discard();
    Ok(())
}

fn until_end_leaves(input: ParseStream<'_, '_>) -> Result<String> {
    let entered = input.parse_until_end_with(enter)?;
    Ok(format!(in input.allocator(); "{}", entered.len())?)
}

fn until_end_nothing(input: ParseStream<'_, '_>) -> Result<String> {
    let nothings = input.parse_until_end_with(|input| Nothing::parse(input))?;
    Ok(format!(in input.allocator(); "{}", nothings.len())?)
}
