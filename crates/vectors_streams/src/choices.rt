//! Choices: a value after a token that may be missing, one of two values, and a value that is tried.
//! Peeks made of peeks, and into a group. Values in groups.
use either::Either;
use std::alloc::Global;
use syn_choices::{NotNext, OneOf, ParseBufferExt, Then};
use syn_parse::{ParseStream, Parser, Result};
use tok_core::{Delimiter, Group, Ident, Literal};
use tok_types::token;

/// Parses a text by the parser of this name, if there is one here.
pub fn parsed(alloc: Global, parser: &str, text: &str) -> Option<Result<String>> {
    let returned = match parser {
        "AfterWhere" => after_where.parse_str(alloc, text),
        "IntoGroups" => into_groups.parse_str(alloc, text),
        "StarIf" => star_if.parse_str(alloc, text),
        "NameOrText" => name_or_text.parse_str(alloc, text),
        "ListInBrackets" => list_in_brackets.parse_str(alloc, text),
        "Attempt" => attempt.parse_str(alloc, text),
        "AttemptWith" => attempt_with.parse_str(alloc, text),
        "AttemptLeaves" => attempt_leaves.parse_str(alloc, text),
        "Peeks" => peeks.parse_str(alloc, text),
        "Pair" => pair.parse_str(alloc, text),
        "Triple" => triple.parse_str(alloc, text),
        _ => return None,
    };
    Some(returned)
}

// Returns the name after `where`, or `none`.
fn after_where(input: ParseStream<'_, '_>) -> Result<String> {
    match input.parse_after::<token::Where, Ident>()? {
        Some((_, name)) => Ok(format!(in input.allocator(); "{}", name.as_str())?),
        None => Ok(format!(in input.allocator(); "none")?),
    }
}

// Returns whether `crate` is first in parentheses and in braces.
fn into_groups(input: ParseStream<'_, '_>) -> Result<String> {
    let in_parens = input.peek_inside::<token::Crate>(Delimiter::Parenthesis);
    let in_braces = input.peek_inside::<token::Crate>(Delimiter::Brace);
    let _: Group = input.parse()?;
    Ok(format!(in input.allocator(); "{in_parens} {in_braces}")?)
}

// Returns whether there is `*` and a name, and the name after both.
fn star_if(input: ParseStream<'_, '_>) -> Result<String> {
    let starred = input.parse_if::<token::Star, (token::Star, Ident)>()?;
    let name: Ident = input.parse()?;
    Ok(format!(in input.allocator(); "{} {}", starred.is_some(), name.as_str())?)
}

// Returns the name after `=`, or a literal.
fn name_or_text(input: ParseStream<'_, '_>) -> Result<String> {
    let alloc = input.allocator();
    match input.parse_either::<token::Eq, (token::Eq, Ident), Literal>()? {
        Either::Left((_, name)) => Ok(format!(in alloc; "name {}", name.as_str())?),
        Either::Right(text) => Ok(format!(in alloc; "text {}", text.as_str())?),
    }
}

// Returns how many names are in brackets, and whether a comma is after the last.
fn list_in_brackets(input: ParseStream<'_, '_>) -> Result<String> {
    let (_, names) = input.parse_terminated_within::<Ident, token::Comma>(Delimiter::Bracket)?;
    Ok(format!(in input.allocator(); "{} {}", names.len(), names.trailing_punct())?)
}

// Returns whether a name and a comma are first, and the name after them.
fn attempt(input: ParseStream<'_, '_>) -> Result<String> {
    let found = input.attempt::<(Ident, token::Comma)>()?;
    let name: Ident = input.parse()?;
    Ok(format!(in input.allocator(); "{} {}", found.is_some(), name.as_str())?)
}

// Returns whether a group with a name alone is first, and a name after it or after a group.
fn attempt_with(input: ParseStream<'_, '_>) -> Result<String> {
    let found = input.attempt_with(|input| {
        let (_, name) = input.parse_within::<Ident>(Delimiter::Parenthesis)?;
        Ok(name)
    })?;
    if found.is_none() {
        let _: Group = input.parse()?;
    }
    let name: Ident = input.parse()?;
    Ok(format!(in input.allocator(); "{} {}", found.is_some(), name.as_str())?)
}

// Leaves the stream for the group that is next.
fn enter(input: ParseStream<'_, '_>) -> Result<()> {
    let (_, _, mut content) = input.parse_any_delimiter()?;
    input.swap(&mut content);
    content.discard();
    Ok(())
}

fn attempt_leaves(input: ParseStream<'_, '_>) -> Result<String> {
    let entered = input.attempt_with(enter)?;
    Ok(format!(in input.allocator(); "{}", entered.is_some())?)
}

// Returns whether a name and `:` are next, whether `*` or a name is, and whether no `*` is.
fn peeks(input: ParseStream<'_, '_>) -> Result<String> {
    let named = input.peek::<Then<Ident, token::Colon>>();
    let first = input.peek::<OneOf<token::Star, Ident>>();
    let other = input.peek::<NotNext<token::Star>>();
    let _ = input.rest()?;
    Ok(format!(in input.allocator(); "{named} {first} {other}")?)
}

// Returns two names.
fn pair(input: ParseStream<'_, '_>) -> Result<String> {
    let (first, second): (Ident, Ident) = input.parse()?;
    Ok(format!(in input.allocator(); "{} {}", first.as_str(), second.as_str())?)
}

// Returns two names that have `::` between them.
fn triple(input: ParseStream<'_, '_>) -> Result<String> {
    let (first, _, second): (Ident, token::PathSep, Ident) = input.parse()?;
    Ok(format!(in input.allocator(); "{} {}", first.as_str(), second.as_str())?)
}
