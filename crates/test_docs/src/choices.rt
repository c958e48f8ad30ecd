//! Examples of `syn_parse` and `syn_choices`: a value that may be missing, one of two, a peek into a
//! group, values that are tried or parsed by a function, peeks that are made of peeks, and values in
//! groups that have no type of their own.
use either::Either;
use syn_choices::{NotNext, OneOf, ParseBufferExt, Then};
use syn_parse::{IdentExt, Parse, ParseStream, Parser, Result};
use tok_core::{Delimiter, Group, Ident, Span};
use tok_types::token;

fn guarded(input: ParseStream<'_, '_>) -> Result<bool> {
    let guard = input.parse_after::<token::Where, Ident>()?;
    Ok(guard.is_some())
}

fn restricted(input: ParseStream<'_, '_>) -> Result<bool> {
    let is_restricted = input.peek_inside::<token::Crate>(Delimiter::Parenthesis);
    let _: Group = input.parse()?;
    Ok(is_restricted)
}

type Generics = (token::Lt, Ident, token::Gt);

fn generic(input: ParseStream<'_, '_>) -> Result<bool> {
    let generics = input.parse_if::<token::Lt, Generics>()?;
    Ok(generics.is_some())
}

#[derive(Drop)]
struct Fields;

impl Parse for Fields {
    fn parse(input: ParseStream<'_, '_>) -> Result<Self> {
        let _: Group = input.parse()?;
        Ok(Fields)
    }
}

fn in_braces(input: ParseStream<'_, '_>) -> Result<bool> {
    let body = input.parse_either::<token::Brace, Fields, token::Semi>()?;
    Ok(matches!(body, Either::Left(_)))
}

fn listed(input: ParseStream<'_, '_>) -> Result<usize> {
    let (_, names) = input.parse_terminated_within::<Ident, token::Comma>(Delimiter::Bracket)?;
    Ok(names.len())
}

fn two(input: ParseStream<'_, '_>) -> Result<Ident> {
    let (_, (name, _)) = input.parse_within::<(Ident, token::Semi)>(Delimiter::Brace)?;
    Ok(name)
}

fn three(input: ParseStream<'_, '_>) -> Result<(Ident, Ident)> {
    let (_, (owner, _, name)) = input.parse_within::<(Ident, token::PathSep, Ident)>(
        Delimiter::Parenthesis,
    )?;
    Ok((owner, name))
}

fn pair(input: ParseStream<'_, '_>) -> Result<bool> {
    let pair = input.attempt::<(Ident, token::Comma)>()?;
    Ok(pair.is_some())
}

fn any_name(input: ParseStream<'_, '_>) -> Result<bool> {
    let name = input.attempt_with(|input| Ident::parse_any(input))?;
    Ok(name.is_some())
}

fn parse_star(input: ParseStream<'_, '_>) -> Result<Span> {
    let star: token::Star = input.parse()?;
    Ok(star.span())
}

fn stars(input: ParseStream<'_, '_>) -> Result<usize> {
    let stars = input.parse_while_with::<token::Star, Span, _>(parse_star)?;
    Ok(stars.len())
}

fn parse_item(input: ParseStream<'_, '_>) -> Result<Ident> {
    let name = input.parse()?;
    let _: token::Semi = input.parse()?;
    Ok(name)
}

fn items(input: ParseStream<'_, '_>) -> Result<usize> {
    let items = input.parse_until_end_with(parse_item)?;
    Ok(items.len())
}

fn named(input: ParseStream<'_, '_>) -> Result<bool> {
    let is_named = input.peek::<Then<Ident, token::Colon>>();
    let _ = input.rest()?;
    Ok(is_named)
}

// A word of any kind, and a name.
#[derive(Drop)]
struct Item;

impl Parse for Item {
    fn parse(input: ParseStream<'_, '_>) -> Result<Self> {
        let _ = Ident::parse_any(input)?;
        let _: Ident = input.parse()?;
        Ok(Item)
    }
}

fn kinds(input: ParseStream<'_, '_>) -> Result<usize> {
    let items = input.parse_while::<OneOf<token::Struct, token::Enum>, Item>()?;
    Ok(items.len())
}

fn words(input: ParseStream<'_, '_>) -> Result<usize> {
    let words = input.parse_while::<Then<Ident, NotNext<token::Eq>>, Ident>()?;
    let _ = input.rest()?;
    Ok(words.len())
}

#[test]
fn choices(rt: HostRuntime) {
    let alloc = rt.alloc();
    assert_eq!(rt; guarded.parse_str(alloc, "where a").ok(), Some(true));
    assert_eq!(rt; guarded.parse_str(alloc, "").ok(), Some(false));
    assert_eq!(rt; restricted.parse_str(alloc, "(crate)").ok(), Some(true));
    assert_eq!(rt; restricted.parse_str(alloc, "(a crate)").ok(), Some(false));
    assert_eq!(rt; generic.parse_str(alloc, "<T>").ok(), Some(true));
    assert_eq!(rt; generic.parse_str(alloc, "").ok(), Some(false));
    assert_eq!(rt; in_braces.parse_str(alloc, "{ a }").ok(), Some(true));
    assert_eq!(rt; in_braces.parse_str(alloc, ";").ok(), Some(false));
    assert_eq!(rt; listed.parse_str(alloc, "[a, b]").ok(), Some(2));
    assert_eq!(rt; two.parse_str(alloc, "{ a; }").is_ok(), true);
    assert_eq!(rt; three.parse_str(alloc, "(a::b)").is_ok(), true);
}

#[test]
fn attempts(rt: HostRuntime) {
    let alloc = rt.alloc();
    assert_eq!(rt; pair.parse_str(alloc, "a,").ok(), Some(true));
    assert_eq!(rt; pair.parse_str(alloc, "").ok(), Some(false));
    assert_eq!(rt; any_name.parse_str(alloc, "fn").ok(), Some(true));
    assert_eq!(rt; any_name.parse_str(alloc, "").ok(), Some(false));
    assert_eq!(rt; stars.parse_str(alloc, "**").ok(), Some(2));
    assert_eq!(rt; items.parse_str(alloc, "a; b;").ok(), Some(2));
}

#[test]
fn peeks(rt: HostRuntime) {
    let alloc = rt.alloc();
    assert_eq!(rt; named.parse_str(alloc, "a: b").ok(), Some(true));
    assert_eq!(rt; named.parse_str(alloc, "a b").ok(), Some(false));
    assert_eq!(rt; kinds.parse_str(alloc, "struct a enum b").ok(), Some(2));
    assert_eq!(rt; words.parse_str(alloc, "a b c = 1").ok(), Some(2));
}
