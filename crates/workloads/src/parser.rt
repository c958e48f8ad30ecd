//! A parser on the layer, as users write it: items with attributes, of which alternatives are tried
//! on forks.
use crate::digest::Digest;
use crate::pen::Pen;
use crate::sources::digest_stream;
use anyhow::{Context, Result};
use std::alloc::Global;
use syn_parse::{Fault, IdentExt, ParseStream, Parser};
use syn_punctuated::Punctuated;
use tok_buffer::Lifetime;
use tok_core::{Delimiter, Group, Ident, Literal, TokenTree};
use tok_types::token;

/// An argument of an attribute.
#[derive(Drop)]
enum Argument {
    Setting(Ident, Literal),
    List(Ident, Group),
    Value(Literal),
    Flag(Ident),
}

/// What is after the name of an attribute.
#[derive(Drop)]
enum Arguments {
    None,
    Value(Literal),
    List(Punctuated<Argument, token::Comma>),
}

#[derive(Drop)]
struct Attribute {
    name: Ident,
    arguments: Arguments,
}

#[derive(Drop)]
struct Kind {
    lifetime: Option<Lifetime>,
    is_changed: bool,
    path: Punctuated<Ident, token::PathSep>,
    trees: Vec<TokenTree>,
}

#[derive(Drop)]
struct Item {
    attributes: Vec<Attribute>,
    is_public: bool,
    name: Ident,
    kind: Kind,
}

/// Reads so many texts of items, of 10 KB to 1 MB.
pub fn run(alloc: Global, seed: u64, rounds: usize, digest: &mut Digest) -> Result<()> {
    let mut pen = Pen::new(alloc, seed, true)?;
    for number in 0..rounds {
        let bytes = match number % 32 {
            31 => 1_000_000,
            15 | 23 => 100_000,
            _ => pen.random.below(20_000).saturating_add(10_000),
        };
        for _ in 0..bytes {
            if pen.text.len() >= bytes {
                break;
            }
            pen.item()?;
        }
        let text = pen.take();
        let bytes = text.len();
        let parsed = (|input: ParseStream<'_, '_>| parse_items(input, bytes)).parse_str(
            alloc,
            text.as_str(),
        );
        for item in &parsed.ok().context("parsing items")? {
            digest_item(item, digest);
        }
    }
    Ok(())
}

// Parses items to the end, of which there are no more than bytes.
fn parse_items(input: ParseStream<'_, '_>, bytes: usize) -> syn_parse::Result<Vec<Item>> {
    let mut items = Vec::new(input.allocator());
    for _ in 0..bytes {
        if input.is_empty() {
            break;
        }
        items.push(parse_item(input)?)?;
    }
    Ok(items)
}

fn parse_item(input: ParseStream<'_, '_>) -> syn_parse::Result<Item> {
    let mut attributes = Vec::new(input.allocator());
    for _ in 0..u32::MAX {
        if !input.peek::<token::Pound>() {
            break;
        }
        attributes.push(parse_attribute(input)?)?;
    }
    let is_public = visibility(input)?;
    let name = input.parse()?;
    let _: token::Colon = input.parse()?;
    let kind = parse_kind(input)?;
    let _: token::Comma = input.parse()?;
    Ok(Item {
        attributes,
        is_public,
        name,
        kind,
    })
}

// Parses `pub`, with or without a group, or nothing.
fn visibility(input: ParseStream<'_, '_>) -> syn_parse::Result<bool> {
    let word: Option<token::Pub> = input.parse()?;
    if word.is_none() {
        return Ok(false);
    }
    if input.peek::<token::Paren>() {
        let _ = input.within(Delimiter::Parenthesis, |content| Ident::parse_any(content))?;
    }
    Ok(true)
}

fn parse_attribute(input: ParseStream<'_, '_>) -> syn_parse::Result<Attribute> {
    let _: token::Pound = input.parse()?;
    let (_, attribute) = input.within(Delimiter::Bracket, |content| meta(content))?;
    Ok(attribute)
}

// Parses a name and its arguments.
fn meta(input: ParseStream<'_, '_>) -> syn_parse::Result<Attribute> {
    let name = input.parse()?;
    if input.is_empty() {
        return Ok(Attribute {
            name,
            arguments: Arguments::None,
        });
    }
    let mut lookahead = input.lookahead1();
    let arguments = if lookahead.peek::<token::Eq>()? {
        let _: token::Eq = input.parse()?;
        Arguments::Value(input.parse()?)
    } else if lookahead.peek::<token::Paren>()? {
        let (_, list) = input.within(
            Delimiter::Parenthesis,
            |content| Punctuated::parse_terminated_with(content, |input| parse_argument(input)),
        )?;
        Arguments::List(list)
    } else {
        return Err(lookahead.error());
    };
    Ok(Attribute { name, arguments })
}

// Parses an argument by the first of four alternatives that fits.
fn parse_argument(input: ParseStream<'_, '_>) -> syn_parse::Result<Argument> {
    if let Some(argument) = on_fork(input, |fork| setting(fork))? {
        return Ok(argument);
    }
    if let Some(argument) = on_fork(input, |fork| list(fork))? {
        return Ok(argument);
    }
    if input.peek::<Literal>() {
        return Ok(Argument::Value(input.parse()?));
    }
    Ok(Argument::Flag(Ident::parse_any(input)?))
}

// Tries a parser on a fork, and moves there if it returns a value.
fn on_fork<F>(input: ParseStream<'_, '_>, parser: F) -> syn_parse::Result<Option<Argument>>
where
    F: FnOnce(ParseStream<'_, '_>) -> syn_parse::Result<Argument>,
    requires { F.IsAlwaysCallable parser }
{
    let mut fork = input.fork();
    match parser(&mut fork) {
        Ok(argument) => {
            if input.cursor().same_scope(fork.cursor()) {
                input.advance_to(fork);
            } else {
                fork.discard();
            }
            Ok(Some(argument))
        }
        Err(fault) => {
            fork.discard();
            match fault {
                Fault::Refused(_) => Ok(None),
                Fault::Memory(error) => Err(Fault::Memory(error)),
            }
        }
    }
}

fn setting(input: ParseStream<'_, '_>) -> syn_parse::Result<Argument> {
    let name = input.parse()?;
    let _: token::Eq = input.parse()?;
    let value = input.parse()?;
    Ok(Argument::Setting(name, value))
}

fn list(input: ParseStream<'_, '_>) -> syn_parse::Result<Argument> {
    let name = input.parse()?;
    let group = input.parse()?;
    Ok(Argument::List(name, group))
}

// Parses a type: a reference, a group as a tree, or a path with trees between angle brackets.
fn parse_kind(input: ParseStream<'_, '_>) -> syn_parse::Result<Kind> {
    let mut kind = Kind {
        lifetime: None,
        is_changed: false,
        path: Punctuated::new(input.allocator()),
        trees: Vec::new(input.allocator()),
    };
    if input.peek::<token::And>() {
        let _: token::And = input.parse()?;
        kind.lifetime = input.parse()?;
        let word: Option<token::Mut> = input.parse()?;
        kind.is_changed = word.is_some();
    }
    if input.peek::<token::Paren>() || input.peek::<token::Bracket>() {
        kind.trees.push(input.parse()?)?;
        return Ok(kind);
    }
    kind.path = Punctuated::parse_separated_nonempty(input)?;
    for _ in 0..u32::MAX {
        if input.is_empty()
            || input.peek::<token::Comma>()
                && !input.peek2::<token::Gt>()
                && is_closed(&kind.trees)
        {
            break;
        }
        kind.trees.push(input.parse()?)?;
    }
    Ok(kind)
}

// Returns `true` if as many angle brackets close as open.
fn is_closed(trees: &[TokenTree]) -> bool {
    let mut open = 0usize;
    for tree in trees {
        if let TokenTree::Punct(punct) = tree {
            match punct.as_char() {
                '<' => open = open.saturating_add(1),
                '>' => open = open.saturating_sub(1),
                _ => {}
            }
        }
    }
    open == 0
}

fn digest_item(item: &Item, digest: &mut Digest) {
    for attribute in &item.attributes {
        digest.ident(&attribute.name);
        match &attribute.arguments {
            Arguments::None => digest.number(0),
            Arguments::Value(literal) => digest.literal(literal),
            Arguments::List(list) => {
                for argument in list {
                    digest_argument(argument, digest);
                }
            }
        }
    }
    digest.number(u64::from(item.is_public));
    digest.ident(&item.name);
    digest_kind(&item.kind, digest);
}

fn digest_argument(argument: &Argument, digest: &mut Digest) {
    match argument {
        Argument::Setting(name, literal) => {
            digest.ident(name);
            digest.literal(literal);
        }
        Argument::List(name, group) => {
            digest.ident(name);
            digest.span(group.span());
            digest_stream(group.stream(), digest);
        }
        Argument::Value(literal) => digest.literal(literal),
        Argument::Flag(name) => digest.ident(name),
    }
}

fn digest_kind(kind: &Kind, digest: &mut Digest) {
    if let Some(lifetime) = &kind.lifetime {
        digest.ident(&lifetime.ident);
    }
    digest.number(u64::from(kind.is_changed));
    for name in &kind.path {
        digest.ident(name);
    }
    for tree in &kind.trees {
        digest.span(tree.span());
    }
}
