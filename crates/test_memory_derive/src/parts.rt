//! What a derive is given and its parts, parsed, and written if they can be.
use std::alloc::Global;
use syn_derive::{
    Attribute, DeriveInput, Expr, Field, Fields, Generics, Meta, MetaList, MetaNameValue,
    NestedMeta, Path, PathSegment, Type, Variant, Visibility, WhereClause,
};
use syn_parse::{Parse, ParseStream, Result, tokens_to_parse_buffer};
use syn_punctuated::Punctuated;
use test_outcomes::memory::{Outcome, Stop, ended, made, rejected, told, worst};
use tok_buffer::TokenBuffer;
use tok_core::{Ident, Span, ToTokens, lex};
use tok_types::token;

/// Makes each call.
pub fn calls(alloc: Global) -> Outcome {
    worst(&[
        copied::<PathSegment>(alloc, "abcdefghijklmnop"),
        copied::<Path>(alloc, "::abcdefghijklmnop::b"),
        copied::<Meta>(alloc, "a"),
        copied::<Meta>(alloc, "a = \"abcdefghijklmnop\""),
        copied::<Meta>(alloc, "a(abcdefghijklmnop, b)"),
        copied::<Meta>(alloc, "a[b]"),
        copied::<Meta>(alloc, "a{b}"),
        copied::<Meta>(alloc, "unsafe(b)"),
        copied::<MetaList>(alloc, "abcdefghijklmnop(b)"),
        copied::<MetaList>(alloc, "a[b]"),
        copied::<MetaList>(alloc, "unsafe{b}"),
        rejects::<MetaList>(alloc, "a = 1", "MetaList::parse"),
        copied::<MetaNameValue>(alloc, "abcdefghijklmnop = 1"),
        rejects::<MetaNameValue>(alloc, "a(b)", "MetaNameValue::parse"),
        takes::<Nested>(alloc, "::type::abcdefghijklmnop = 1"),
        rejects::<Nested>(alloc, ",", "Meta::parse_nested"),
        copied::<NestedMeta>(alloc, "type(abcdefghijklmnop)"),
        copied::<NestedMeta>(alloc, "\"abcdefghijklmnop\""),
        rejects::<NestedMeta>(alloc, "+", "NestedMeta::parse"),
        of_macro(alloc),
        copied::<Attribute>(alloc, "#[a]"),
        copied::<Visibility>(alloc, "pub"),
        copied::<Visibility>(alloc, "pub(in abcdefghijklmnop)"),
        copied::<Visibility>(alloc, "pub(crate)"),
        copied::<Type>(alloc, "Abcdefghijklmnop<B>"),
        copied::<Expr>(alloc, "abcdefghijklmnop + 1"),
        copied::<Generics>(alloc, "<Abcdefghijklmnop>"),
        copied::<WhereClause>(alloc, "where Abcdefghijklmnop: B"),
        takes::<Named>(alloc, "#[a] pub abcdefghijklmnop: u8"),
        takes::<Unnamed>(alloc, "pub u8"),
        copied::<Fields>(alloc, "{ a: u8 }"),
        copied::<Fields>(alloc, "(u8)"),
        copied::<Fields>(alloc, ""),
        copied::<Variant>(alloc, "#[a] Abcdefghijklmnop { a: u8 } = 1"),
        copied::<DeriveInput>(alloc, "#[a] pub struct A<T> where T: B { a: T, b: u8 }"),
        copied::<DeriveInput>(alloc, "struct A(u8) where u8: B;"),
        copied::<DeriveInput>(alloc, "enum A { B, C(u8) }"),
        copied::<DeriveInput>(alloc, "union A { a: u8 }"),
        rejects::<Path>(alloc, "fn", "Path::parse"),
        rejects::<Meta>(alloc, "a = ,", "Meta::parse"),
        rejects::<Attribute>(alloc, "#a", "Attribute::parse"),
        rejects::<Type>(alloc, ",", "Type::parse"),
        rejects::<Expr>(alloc, ",", "Expr::parse"),
        rejects::<DeriveInput>(alloc, "fn", "DeriveInput::parse"),
        outer(alloc),
        arguments(alloc),
        without_arguments(alloc, "#[abcdefghijklmnop::b]"),
        without_arguments(alloc, "#[abcdefghijklmnop = 1]"),
        asks(alloc, "abcdefghijklmnop::b"),
        asks(alloc, "abcdefghijklmnop = 1"),
        asks(alloc, "abcdefghijklmnop()"),
    ])
}

fn laid(alloc: Global, text: &str) -> std::result::Result<TokenBuffer, Stop> {
    made(TokenBuffer::from_text(alloc, 0, 0, text))
}

fn parsed<T: Parse>(alloc: Global, buffer: &TokenBuffer) -> Result<T> {
    let mut input = tokens_to_parse_buffer(alloc, buffer, Span::call_site());
    let parsed = input.parse::<T>();
    input.discard();
    parsed
}

/// By `Field::parse_named`.
#[derive(Drop)]
struct Named(Field);

impl Parse for Named {
    fn parse(input: ParseStream<'_, '_>) -> Result<Self> {
        Ok(Named(Field::parse_named(input)?))
    }
}

/// By `Field::parse_unnamed`.
#[derive(Drop)]
struct Unnamed(Field);

impl Parse for Unnamed {
    fn parse(input: ParseStream<'_, '_>) -> Result<Self> {
        Ok(Unnamed(Field::parse_unnamed(input)?))
    }
}

/// By `Meta::parse_nested`.
#[derive(Drop)]
struct Nested(Meta);

impl Parse for Nested {
    fn parse(input: ParseStream<'_, '_>) -> Result<Self> {
        Ok(Nested(Meta::parse_nested(input)?))
    }
}

// Parses a text that has a value.
fn takes<T: Parse + Drop>(alloc: Global, text: &str) -> Outcome {
    let buffer = laid(alloc, text)?;
    ended(parsed::<T>(alloc, &buffer))
}

// Parses a value, and writes it into a stream.
fn copied<T: Parse + ToTokens + Drop>(alloc: Global, text: &str) -> Outcome {
    let buffer = laid(alloc, text)?;
    let value = made(parsed::<T>(alloc, &buffer))?;
    ended(value.to_token_stream(alloc))
}

// Parses a text that has no value.
fn rejects<T: Parse + Drop>(alloc: Global, text: &str, call: &'static str) -> Outcome {
    let buffer = laid(alloc, text)?;
    rejected(parsed::<T>(alloc, &buffer), call)
}

// Parses attributes.
fn outer(alloc: Global) -> Outcome {
    let buffer = laid(alloc, "#[a] #[b = 1] #[c(d)]")?;
    let mut input = tokens_to_parse_buffer(alloc, &buffer, Span::call_site());
    let attributes = Attribute::parse_outer(&mut input);
    input.discard();
    ended(attributes)
}

fn names(input: ParseStream<'_, '_>) -> Result<Punctuated<Ident, token::Comma>> {
    Punctuated::parse_terminated(input)
}

// Parses the arguments of an attribute in each way.
fn arguments(alloc: Global) -> Outcome {
    let buffer = laid(alloc, "#[a(bcdefghijklmnop)]")?;
    let attribute = made(parsed::<Attribute>(alloc, &buffer))?;
    worst(&[
        ended(attribute.parse_args::<Ident>(alloc)),
        ended(attribute.parse_args_with(alloc, names)),
        ended(attribute.parse_nested_meta(alloc)),
        ended(attribute.nested(alloc)),
        of_list(alloc, &attribute.meta),
    ])
}

fn of_list(alloc: Global, meta: &Meta) -> Outcome {
    match meta {
        Meta::List(list) => worst(&[
            ended(list.parse_args::<Ident>(alloc)),
            ended(list.parse_args_with(alloc, names)),
            ended(list.parse_nested_meta(alloc)),
            ended(list.nested(alloc)),
        ]),
        _ => Err(Stop::Wrong("Attribute::parse")),
    }
}

// Parses the arguments of an attribute macro.
fn of_macro(alloc: Global) -> Outcome {
    let tokens = made(lex(alloc, 0, "abcdefghijklmnop, 1"))?;
    ended(NestedMeta::parse_meta_list(alloc, tokens))
}

// Parses the arguments of an attribute that has none.
fn without_arguments(alloc: Global, text: &str) -> Outcome {
    let buffer = laid(alloc, text)?;
    let attribute = made(parsed::<Attribute>(alloc, &buffer))?;
    worst(&[
        rejected(
            attribute.parse_args::<Ident>(alloc),
            "Attribute::parse_args",
        ),
        rejected(
            attribute.parse_args_with(alloc, names),
            "Attribute::parse_args_with",
        ),
        rejected(
            attribute.parse_nested_meta(alloc),
            "Attribute::parse_nested_meta",
        ),
        rejected(attribute.nested(alloc), "Attribute::nested"),
    ])
}

// Returns how a call ends that may make an error.
fn asked<T>(returned: Result<&T>) -> Outcome {
    match returned {
        Ok(_) => Ok(()),
        Err(fault) => told(fault),
    }
}

// Asks for each form of a meta.
fn asks(alloc: Global, text: &str) -> Outcome {
    let buffer = laid(alloc, text)?;
    let meta = made(parsed::<Meta>(alloc, &buffer))?;
    worst(&[
        asked(meta.require_path_only(alloc)),
        asked(meta.require_list(alloc)),
        asked(meta.require_name_value(alloc)),
    ])
}
