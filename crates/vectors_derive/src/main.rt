//! Parses texts by the types that its lines name, and prints the values as they are written, or the
//! errors.
//!
//! A line of the input is `TYPE TEXT`, where `«` and `»` in the text mark an invisible group. A line
//! that begins with `#` is printed as it stands.
#![tactic(auto)]

use anyhow::Result;
use std::alloc::Global;
use syn_derive::{
    Attribute, Data, DeriveInput, Expr, Fields, Generics, Meta, MetaList, MetaNameValue,
    NestedMeta, Path, Type, Visibility, WhereClause,
};
use syn_parse::{ParseStream, Parser, parse2};
use syn_punctuated::Punctuated;
use test_outcomes::lines::print_answers;
use test_outcomes::said;
use tok_core::{Ident, Literal, ToTokens, TokenStream, lex_marked};
use tok_types::token;

fn main(rt: HostRuntime) -> Result<()> {
    print_answers(&rt, answer_to)
}

// Returns what is printed for a line, or `None` if it is no case or an allocation fails.
fn answer_to(alloc: Global, line: &str) -> Option<String> {
    let (name, text) = line.split_once(' ').unwrap_or((line, ""));
    let tokens = lex_marked(alloc, 0, text).ok()?;
    said(alloc, parsed(alloc, name, tokens)?)
}

// Parses tokens by the type of this name.
fn parsed(alloc: Global, name: &str, tokens: TokenStream) -> Option<syn_parse::Result<String>> {
    let returned = match name {
        "Path" => path.parse2(alloc, tokens),
        "Meta" => meta.parse2(alloc, tokens),
        "MetaList" => meta_list.parse2(alloc, tokens),
        "MetaNameValue" => meta_name_value.parse2(alloc, tokens),
        "Attribute" => attribute.parse2(alloc, tokens),
        "Attributes" => attributes.parse2(alloc, tokens),
        "PathOnly" => path_only.parse2(alloc, tokens),
        "List" => list.parse2(alloc, tokens),
        "NameValue" => name_value.parse2(alloc, tokens),
        "Argument" => argument.parse2(alloc, tokens),
        "Literals" => literals.parse2(alloc, tokens),
        "Expressions" => expressions.parse2(alloc, tokens),
        "Nested" => nested.parse2(alloc, tokens),
        "Items" => items.parse2(alloc, tokens),
        "ItemsOfList" => items_of_list.parse2(alloc, tokens),
        "Item" => one_item.parse2(alloc, tokens),
        "MacroItems" => macro_items(alloc, tokens),
        "Visibility" => visibility.parse2(alloc, tokens),
        "Type" => ty.parse2(alloc, tokens),
        "Expr" => expr.parse2(alloc, tokens),
        "Generics" => generics.parse2(alloc, tokens),
        "WhereClause" => where_clause.parse2(alloc, tokens),
        "DeriveInput" => input.parse2(alloc, tokens),
        "Written" => written_input.parse2(alloc, tokens),
        _ => return None,
    };
    Some(returned)
}

// Returns a word, and a value as it is written.
fn written<T: ToTokens>(alloc: Global, word: &str, value: &T) -> syn_parse::Result<String> {
    let tokens = value.to_token_stream(alloc)?;
    Ok(format!(in alloc; "{word}: {tokens}")?)
}

fn path(input: ParseStream<'_, '_>) -> syn_parse::Result<String> {
    let path: Path = input.parse()?;
    let word = match path.get_ident() {
        Some(_) => "name",
        None => "path",
    };
    written(input.allocator(), word, &path)
}

fn meta_word(meta: &Meta) -> &'static str {
    match meta {
        Meta::Path(_) => "path",
        Meta::List(_) => "list",
        Meta::NameValue(_) => "value",
    }
}

fn meta(input: ParseStream<'_, '_>) -> syn_parse::Result<String> {
    let meta: Meta = input.parse()?;
    written(input.allocator(), meta_word(&meta), &meta)
}

fn meta_list(input: ParseStream<'_, '_>) -> syn_parse::Result<String> {
    let list: MetaList = input.parse()?;
    written(input.allocator(), "list", &list)
}

fn meta_name_value(input: ParseStream<'_, '_>) -> syn_parse::Result<String> {
    let pair: MetaNameValue = input.parse()?;
    written(input.allocator(), "value", &pair)
}

fn attribute(input: ParseStream<'_, '_>) -> syn_parse::Result<String> {
    let attribute: Attribute = input.parse()?;
    written(input.allocator(), meta_word(&attribute.meta), &attribute)
}

// Returns attributes before a name.
fn attributes(input: ParseStream<'_, '_>) -> syn_parse::Result<String> {
    let alloc = input.allocator();
    let attributes = Attribute::parse_outer(input)?;
    let _: Ident = input.parse()?;
    let mut text = format!(in alloc; "{} read", attributes.len())?;
    for attribute in &attributes {
        text.push_str(" ")?;
        text.push_str(written(alloc, meta_word(&attribute.meta), attribute)?.as_str())?;
    }
    Ok(text)
}

fn path_only(input: ParseStream<'_, '_>) -> syn_parse::Result<String> {
    let alloc = input.allocator();
    let meta: Meta = input.parse()?;
    written(alloc, "path", meta.require_path_only(alloc)?)
}

fn list(input: ParseStream<'_, '_>) -> syn_parse::Result<String> {
    let alloc = input.allocator();
    let meta: Meta = input.parse()?;
    written(alloc, "list", meta.require_list(alloc)?)
}

fn name_value(input: ParseStream<'_, '_>) -> syn_parse::Result<String> {
    let alloc = input.allocator();
    let meta: Meta = input.parse()?;
    written(alloc, "value", meta.require_name_value(alloc)?)
}

// Returns the identifier that is an attribute's argument.
fn argument(input: ParseStream<'_, '_>) -> syn_parse::Result<String> {
    let alloc = input.allocator();
    let attribute: Attribute = input.parse()?;
    let argument: Ident = attribute.parse_args(alloc)?;
    written(alloc, "argument", &argument)
}

// Returns the literals that are an attribute's arguments.
fn literals(input: ParseStream<'_, '_>) -> syn_parse::Result<String> {
    let alloc = input.allocator();
    let attribute: Attribute = input.parse()?;
    let literals: Punctuated<Literal, token::Comma> = attribute.parse_args_with(
        alloc,
        Punctuated::parse_terminated,
    )?;
    written(alloc, "literals", &literals)
}

// Returns the expressions that are an attribute's arguments.
fn expressions(input: ParseStream<'_, '_>) -> syn_parse::Result<String> {
    let alloc = input.allocator();
    let attribute: Attribute = input.parse()?;
    let expressions: Punctuated<Expr, token::Comma> = attribute.parse_args_with(
        alloc,
        Punctuated::parse_terminated,
    )?;
    written(alloc, "expressions", &expressions)
}

// Returns the metas that are an attribute's arguments.
fn nested(input: ParseStream<'_, '_>) -> syn_parse::Result<String> {
    let alloc = input.allocator();
    let attribute: Attribute = input.parse()?;
    let metas = attribute.parse_nested_meta(alloc)?;
    let mut text = format!(in alloc; "{} read", metas.len())?;
    for meta in metas.iter() {
        text.push_str(" ")?;
        text.push_str(written(alloc, meta_word(meta), meta)?.as_str())?;
    }
    Ok(text)
}

// Returns a literal, or a meta.
fn item(alloc: Global, item: &NestedMeta) -> syn_parse::Result<String> {
    let word = match item {
        NestedMeta::Lit(_) => "literal",
        NestedMeta::Meta(meta) => meta_word(meta),
    };
    written(alloc, word, item)
}

// Returns literals and metas.
fn of_items(
    alloc: Global,
    read: &Punctuated<NestedMeta, token::Comma>,
) -> syn_parse::Result<String> {
    let mut text = format!(in alloc; "{} read", read.len())?;
    for each in read.iter() {
        text.push_str(" ")?;
        text.push_str(item(alloc, each)?.as_str())?;
    }
    Ok(text)
}

// Returns the literals and metas that are an attribute's arguments.
fn items(input: ParseStream<'_, '_>) -> syn_parse::Result<String> {
    let alloc = input.allocator();
    let attribute: Attribute = input.parse()?;
    of_items(alloc, &attribute.nested(alloc)?)
}

// Returns the literals and metas that are the contents of a meta's delimiters.
fn items_of_list(input: ParseStream<'_, '_>) -> syn_parse::Result<String> {
    let alloc = input.allocator();
    let meta: Meta = input.parse()?;
    of_items(alloc, &meta.require_list(alloc)?.nested(alloc)?)
}

// Returns one literal or meta.
fn one_item(input: ParseStream<'_, '_>) -> syn_parse::Result<String> {
    item(input.allocator(), &input.parse()?)
}

// Returns the literals and metas that are the arguments of an attribute macro.
fn macro_items(alloc: Global, tokens: TokenStream) -> syn_parse::Result<String> {
    of_items(alloc, &NestedMeta::parse_meta_list(alloc, tokens)?)
}

// Returns a visibility, and all after it.
fn visibility(input: ParseStream<'_, '_>) -> syn_parse::Result<String> {
    let alloc = input.allocator();
    let visibility: Visibility = input.parse()?;
    let rest = input.rest()?;
    let word = match &visibility {
        Visibility::Public(_) => "public",
        Visibility::Restricted(_) => "restricted",
        Visibility::Inherited => "inherited",
    };
    let text = written(alloc, word, &visibility)?;
    Ok(format!(in alloc; "{text}, then: {rest}")?)
}

// Returns a type, and all after it.
fn ty(input: ParseStream<'_, '_>) -> syn_parse::Result<String> {
    let ty: Type = input.parse()?;
    let rest = input.rest()?;
    Ok(format!(in input.allocator(); "type: {}, then: {rest}", ty.tokens)?)
}

fn expr(input: ParseStream<'_, '_>) -> syn_parse::Result<String> {
    let expr: Expr = input.parse()?;
    let rest = input.rest()?;
    Ok(format!(in input.allocator(); "expression: {}, then: {rest}", expr.tokens)?)
}

fn generics(input: ParseStream<'_, '_>) -> syn_parse::Result<String> {
    let generics: Generics = input.parse()?;
    let rest = input.rest()?;
    Ok(format!(in input.allocator(); "parameters: {}, then: {rest}", generics.params)?)
}

fn count(fields: &Fields) -> usize {
    match fields {
        Fields::Named(fields) => fields.named.len(),
        Fields::Unnamed(fields) => fields.unnamed.len(),
        Fields::Unit => 0,
    }
}

fn where_clause(input: ParseStream<'_, '_>) -> syn_parse::Result<String> {
    let clause: WhereClause = input.parse()?;
    written(input.allocator(), "predicates", &clause)
}

// Returns an item's tokens, and other ones after them if these are read as an item that has those.
fn again(alloc: Global, read: &DeriveInput) -> syn_parse::Result<String> {
    let tokens = read.to_token_stream(alloc)?;
    let first = format!(in alloc; "{tokens}")?;
    let read: DeriveInput = parse2(alloc, tokens)?;
    let tokens = read.to_token_stream(alloc)?;
    let second = format!(in alloc; "{tokens}")?;
    if first.as_str() == second.as_str() {
        Ok(first)
    } else {
        Ok(format!(in alloc; "{first}, and then: {second}")?)
    }
}

fn written_input(input: ParseStream<'_, '_>) -> syn_parse::Result<String> {
    let alloc = input.allocator();
    let read: DeriveInput = input.parse()?;
    again(alloc, &read)
}

fn input(input: ParseStream<'_, '_>) -> syn_parse::Result<String> {
    let alloc = input.allocator();
    let read: DeriveInput = input.parse()?;
    let written = again(alloc, &read)?;
    if written.contains(", and then: ") {
        return Ok(written);
    }
    let (word, count) = match &read.data {
        Data::Struct(data) => ("struct", count(&data.fields)),
        Data::Enum(data) => ("enum", data.variants.len()),
        Data::Union(data) => ("union", data.fields.named.len()),
    };
    Ok(format!(in alloc;
        "{word} {}<{}>: {count}",
        read.ident.as_str(),
        read.generics.params
    )?)
}
