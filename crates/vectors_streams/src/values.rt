//! Values of whole texts and sources.
use std::alloc::Global;
use syn_parse::{
    IdentExt, Nothing, Parse, ParseStream, Parser, Result, parse_source, parse_text, parsing,
};
use test_outcomes::read;
use tok_buffer::Lifetime;
use tok_core::{Edition, Ident, Literal, Punct, Span, TokenStream, TokenTree};
use tok_types::token;

// The number of the texts that `parse_text` reads.
const SOURCE: u32 = 1;

/// Parses a text by the parser of this name, if there is one here.
pub fn parsed(alloc: Global, parser: &str, text: &str) -> Option<Result<String>> {
    let returned = match parser {
        "Ident" => ident(alloc, text),
        "Lifetime" => read::<Lifetime>.parse_str(alloc, text),
        "Literal" => read::<Literal>.parse_str(alloc, text),
        "Punct" => read::<Punct>.parse_str(alloc, text),
        "Nothing" => read::<Nothing>.parse_str(alloc, text),
        "Fn" => read::<token::Fn>.parse_str(alloc, text),
        "PlusEq" => read::<token::PlusEq>.parse_str(alloc, text),
        "Underscore" => read::<token::Underscore>.parse_str(alloc, text),
        "RArrow" => read::<token::RArrow>.parse_str(alloc, text),
        "Comma" => read::<token::Comma>.parse_str(alloc, text),
        "NoKeyword" => read::<token::Keyword<1000>>.parse_str(alloc, text),
        "NoPunctuation" => read::<token::Punctuation<7, 2>>.parse_str(alloc, text),
        "AnyIdent" => any_ident.parse_str(alloc, text),
        "TwoSpans" => two_spans.parse_str(alloc, text),
        "AfterName" => after_name.parse_str(alloc, text),
        "TextLiteral" => text_literal(alloc, text),
        "TextLiteralAfterTree" => literal_after_tree.parse_text(alloc, SOURCE, text),
        "SourceLiteral" => source_literal(alloc, Edition::default(), text),
        "SourceLiteral2018" => literal_text.parse_source(alloc, Edition::Edition2018, text),
        _ => return None,
    };
    Some(returned)
}

fn ident(alloc: Global, text: &str) -> Result<String> {
    let ident = Ident::parse.parse_str(alloc, text)?;
    Ok(format!(in alloc; "{}", ident.as_str())?)
}

fn any_ident(input: ParseStream<'_, '_>) -> Result<String> {
    let ident = Ident::parse_any(input)?;
    Ok(format!(in input.allocator(); "{}", ident.as_str())?)
}

fn literal_text(input: ParseStream<'_, '_>) -> Result<String> {
    let literal: Literal = input.parse()?;
    Ok(format!(in input.allocator(); "{}", literal.as_str())?)
}

fn text_literal(alloc: Global, text: &str) -> Result<String> {
    let literal: Literal = parse_text(alloc, SOURCE, text)?;
    Ok(format!(in alloc; "{}", literal.as_str())?)
}

fn literal_after_tree(input: ParseStream<'_, '_>) -> Result<String> {
    let _: TokenTree = input.parse()?;
    literal_text(input)
}

fn source_literal(alloc: Global, edition: Edition, text: &str) -> Result<String> {
    let literal: Literal = parse_source(alloc, edition, text)?;
    Ok(format!(in alloc; "{}", literal.as_str())?)
}

// Parses two spans of one character.
fn two_spans(input: ParseStream<'_, '_>) -> Result<String> {
    let _: [Span; 2] = parsing::punct(input, ",")?;
    Ok(String::new(input.allocator()))
}

// Returns the text of the stream after one identifier.
fn after_name(input: ParseStream<'_, '_>) -> Result<String> {
    let _: Ident = input.parse()?;
    let text = format!(in input.allocator(); "{input}")?;
    let _: TokenStream = input.parse()?;
    Ok(text)
}
