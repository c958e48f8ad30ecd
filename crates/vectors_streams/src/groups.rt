//! Groups, leftovers and lookahead.
use std::alloc::Global;
use syn_parse::{ParseStream, Parser, Result, braced, bracketed, parenthesized};
use tok_buffer::Lifetime;
use tok_core::{Delimiter, Ident};
use tok_types::{End, token};

/// Parses a text by the parser of this name, if there is one here.
pub fn parsed(alloc: Global, parser: &str, text: &str) -> Option<Result<String>> {
    let returned = match parser {
        "OneInside" => one_inside.parse_str(alloc, text),
        "OwnWordsInside" => own_words_inside.parse_str(alloc, text),
        "ByMacro" => name_by_macro.parse_str(alloc, text),
        "Braced" => braced_name.parse_str(alloc, text),
        "Bracketed" => bracketed_name.parse_str(alloc, text),
        "OneOfThree" => one_of_three.parse_str(alloc, text),
        "CommaOrEndInside" => comma_or_end_inside.parse_str(alloc, text),
        "OnlyEnd" => only_end.parse_str(alloc, text),
        _ => return None,
    };
    Some(returned)
}

fn one_inside(input: ParseStream<'_, '_>) -> Result<String> {
    let (_, name) = input.within(Delimiter::Parenthesis, |content| content.parse::<Ident>())?;
    Ok(format!(in input.allocator(); "{}", name.as_str())?)
}

fn own_words(input: ParseStream<'_, '_>) -> Result<()> {
    let _: Ident = input.parse()?;
    Err(input.error("own words"))
}

fn own_words_inside(input: ParseStream<'_, '_>) -> Result<String> {
    let _ = input.within(Delimiter::Parenthesis, |content| own_words(content))?;
    Ok(String::new(input.allocator()))
}

fn by_macro(input: ParseStream<'_, '_>) -> Result<Ident> {
    let mut content;
    let _ = parenthesized!(content in input);
    let name = content.parse();
    input.close(content);
    name
}

fn braced_name(input: ParseStream<'_, '_>) -> Result<String> {
    let mut content;
    let _: token::Brace = braced!(content in input);
    let name = content.parse::<Ident>();
    input.close(content);
    Ok(format!(in input.allocator(); "{}", name?.as_str())?)
}

fn bracketed_name(input: ParseStream<'_, '_>) -> Result<String> {
    let mut content;
    let _: token::Bracket = bracketed!(content in input);
    let name = content.parse::<Ident>();
    input.close(content);
    Ok(format!(in input.allocator(); "{}", name?.as_str())?)
}

fn name_by_macro(input: ParseStream<'_, '_>) -> Result<String> {
    let name = by_macro(input)?;
    Ok(format!(in input.allocator(); "{}", name.as_str())?)
}

fn one_of_three(input: ParseStream<'_, '_>) -> Result<String> {
    let mut lookahead = input.lookahead1();
    if lookahead.peek::<Ident>()?
        || lookahead.peek::<Lifetime>()?
        || lookahead.peek::<token::Const>()?
    {
        return Ok(String::new(input.allocator()));
    }
    Err(lookahead.error())
}

fn comma_or_end(input: ParseStream<'_, '_>) -> Result<()> {
    let mut lookahead = input.lookahead1();
    if lookahead.peek::<token::Comma>()? || lookahead.peek::<End>()? {
        return Ok(());
    }
    Err(lookahead.error())
}

fn comma_or_end_inside(input: ParseStream<'_, '_>) -> Result<String> {
    let _ = input.within(Delimiter::Bracket, |content| comma_or_end(content))?;
    Ok(String::new(input.allocator()))
}

fn only_end(input: ParseStream<'_, '_>) -> Result<String> {
    let mut lookahead = input.lookahead1();
    if lookahead.peek::<End>()? {
        return Ok(String::new(input.allocator()));
    }
    Err(lookahead.error())
}
