//! Types whose parsers make the calls that no library type's parser makes.
ghost use Rattle.std.specs.Prelude.{codes};

use syn_parse::{
    Braces, Brackets, Group, IdentExt, LifetimeExt, Parens, Parse, ParseStream, Result,
    parse_braces, parse_brackets, parse_group, parse_parens, parsing,
};
use tok_buffer::Lifetime;
use tok_core::{Delimiter, Ident, Span};

/// By `Ident::parse_any`.
#[derive(Drop)]
pub struct AnyIdent(Ident);

impl Parse for AnyIdent {
    fn parse(input: ParseStream<'_, '_>) -> Result<Self> {
        Ok(AnyIdent(Ident::parse_any(input)?))
    }
}

/// By `Lifetime::parse_any`.
#[derive(Drop)]
pub struct AnyLifetime(Lifetime);

impl Parse for AnyLifetime {
    fn parse(input: ParseStream<'_, '_>) -> Result<Self> {
        Ok(AnyLifetime(Lifetime::parse_any(input)?))
    }
}

/// By `parsing::keyword`.
#[derive(Clone, Copy)]
pub struct Word(Span);

impl Parse for Word {
    fn parse(input: ParseStream<'_, '_>) -> Result<Self> {
        Ok(Word(parsing::keyword(input, "word")?))
    }
}

/// By `parse_word`.
#[derive(Clone, Copy)]
pub struct Target(Span);

impl Parse for Target {
    fn parse(input: ParseStream<'_, '_>) -> Result<Self> {
        Ok(Target(input.parse_word("target")?))
    }
}

/// A keyword with a text that a `Text` does not store in place.
pub struct LongWord;

impl syn_parse::Word for LongWord {
    ghost text = { codes "a_keyword_of_ones_own" };

    fn display() -> &'static str {
        "`a_keyword_of_ones_own`"
    }
}

/// By `parsing::punct`.
#[derive(Clone, Copy)]
pub struct Plus([Span; 1]);

impl Parse for Plus {
    fn parse(input: ParseStream<'_, '_>) -> Result<Self> {
        Ok(Plus(parsing::punct(input, "+")?))
    }
}

/// By `parse_parens`.
#[derive(Clone, Copy)]
pub struct InParens;

impl Parse for InParens {
    fn parse(input: ParseStream<'_, '_>) -> Result<Self> {
        let Parens { token: _, content } = parse_parens(input)?;
        content.discard();
        Ok(InParens)
    }
}

/// By `parse_braces`.
#[derive(Clone, Copy)]
pub struct InBraces;

impl Parse for InBraces {
    fn parse(input: ParseStream<'_, '_>) -> Result<Self> {
        let Braces { token: _, content } = parse_braces(input)?;
        content.discard();
        Ok(InBraces)
    }
}

/// By `parse_brackets`.
#[derive(Clone, Copy)]
pub struct InBrackets;

impl Parse for InBrackets {
    fn parse(input: ParseStream<'_, '_>) -> Result<Self> {
        let Brackets { token: _, content } = parse_brackets(input)?;
        content.discard();
        Ok(InBrackets)
    }
}

/// By `parse_group`.
#[derive(Clone, Copy)]
pub struct InGroup;

impl Parse for InGroup {
    fn parse(input: ParseStream<'_, '_>) -> Result<Self> {
        let Group { token: _, content } = parse_group(input)?;
        content.discard();
        Ok(InGroup)
    }
}

/// By `parse_any_delimiter`.
#[derive(Clone, Copy)]
pub struct InAny;

impl Parse for InAny {
    fn parse(input: ParseStream<'_, '_>) -> Result<Self> {
        let (_, _, content) = input.parse_any_delimiter()?;
        content.discard();
        Ok(InAny)
    }
}

/// By `parse_within`.
#[derive(Drop)]
pub struct Within(Ident);

impl Parse for Within {
    fn parse(input: ParseStream<'_, '_>) -> Result<Self> {
        let (_, name) = input.parse_within::<Ident>(Delimiter::Parenthesis)?;
        Ok(Within(name))
    }
}

/// Rejected by `ParseBuffer::error`.
#[derive(Clone, Copy)]
pub struct Refused;

impl Parse for Refused {
    fn parse(input: ParseStream<'_, '_>) -> Result<Self> {
        Err(input.error("own words"))
    }
}

/// Rejected by `StepCursor::error`.
#[derive(Clone, Copy)]
pub struct StepRefused;

impl Parse for StepRefused {
    fn parse(input: ParseStream<'_, '_>) -> Result<Self> {
        input.step(|from| {
            if from.cursor().eof() {
                Err(from.error("own words"))
            } else {
                Ok((StepRefused, from.cursor()))
            }
        })
    }
}
