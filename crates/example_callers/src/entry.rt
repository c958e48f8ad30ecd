//! Types whose contracts state from which tokens they are parsed, and functions that parse these
//! types.
ghost use Rattle.std.specs.Prelude.{◌≡◌, true};
ghost use Rattle.std.specs.Str.{chars};
ghost use Rattle.tok_leaves.specs.Spans.{call_site};
ghost use Rattle.tok_core.specs.Erase.{erase};
ghost use Rattle.tok_core.specs.Filled.{filled};
ghost use Rattle.syn_parse.specs.Sources.{KeepsTextOf};
ghost use Rattle.syn_parse.specs.Takes.{Agree, ErrorsAgree, Takes, TakesAll};
ghost use Rattle.syn_parse.specs.Tokens.{take_ident};
ghost use Rattle.syn_parse.specs.Takings.{taken};
ghost use Rattle.syn_parse.specs.TreesAhead.{whole};
ghost use Rattle.example_callers.specs.Entries.{take_call, take_entry, take_mark, take_pair};

use std::alloc::Global;
use syn_parse::{Parse, ParseStream, Result, bracketed, parse_both, parse_text, parse2};
use tok_core::{Delimiter, Ident, Literal, TokenStream};
use tok_types::token;

/// A pair of the form `name , value`.
#[derive(Drop)]
pub struct Pair {
    pub name: Ident,
    pub value: Literal,
}

impl Parse for Pair {
    ghost takes = { taken take_pair };

    fn parse(input: ParseStream<'_, '_>) -> Result<Self> {
        let name = input.parse()?;
        let _: token::Comma = input.parse()?;
        let value = input.parse()?;
        Ok(Pair { name, value })
    }
}

/// An entry of the form `name , value , (tail)`.
#[derive(Drop)]
pub struct Entry {
    pub name: Ident,
    pub value: Literal,
    pub tail: Ident,
}

impl Parse for Entry {
    ghost takes = { taken take_entry };

    fn parse(input: ParseStream<'_, '_>) -> Result<Self> {
        let name = input.parse()?;
        let _: token::Comma = input.parse()?;
        let value = input.parse()?;
        let _: token::Comma = input.parse()?;
        let (_, tail) = input.within(
            Delimiter::Parenthesis,
            |content|
                ensures { Takes take_ident content.old result content.new }
            { content.parse::<Ident>() },
        )?;
        Ok(Entry { name, value, tail })
    }
}

/// A name with a value in parentheses after it: `name (value)`.
#[derive(Drop)]
pub struct Call {
    pub name: Ident,
    pub value: Literal,
}

impl Parse for Call {
    ghost takes = { taken take_call };

    fn parse(input: ParseStream<'_, '_>) -> Result<Self> {
        let name = input.parse()?;
        let (_, value) = input.parse_within(Delimiter::Parenthesis)?;
        Ok(Call { name, value })
    }
}

/// A name with a value in brackets after it: `name [value]`. The parser enters the brackets with a
/// macro.
#[derive(Drop)]
pub struct Mark {
    pub name: Ident,
    pub value: Literal,
}

impl Parse for Mark {
    ghost takes = { taken take_mark };

    #[tactic(auto, unfolding(syn_parse::specs::Takes::take_group))]
    fn parse(input: ParseStream<'_, '_>) -> Result<Self> {
        let name = input.parse()?;
        let mut content;
        let _ = bracketed!(content in input);
        let value = content.parse::<Literal>();
        input.close(content);
        Ok(Mark {
            name,
            value: value?,
        })
    }
}

/// Parses all tokens of a stream as an entry.
pub fn parse_entry(alloc: Global, tokens: TokenStream) -> Result<Entry>
    ensures { TakesAll (λ v. v) take_entry tokens call_site result }
{
    parse2(alloc, tokens)
}

/// Parses `text`, which has the source number `number`, as an entry.
///
/// An error at the end of the text is located after the last token.
pub fn parse_entry_text(alloc: Global, number: u32, text: &str) -> Result<Entry>
    ensures { KeepsTextOf number (taken take_entry) (chars text.now) result }
{
    parse_text(alloc, number, text)
}

/// Parses two streams, `left` and `right`, as entries.
///
/// If the streams differ only in their invisible groups, then either both results are the same
/// entry, or both are errors, unless an allocation fails.
pub fn parse_entry_both(
    alloc: Global,
    left: TokenStream,
    right: TokenStream,
) -> (Result<Entry>, Result<Entry>)
    ensures agree { erase left ≡ erase right → Agree (λ v. v) result.0 result.1 }
    ensures words { erase left ≡ erase right → filled left ≡ true → filled right ≡ true
        → ErrorsAgree (take_entry (whole left)) result.0 result.1 }
{
    parse_both(alloc, left, right)
}
