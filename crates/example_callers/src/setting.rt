//! Parsers of optional values, which use a peek or an `Option`, and a parser that tries a field on
//! a fork.
ghost use Rattle.std.specs.Prelude.{◌≡◌, OnErr};
ghost use Rattle.syn_parse.specs.Takes.{Takes};
ghost use Rattle.syn_parse.specs.Takings.{taken};
ghost use Rattle.example_callers.specs.Settings.{take_field, take_flag, take_label, take_setting, take_tried};

use syn_parse::laws::scopes_tell;
use syn_parse::{Parse, ParseStream, Result};
use tok_core::{Ident, Literal};
use tok_types::token;

/// A name, and optionally a value after `=`.
#[derive(Drop)]
pub struct Setting {
    pub name: Ident,
    pub value: Option<Literal>,
}

pub fn read_setting(input: ParseStream<'_, '_>) -> Result<Setting>
    ensures { Takes take_setting input.old result input.new }
{
    let name = input.parse()?;
    let value = if input.peek::<token::Eq>() {
        let _: token::Eq = input.parse()?;
        Some(input.parse()?)
    } else {
        None
    };
    Ok(Setting { name, value })
}

/// A name, optionally with a star before it.
#[derive(Drop)]
pub struct Flag {
    pub star: Option<token::Star>,
    pub name: Ident,
}

impl Parse for Flag {
    ghost takes = { taken take_flag };

    fn parse(input: ParseStream<'_, '_>) -> Result<Self> {
        let star = input.parse()?;
        let name = input.parse()?;
        Ok(Flag { star, name })
    }
}

/// A field of the form `name: Kind`.
#[derive(Drop)]
pub struct Field {
    pub name: Ident,
    pub kind: Ident,
}

impl Parse for Field {
    ghost takes = { taken take_field };

    fn parse(input: ParseStream<'_, '_>) -> Result<Self> {
        let name = input.parse()?;
        let _: token::Colon = input.parse()?;
        let kind = input.parse()?;
        Ok(Field { name, kind })
    }
}

/// Parses a label of the form `name:` if the token after the next token is `:`, and returns `None`
/// otherwise.
pub fn read_label(input: ParseStream<'_, '_>) -> Result<Option<Ident>>
    ensures { Takes take_label input.old result input.new }
{
    if input.peek2::<token::Colon>() {
        let name = input.parse()?;
        let _: token::Colon = input.parse()?;
        Ok(Some(name))
    } else {
        Ok(None)
    }
}

/// Parses a field on a fork, and advances the stream to the fork if the parser succeeds.
///
/// If the call returns an error, the stream is unchanged.
pub fn try_field(input: ParseStream<'_, '_>) -> Result<Field>
    ensures takes { Takes take_tried input.old result input.new }
    ensures stays { OnErr result (input.new ≡ input.old) }
{
    scopes_tell();
    let mut fork = input.fork();
    match fork.parse() {
        Ok(field) => {
            input.advance_to(fork);
            Ok(field)
        }
        Err(fault) => {
            fork.discard();
            Err(fault)
        }
    }
}
