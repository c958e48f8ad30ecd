//! A parser of types whose arguments between `<` and `>` are also types. The parser is recursive,
//! although `<` and `>` are not the delimiters of a group.
ghost use Rattle.syn_parse.specs.Takings.{Keeps};
ghost use Rattle.example_grammar.specs.NamedTypes.{arguments, lists, types};

use syn_parse::laws::parses_go_on;
use syn_parse::{Parse, ParseStream, Result};
use syn_punctuated::Punctuated;
use tok_core::Ident;
use tok_types::token;

/// A name with or without arguments, such as `Map<Key, List<Item>>`.
#[derive(Drop)]
pub enum NamedType {
    Plain(Ident),
    Generic(Ident, token::Lt, Punctuated<NamedType, token::Comma>, token::Gt),
}

impl Parse for NamedType {
    ghost takes = { types };

    fn parse(input: ParseStream<'_, '_>) -> Result<Self> {
        read_type(input)
    }
}

#[cycle(types)]
#[tactic(auto, using(crate::proofs::NamedTypes::all))]
fn read_type(input: ParseStream<'_, '_>) -> Result<NamedType>
    ensures { Keeps types input.old result input.new }
{
    parses_go_on();
    let name = input.parse()?;
    if input.peek::<token::Lt>() {
        let (left, arguments, right) = read_arguments(input)?;
        Ok(NamedType::Generic(name, left, arguments, right))
    } else {
        Ok(NamedType::Plain(name))
    }
}

// Reads types between `<` and `>`.
#[cycle(types)]
#[tactic(auto, unfolding(crate::specs::NamedTypes::take_arguments))]
fn read_arguments(
    input: ParseStream<'_, '_>,
) -> Result<(token::Lt, Punctuated<NamedType, token::Comma>, token::Gt)>
    ensures { Keeps arguments input.old result input.new }
{
    let left = input.parse()?;
    let list = read_types(input)?;
    let right = input.parse()?;
    Ok((left, list, right))
}

// Reads types with commas between them, at least one.
#[cycle(types)]
fn read_types(input: ParseStream<'_, '_>) -> Result<Punctuated<NamedType, token::Comma>>
    ensures { Keeps lists input.old result input.new }
{
    parses_go_on();
    Punctuated::parse_separated_nonempty_with(input, read_type)
}
