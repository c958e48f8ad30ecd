//! A parser of limits such as `limit "cpu" = 4`, which uses a word and literals of one kind.
ghost use Rattle.syn_parse.specs.Takings.{taken};
ghost use Rattle.example_grammar.specs.Limits.{take_limit};

use syn_literals::{LitInt, LitStr};
use syn_parse::{Parse, ParseStream, Result};
use tok_types::token;

/// A limit on a resource that a string names.
#[derive(Drop)]
pub struct Limit {
    pub name: LitStr,
    pub most: LitInt,
}

impl Parse for Limit {
    ghost takes = { taken take_limit };

    fn parse(input: ParseStream<'_, '_>) -> Result<Self> {
        input.parse_word("limit")?;
        let name = input.parse()?;
        let _: token::Eq = input.parse()?;
        let most = input.parse()?;
        Ok(Limit { name, most })
    }
}
