//! A parser with a choice in the middle, and a parser of one token whose contract states the
//! position of the error.
ghost use Rattle.std.specs.Prelude.{IfErr};
ghost use Rattle.syn_parse.specs.Faults.{RefusesAt};
ghost use Rattle.syn_parse.specs.State.{state_span};
ghost use Rattle.syn_parse.specs.Takes.{Takes};
ghost use Rattle.syn_parse.specs.Tokens.{take_ident};
ghost use Rattle.example_grammar.specs.Ended.{take_setting};

use syn_parse::{ParseStream, Result};
use tok_core::{Ident, Literal};
use tok_types::token;

/// A name, and optionally a value after `=`.
#[derive(Drop)]
pub struct Setting {
    pub name: Ident,
    pub value: Option<Literal>,
}

/// Parses a setting with a `;` after it: `name;` or `name = value;`.
pub fn read_setting(input: ParseStream<'_, '_>) -> Result<Setting>
    ensures { Takes take_setting input.old result input.new }
{
    let name = input.parse()?;
    if input.peek::<token::Eq>() {
        let _: token::Eq = input.parse()?;
        let value = input.parse()?;
        let _: token::Semi = input.parse()?;
        return Ok(Setting {
            name,
            value: Some(value),
        });
    }
    let _: token::Semi = input.parse()?;
    Ok(Setting { name, value: None })
}

/// Parses a name.
///
/// If no name is next, returns an error at the next token.
#[tactic(auto, unfolding(syn_parse::specs::Reads::Does))]
pub fn read_name(input: ParseStream<'_, '_>) -> Result<Ident>
    ensures takes { Takes take_ident input.old result input.new }
    ensures place { IfErr result (RefusesAt (state_span input.old)) }
{
    input.parse()
}
