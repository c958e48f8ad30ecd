//! A parser of constants such as `const a<T> = 1;` and `const a: Kind;`, with two choices in the
//! middle.
ghost use Rattle.syn_parse.specs.Takings.{taken_as};
ghost use Rattle.example_callers.specs.Constants.{constant_form, head_form, take_constant, take_head};

use either::Either;
use syn_choices::ParseBufferExt;
use syn_parse::{Parse, ParseStream, Result};
use tok_core::{Ident, Literal};
use tok_types::token;

/// A name between `<` and `>`, such as `<T>`.
pub type Generics = (token::Lt, Ident, token::Gt);

/// A value after `=`, such as `= 1`.
pub type Value = (token::Eq, Literal);

/// A kind after a colon, such as `: Kind`.
pub type Kind = (token::Colon, Ident);

/// The name of a constant, and its generics if there are any.
#[derive(Drop)]
pub struct Head {
    pub name: Ident,
    pub generics: Option<Generics>,
}

impl Parse for Head {
    ghost takes = { taken_as head_form take_head };

    #[tactic(auto, unfolding(crate::specs::Constants::take_head))]
    fn parse(input: ParseStream<'_, '_>) -> Result<Self> {
        let _: token::Const = input.parse()?;
        let name = input.parse()?;
        let generics = input.parse_if::<token::Lt, Generics>()?;
        Ok(Head { name, generics })
    }
}

/// A constant, such as `const a<T> = 1;`.
#[derive(Drop)]
pub struct Constant {
    pub head: Head,
    pub body: Either<Value, Kind>,
}

impl Parse for Constant {
    ghost takes = { taken_as constant_form take_constant };

    fn parse(input: ParseStream<'_, '_>) -> Result<Self> {
        let head = input.parse()?;
        let body = input.parse_either::<token::Eq, Value, Kind>()?;
        let _: token::Semi = input.parse()?;
        Ok(Constant { head, body })
    }
}
