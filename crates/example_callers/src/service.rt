//! A parser of services such as `service api (owner: Team) as web { options } -> target;`, with two
//! groups in the middle.
ghost use Rattle.std.specs.Prelude.{codes};
ghost use Rattle.syn_parse.specs.Takings.{taken, taken_filled};
ghost use Rattle.example_callers.specs.Services.{take_owner, take_service};

use syn_parse::{Own, Parse, ParseStream, Result, Word};
use tok_core::{Delimiter, Ident};
use tok_types::token;

/// The word `service`, for the token type `Own<ServiceWord>`.
pub struct ServiceWord;

impl Word for ServiceWord {
    ghost text = { codes "service" };

    fn display() -> &'static str {
        "`service`"
    }
}

/// The keyword `service`, which begins a service.
pub type ServiceKeyword = Own<ServiceWord>;

/// An owner and the kind of the owner, such as `owner: Team`.
#[derive(Drop)]
pub struct Owner {
    pub name: Ident,
    pub kind: Ident,
}

impl Parse for Owner {
    ghost takes = { taken take_owner };

    #[tactic(auto, unfolding(crate::specs::Services::take_owner))]
    fn parse(input: ParseStream<'_, '_>) -> Result<Self> {
        let name = input.parse()?;
        let _: token::Colon = input.parse()?;
        let kind = input.parse()?;
        Ok(Owner { name, kind })
    }
}

/// The names in a service such as `service api (owner: Team) as web { options } -> target;`.
#[derive(Drop)]
pub struct Service {
    pub name: Ident,
    pub owner: Owner,
    pub alias: Ident,
    pub options: Ident,
    pub target: Ident,
}

impl Parse for Service {
    ghost takes = { taken_filled (λ service. service) take_service };

    fn parse(input: ParseStream<'_, '_>) -> Result<Self> {
        let _: ServiceKeyword = input.parse()?;
        let name = input.parse()?;
        let (_, owner) = input.parse_within(Delimiter::Parenthesis)?;
        let _: token::As = input.parse()?;
        let alias = input.parse()?;
        let (_, options) = input.parse_within(Delimiter::Brace)?;
        let _: token::RArrow = input.parse()?;
        let target = input.parse()?;
        let _: token::Semi = input.parse()?;
        Ok(Service {
            name,
            owner,
            alias,
            options,
            target,
        })
    }
}
