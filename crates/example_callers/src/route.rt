//! A parser of routes such as `get "/users" -> users::list (page, size);`.
ghost use Rattle.syn_parse.specs.Takings.{taken_filled};
ghost use Rattle.example_callers.specs.Routes.{names_form, route_form, take_names, take_route, take_target, target_form};

use crate::records::Path;
use syn_parse::laws::parses_go_on;
use syn_parse::{Parse, ParseStream, Result};
use syn_punctuated::Punctuated;
use tok_core::{Delimiter, Ident, Literal};
use tok_types::token;

/// A list of names with commas between them, and an optional comma after the last name.
#[derive(Drop)]
pub struct Names {
    pub list: Punctuated<Ident, token::Comma>,
}

impl Parse for Names {
    ghost takes = { taken_filled names_form take_names };

    fn parse(input: ParseStream<'_, '_>) -> Result<Self> {
        parses_go_on();
        let list = Punctuated::parse_terminated(input)?;
        Ok(Names { list })
    }
}

/// A path with arguments after it, such as `users::list (page, size);`.
#[derive(Drop)]
pub struct Target {
    pub path: Path,
    pub arguments: Names,
}

impl Parse for Target {
    ghost takes = { taken_filled target_form take_target };

    #[tactic(auto, unfolding(crate::specs::Routes::take_target))]
    fn parse(input: ParseStream<'_, '_>) -> Result<Self> {
        let path = input.parse()?;
        let (_, arguments) = input.parse_within(Delimiter::Parenthesis)?;
        let _: token::Semi = input.parse()?;
        Ok(Target { path, arguments })
    }
}

/// A route, which consists of a method, a pattern and a target.
#[derive(Drop)]
pub struct Route {
    pub method: Ident,
    pub pattern: Literal,
    pub target: Target,
}

impl Parse for Route {
    ghost takes = { taken_filled route_form take_route };

    fn parse(input: ParseStream<'_, '_>) -> Result<Self> {
        let method = input.parse()?;
        let pattern = input.parse()?;
        let _: token::RArrow = input.parse()?;
        let target = input.parse()?;
        Ok(Route {
            method,
            pattern,
            target,
        })
    }
}
