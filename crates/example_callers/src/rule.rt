//! A parser of rules such as `rule a: ["x", 1] { b = 2; c = 3; } => 'd (e::f) where g!`. It parses
//! a list, repeated assignments and a path in groups. An optional part is in the middle of the
//! rule.
ghost use Rattle.syn_parse.specs.Takings.{lower, taken_filled, told};
ghost use Rattle.example_callers.specs.Rules.{lowers_assignment, rule_form, take_assignment, take_rule};

use syn_choices::ParseBufferExt;
use syn_parse::laws::parses_go_on;
use syn_parse::{Parse, ParseStream, Result};
use syn_punctuated::Punctuated;
use tok_buffer::Lifetime;
use tok_core::{Delimiter, Ident, Literal};
use tok_types::token;

/// An assignment of the form `name = value;`.
#[derive(Drop)]
pub struct Assignment {
    pub name: Ident,
    pub value: Literal,
}

impl Parse for Assignment {
    ghost takes = { told (λ v. v) take_assignment (lower lowers_assignment) };

    #[tactic(auto, unfolding(crate::specs::Rules::take_assignment))]
    fn parse(input: ParseStream<'_, '_>) -> Result<Self> {
        let name = input.parse()?;
        let _: token::Eq = input.parse()?;
        let value = input.parse()?;
        let _: token::Semi = input.parse()?;
        Ok(Assignment { name, value })
    }
}

/// A rule, such as `rule a: ["x", 1] { b = 2; c = 3; } => 'd (e::f) where g!`.
#[derive(Drop)]
pub struct Rule {
    pub name: Ident,
    pub inputs: Punctuated<Literal, token::Comma>,
    pub assignments: Vec<Assignment>,
    pub lifetime: Lifetime,
    pub owner: Ident,
    pub target: Ident,
    pub guard: Option<(token::Where, Ident)>,
}

impl Parse for Rule {
    ghost takes = { taken_filled rule_form take_rule };

    fn parse(input: ParseStream<'_, '_>) -> Result<Self> {
        parses_go_on();
        input.parse_word("rule")?;
        let name = input.parse()?;
        let _: token::Colon = input.parse()?;
        let (_, inputs) = input.parse_terminated_within(Delimiter::Bracket)?;
        let (_, assignments) = input.parse_within(Delimiter::Brace)?;
        let _: token::FatArrow = input.parse()?;
        let lifetime = input.parse()?;
        let (_, (owner, _, target)) = input.parse_within::<(Ident, token::PathSep, Ident)>(
            Delimiter::Parenthesis,
        )?;
        let guard = input.parse_after()?;
        let _: token::Not = input.parse()?;
        Ok(Rule {
            name,
            inputs,
            assignments,
            lifetime,
            owner,
            target,
            guard,
        })
    }
}
