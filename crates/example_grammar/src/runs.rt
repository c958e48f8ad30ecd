//! Parsers of repeated values, of a run of trees, of any single tree, and of all remaining trees.
ghost use Rattle.syn_parse.specs.Takings.{lower, taken_as, taken_filled, told};
ghost use Rattle.example_grammar.specs.Runs.{body_form, branch_form, lowers_pointer, macro_form, pointer_form, pointers_form, take_body, take_branch, take_macro, take_pointer, take_pointers, until_braces};

use syn_parse::{Parse, ParseStream, Result, Run};
use tok_buffer::Cursor;
use tok_core::{Delimiter, Ident, TokenStream, TokenTree};
use tok_types::token::{self, Token};

/// A name after any number of stars, such as `**a`.
#[derive(Drop)]
pub struct Pointer {
    pub stars: Vec<token::Star>,
    pub name: Ident,
}

impl Parse for Pointer {
    ghost takes = { told pointer_form take_pointer (lower lowers_pointer) };

    fn parse(input: ParseStream<'_, '_>) -> Result<Self> {
        let stars = input.parse_while::<token::Star, token::Star>()?;
        let name = input.parse()?;
        Ok(Pointer { stars, name })
    }
}

/// A list of pointers up to the end of the stream, such as `a *b **c`.
#[derive(Drop)]
pub struct Pointers {
    pub list: Vec<Pointer>,
}

impl Parse for Pointers {
    ghost takes = { taken_filled pointers_form take_pointers };

    fn parse(input: ParseStream<'_, '_>) -> Result<Self> {
        let list = input.parse_until_end()?;
        Ok(Pointers { list })
    }
}

/// All remaining token trees of a stream.
#[derive(Drop)]
pub struct Body {
    pub tokens: TokenStream,
}

impl Parse for Body {
    ghost takes = { taken_as body_form take_body };

    fn parse(input: ParseStream<'_, '_>) -> Result<Self> {
        let tokens = input.rest()?;
        Ok(Body { tokens })
    }
}

/// A run of trees that ends before a group in braces.
#[derive(Clone, Copy)]
pub struct UntilBraces;

impl Run for UntilBraces {
    ghost passes = { until_braces };

    fn pass(self, cursor: Cursor<'_>) -> Option<Self> {
        if token::Brace::peek(cursor) {
            None
        } else {
            Some(self)
        }
    }
}

/// A branch of the form `if condition { body }`. The condition may contain any trees except groups
/// in braces.
#[derive(Drop)]
pub struct Branch {
    pub condition: TokenStream,
    pub body: Body,
}

impl Parse for Branch {
    ghost takes = { taken_filled branch_form take_branch };

    fn parse(input: ParseStream<'_, '_>) -> Result<Self> {
        let _: token::If = input.parse()?;
        let condition = input.parse_run(UntilBraces)?;
        let (_, body) = input.parse_within(Delimiter::Brace)?;
        Ok(Branch { condition, body })
    }
}

/// A macro call of the form `name! tree`, with any single token tree after the `!`.
#[derive(Drop)]
pub struct MacroCall {
    pub name: Ident,
    pub arguments: TokenTree,
}

impl Parse for MacroCall {
    ghost takes = { taken_as macro_form take_macro };

    fn parse(input: ParseStream<'_, '_>) -> Result<Self> {
        let name = input.parse()?;
        let _: token::Not = input.parse()?;
        let arguments = input.visible_tree()?;
        Ok(MacroCall { name, arguments })
    }
}
