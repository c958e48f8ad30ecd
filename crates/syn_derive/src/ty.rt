//! Types and expressions, as tokens.
ghost use Rattle.tok_core.specs.Erase.{erase};
ghost use Rattle.syn_parse.specs.Takings.{lighter, told};
ghost use Rattle.syn_derive.specs.Runs.{PassesTokens, lightens_expr, lightens_type, take_expr, take_type};

use crate::run::{Until, parse_until};
use std::alloc::AllocError;
use syn_parse::{Parse, ParseStream, Result};
use tok_core::{ToTokens, TokenStream};

/// A type, which is represented as tokens.
///
/// A type has at least one token. It ends before a `,`, `;`, `=` or `>`, before a single `:`, or
/// before braces that come after an operand, such as a name.
///
/// Inside `<..>`, the type continues up to the `>`. If the `>` is missing, the parser returns an
/// error that says so.
///
/// An invisible group that lies entirely in the type is kept.
#[derive(Drop)]
pub struct Type {
    pub tokens: TokenStream,
}

/// An expression, which is represented as tokens.
///
/// An expression has at least one token. It ends before a `,` or `;` outside of `<..>`.
///
/// If a `<` is next where a value is expected, for example after an operator or `::`, then this `<`
/// must have a matching `>`. If the `>` is missing, the parser returns an error that says so. After
/// a value, a `<` is an operator.
///
/// An invisible group that lies entirely in the expression is kept.
#[derive(Drop)]
pub struct Expr {
    pub tokens: TokenStream,
}

impl Parse for Type {
    ghost parses = { PassesTokens (λ t. t.tokens) };

    ghost takes = { told (λ t. erase t.tokens) take_type (lighter lightens_type) };

    #[tactic(auto, unfolding(crate::specs::Runs::take_type))]
    fn parse(input: ParseStream<'_, '_>) -> Result<Self> {
        if Until::Ty.begins(input.cursor()) {
            let tokens = parse_until(input, Until::Ty)?;
            Ok(Type { tokens })
        } else {
            Err(input.error("expected type"))
        }
    }
}

impl Parse for Expr {
    ghost parses = { PassesTokens (λ e. e.tokens) };

    ghost takes = { told (λ e. erase e.tokens) take_expr (lighter lightens_expr) };

    #[tactic(auto, unfolding(crate::specs::Runs::take_expr))]
    fn parse(input: ParseStream<'_, '_>) -> Result<Self> {
        if Until::Expr.begins(input.cursor()) {
            let tokens = parse_until(input, Until::Expr)?;
            Ok(Expr { tokens })
        } else {
            Err(input.error("expected an expression"))
        }
    }
}

impl ToTokens for Type {
    ghost printed = { λ t. t.tokens };

    fn to_tokens(&self, tokens: &mut TokenStream) -> std::result::Result<(), AllocError> {
        self.tokens.to_tokens(tokens)
    }
}

impl ToTokens for Expr {
    ghost printed = { λ e. e.tokens };

    fn to_tokens(&self, tokens: &mut TokenStream) -> std::result::Result<(), AllocError> {
        self.tokens.to_tokens(tokens)
    }
}
