//! Types for generic parameters and `where` clauses.
ghost use Rattle.std.specs.Prelude.{◌≡◌, OnErr, OnOk};
ghost use Rattle.tok_core.specs.Forest.{AppendsFront, concat};
ghost use Rattle.syn_parse.specs.Takings.{lighter, lower, told};
ghost use Rattle.syn_derive.specs.Generics.{HaveNoClause, lightens_generics, lowers_where_clause, params_form, take_params, take_where_clause, where_form};
ghost use Rattle.syn_derive.specs.Runs.{FollowsTree};
ghost use Rattle.syn_derive.specs.Written.{generics_trees, opened_trees, params_trees, predicates_trees, where_trees};

use crate::print::{write_nothing, write_or_default};
use crate::run::{Until, parse_until};
use std::alloc::AllocError;
use syn_parse::{Parse, ParseStream, Result};
use tok_core::laws::writes_follow_writes;
use tok_core::{ToTokens, TokenStream};
use tok_types::token;

/// The generic parameters of an item, as tokens between `<` and `>`, and the item's `where` clause.
///
/// As in `syn`, the parser of `Generics` reads only the parameters.
#[derive(Drop)]
pub struct Generics {
    pub lt_token: Option<token::Lt>,
    pub params: TokenStream,
    pub gt_token: Option<token::Gt>,
    pub where_clause: Option<WhereClause>,
}

/// A `where` clause, whose predicates are all tokens up to braces or a `;`.
#[derive(Drop)]
pub struct WhereClause {
    pub where_token: token::Where,
    pub predicates: TokenStream,
}

impl Generics {
    // Returns these parameters with a `where` clause.
    pub(crate) fn with_clause(self, where_clause: Option<WhereClause>) -> Generics
        ensures params { params_form result ≡ params_form self }
        ensures clause { result.where_clause ≡ where_clause }
    {
        let Generics {
            lt_token,
            params,
            gt_token,
            ..
        } = self;
        Generics {
            lt_token,
            params,
            gt_token,
            where_clause,
        }
    }
}

impl Parse for Generics {
    ghost parses = { HaveNoClause };

    ghost takes = { told params_form take_params (lighter lightens_generics) };

    #[tactic(auto, unfolding(crate::specs::Generics::take_params))]
    fn parse(input: ParseStream<'_, '_>) -> Result<Self> {
        if input.peek::<token::Lt>() {
            let lt_token = input.parse()?;
            let params = parse_until(input, Until::Params)?;
            let gt_token = input.parse()?;
            Ok(Generics {
                lt_token: Some(lt_token),
                params,
                gt_token: Some(gt_token),
                where_clause: None,
            })
        } else {
            Ok(Generics {
                lt_token: None,
                params: TokenStream::new(input.allocator()),
                gt_token: None,
                where_clause: None,
            })
        }
    }
}

impl Parse for WhereClause {
    ghost parses = { FollowsTree (λ w. w.predicates) };

    ghost takes = { told where_form take_where_clause (lower lowers_where_clause) };

    #[tactic(auto, unfolding(crate::specs::Generics::take_where_clause))]
    fn parse(input: ParseStream<'_, '_>) -> Result<Self> {
        let where_token = input.parse()?;
        let predicates = parse_until(input, Until::Predicates)?;
        Ok(WhereClause {
            where_token,
            predicates,
        })
    }
}

/// Writes the parameters between `<` and `>`, or nothing if there are no parameters. The `where`
/// clause is not written.
impl ToTokens for Generics {
    ghost printed = { generics_trees };

    fn to_tokens(&self, tokens: &mut TokenStream) -> std::result::Result<(), AllocError> {
        if self.params.is_empty() {
            write_nothing(tokens)
        } else {
            self.write_params(tokens)
        }
    }
}

impl Generics {
    // Appends `<` and the parameters.
    fn write_opened(&self, tokens: &mut TokenStream) -> std::result::Result<(), AllocError>
        ensures ok { OnOk result (tokens.new ≡ concat tokens.old (opened_trees self.now)) }
        ensures err { OnErr result (AppendsFront tokens.old (opened_trees self.now) tokens.new) }
    {
        writes_follow_writes();
        write_or_default(&self.lt_token, tokens)?;
        self.params.to_tokens(tokens)
    }

    // Appends the parameters between `<` and `>`.
    fn write_params(&self, tokens: &mut TokenStream) -> std::result::Result<(), AllocError>
        ensures ok { OnOk result (tokens.new ≡ concat tokens.old (params_trees self.now)) }
        ensures err { OnErr result (AppendsFront tokens.old (params_trees self.now) tokens.new) }
    {
        writes_follow_writes();
        self.write_opened(tokens)?;
        write_or_default(&self.gt_token, tokens)
    }
}

impl WhereClause {
    // Appends `where` and the predicates.
    fn write_predicates(&self, tokens: &mut TokenStream) -> std::result::Result<(), AllocError>
        ensures ok { OnOk result (tokens.new ≡ concat tokens.old (predicates_trees self.now)) }
        ensures err { OnErr result
            (AppendsFront tokens.old (predicates_trees self.now) tokens.new) }
    {
        writes_follow_writes();
        self.where_token.to_tokens(tokens)?;
        self.predicates.to_tokens(tokens)
    }
}

/// Writes the `where` clause, or nothing if the clause has no predicates.
impl ToTokens for WhereClause {
    ghost printed = { where_trees };

    fn to_tokens(&self, tokens: &mut TokenStream) -> std::result::Result<(), AllocError> {
        if self.predicates.is_empty() {
            write_nothing(tokens)
        } else {
            self.write_predicates(tokens)
        }
    }
}
