//! A type for attribute arguments, each of which is a literal or a meta.
ghost use Rattle.std.specs.Prelude.{◌≡◌};
ghost use Rattle.syn_parse.specs.Takings.{Keeps, KeepsWhole, lighter, told};
ghost use Rattle.syn_parse.specs.TreesAhead.{ahead};
ghost use Rattle.tok_leaves.specs.Spans.{call_site};
ghost use Rattle.syn_derive.specs.Arguments.{IsOf, end_of};
ghost use Rattle.syn_derive.specs.NestedMetas.{lightens_nested_form, meta_seq, nested_form, nested_trees, sees_nested_path, take_nested_form};

use crate::attribute::Attribute;
use crate::meta::{Meta, MetaList};
use std::alloc::{AllocError, Global};
use syn_parse::laws::parses_go_on;
use syn_parse::{Parse, ParseBuffer, ParseStream, Parser, Result};
use syn_punctuated::Punctuated;
use tok_core::{Literal, ToTokens, TokenStream};
use tok_types::{IdentAny, token};

/// An argument of an attribute, which is either a literal or a meta.
///
/// The path of a meta may contain any words, even reserved words. `true` and `false` are parsed as
/// paths. `-1` is neither a literal nor a meta, because it consists of two tokens.
#[derive(Drop)]
pub enum NestedMeta {
    Meta(Meta),
    Lit(Literal),
}

// Returns `true` if the path of a meta may be next.
fn is_path_next(input: &ParseBuffer<'_>) -> bool
    ensures { result ≡ sees_nested_path (ahead input.now) }
{
    input.peek::<IdentAny>() || input.peek::<token::PathSep>()
}

impl Parse for NestedMeta {
    ghost takes = { told nested_form take_nested_form (lighter lightens_nested_form) };

    #[tactic(auto, unfolding(crate::specs::NestedMetas::take_nested_form))]
    fn parse(input: ParseStream<'_, '_>) -> Result<Self> {
        if input.peek::<Literal>() {
            Ok(NestedMeta::Lit(input.parse()?))
        } else if is_path_next(input) {
            Ok(NestedMeta::Meta(Meta::parse_nested(input)?))
        } else {
            Err(input.error("expected identifier or literal"))
        }
    }
}

impl ToTokens for NestedMeta {
    ghost printed = { nested_trees };

    fn to_tokens(&self, tokens: &mut TokenStream) -> std::result::Result<(), AllocError> {
        match self {
            NestedMeta::Meta(meta) => meta.to_tokens(tokens),
            NestedMeta::Lit(literal) => literal.to_tokens(tokens),
        }
    }
}

// Parses literals and metas and the commas between them, up to the end.
#[tactic(auto, unfolding(crate::specs::NestedMetas::take_meta_seq))]
fn parse_meta_seq(input: ParseStream<'_, '_>) -> Result<Punctuated<NestedMeta, token::Comma>>
    ensures { Keeps meta_seq input.old result input.new }
{
    parses_go_on();
    Punctuated::parse_terminated(input)
}

impl NestedMeta {
    /// Parses all tokens of a stream as a list of literals and metas with commas between them.
    ///
    /// The stream can be the arguments that an attribute macro receives. If a token is left over,
    /// the call returns an error. An error at the end of the tokens has the span of the call site.
    ///
    /// The contract says nothing about a stream with an empty invisible group. If such a group
    /// follows the last argument, the call returns an error. To remove such groups first, call
    /// `prune`.
    pub fn parse_meta_list(
        alloc: Global,
        tokens: TokenStream,
    ) -> Result<Punctuated<NestedMeta, token::Comma>>
        ensures { KeepsWhole meta_seq tokens call_site result }
    {
        parse_meta_seq.parse2(alloc, tokens)
    }
}

impl MetaList {
    /// Parses all tokens in the delimiters as a list of literals and metas with commas between
    /// them.
    ///
    /// Errors have the same positions as errors of `parse_args`. As in
    /// [`NestedMeta::parse_meta_list`], the contract says nothing about tokens with an empty
    /// invisible group.
    pub fn nested(&self, alloc: Global) -> Result<Punctuated<NestedMeta, token::Comma>>
        ensures { KeepsWhole meta_seq self.now.tokens (end_of self.now) result }
    {
        self.parse_args_with(alloc, parse_meta_seq)
    }
}

impl Attribute {
    /// Parses all arguments of the attribute as a list of literals and metas with commas between
    /// them, as in `#[range(1, 10, step = 2)]`.
    ///
    /// Errors have the same positions as errors of `parse_args`. If the attribute has no arguments,
    /// returns an error at the `=` or at the path.
    ///
    /// As in [`NestedMeta::parse_meta_list`], the contract says nothing about tokens with an empty
    /// invisible group.
    pub fn nested(&self, alloc: Global) -> Result<Punctuated<NestedMeta, token::Comma>>
        ensures { IsOf (λ l. KeepsWhole meta_seq l.tokens (end_of l)) self.now.meta result }
    {
        self.arguments(alloc)?.nested(alloc)
    }
}
