//! Implementations of `Parse` for keywords, punctuation tokens and `_`, and the type `Nothing`.
ghost use Rattle.std.specs.Prelude.{codes};
ghost use Rattle.tok_types.specs.Printed.{first_span};
ghost use Rattle.tok_types.specs.Texts.{keyword_text, punctuation_word};
ghost use Rattle.syn_parse.specs.Parses.{NothingParses, PunctuationParses, WordParses};
ghost use Rattle.syn_parse.specs.Takings.{lighter, lower, told};
ghost use Rattle.syn_parse.specs.Tokens as spec;
ghost use Rattle.syn_parse.specs.Tokens.{take_nothing, take_token, take_underscore};
ghost use Rattle.syn_parse.specs.Lighter.{lightens_gives, lowers_token};

use crate::fault::Result;
use crate::parse::Parse;
use crate::parsing::{keyword, punct};
use crate::stream::ParseStream;
use std::alloc::AllocError;
use tok_core::{ToTokens, TokenStream};
use tok_types::token::{Keyword, Punctuation, Underscore, keyword_text, punctuation_text};

impl<const K: usize> Parse for Keyword<K> {
    ghost parses = { WordParses (λ k. k.span) (keyword_text K) };

    ghost takes = { told (λ v. v) (take_token (spec.keyword K)) (lower (lowers_token _)) };

    #[tactic(auto, using(crate::proofs::Told::token_told))]
    fn parse(input: ParseStream<'_, '_>) -> Result<Self> {
        keyword_token(input)
    }
}

// Does what `Keyword::parse` does.
fn keyword_token<const K: usize>(input: ParseStream<'_, '_>) -> Result<Keyword<K>>
    ensures { WordParses (λ k. k.span) (keyword_text K) input.old result input.new }
{
    let span = keyword(input, keyword_text(K))?;
    Ok(Keyword::new(span))
}

impl<const K: usize, const N: usize> Parse for Punctuation<K, N> {
    ghost parses = { PunctuationParses (λ p. p.spans) (punctuation_word K N)
        (punctuation_word K N) };

    ghost takes = { told (λ v. v) (take_token (spec.punctuation K N)) (lower (lowers_token _)) };

    // Inlined: a call would pass the spans through memory, and takes longer than to read them.
    #[inline(always)]
    #[tactic(auto, using(crate::proofs::Told::token_told))]
    fn parse(input: ParseStream<'_, '_>) -> Result<Self> {
        punctuation_token(input)
    }
}

// Does what `Punctuation::parse` does.
#[inline(always)]
fn punctuation_token<const K: usize, const N: usize>(
    input: ParseStream<'_, '_>,
) -> Result<Punctuation<K, N>>
    ensures { PunctuationParses (λ p. p.spans) (punctuation_word K N) (punctuation_word K N)
        input.old result input.new }
{
    let spans = punct(input, punctuation_text(K))?;
    Ok(Punctuation::new(spans))
}

impl Parse for Underscore {
    ghost parses = { WordParses (λ u. first_span u.spans) (codes "_") };

    ghost takes = { told (λ u. first_span u.spans) take_underscore (lower (lowers_token _)) };

    #[tactic(auto, using(crate::proofs::Told::own_told))]
    fn parse(input: ParseStream<'_, '_>) -> Result<Self> {
        underscore(input)
    }
}

// Does what `Underscore::parse` does.
fn underscore(input: ParseStream<'_, '_>) -> Result<Underscore>
    ensures { WordParses (λ u. first_span u.spans) (codes "_") input.old result input.new }
{
    let span = keyword(input, "_")?;
    Ok(Underscore::from_span(span))
}

/// A value that consists of no tokens.
///
/// Parsing a `Nothing` always succeeds, and does not move the stream.
#[derive(Clone, Copy, PartialEq, Eq, Hash, Debug)]
pub struct Nothing;

impl Parse for Nothing {
    ghost parses = { NothingParses };

    ghost takes = { told (λ _. tt) take_nothing (lighter (lightens_gives tt)) };

    fn parse(_input: ParseStream<'_, '_>) -> Result<Self> {
        Ok(Nothing)
    }
}

impl ToTokens for Nothing {
    ghost use Rattle.tok_core.specs.Forest.{no_trees};

    ghost printed = { λ _. no_trees };

    fn to_tokens(&self, _tokens: &mut TokenStream) -> std::result::Result<(), AllocError> {
        Ok(())
    }
}
