//! Laws about streams. Each law is the contract of a function that does nothing, or makes one call.
ghost use Rattle.syn_parse.specs.Laws.{ErrorsHaveOneSpan, ForksFollow, PeekTells, ScopesTell, VisibleGroupParses};
ghost use Rattle.syn_parse.specs.Progress.{ParsesGoOn};
ghost use Rattle.syn_parse.specs.Reads.{Peeks2, Peeks3};
ghost use Rattle.syn_parse.specs.Takes.{EntersAhead};
ghost use Rattle.syn_parse.specs.Views.{ViewsDecideLookaheads, ViewsDecideWords};
ghost use Rattle.tok_lexical.specs.Laws.{ClonesKeep};
ghost use Rattle.tok_lexical.specs.declared.delimiter.Delimiter.TheVariants.{Brace, Bracket, Parenthesis};
ghost use Rattle.tok_types.specs.Laws.{AreEqual, WriteNothing};
ghost use Rattle.tok_types.specs.Views.{IgnoresInvisible};

use crate::fault::Result;
use crate::own::{Own, Word};
use crate::parse::Parse;
use crate::step::StepCursor;
use crate::stream::{ParseBuffer, ParseStream, Paused};
use crate::tokens::Nothing;
use std::hash::Hash;
use tok_buffer::laws::reads_go_on;
use tok_core::{Ident, Literal, Punct, TokenTree};
use tok_types::token;
use tok_types::token::{Keyword, Punctuation, Token, Underscore, Visible};

/// A parse that returns a value keeps the stream in its scope, and lowers the number of remaining
/// tokens. A loop of such parses therefore ends.
///
/// The law applies to parses of identifiers, lifetimes, literals, puncts, trees, groups, keywords,
/// punctuation tokens and `_`.
pub fn parses_go_on()
    ensures { ParsesGoOn }
{
    reads_go_on();
}

/// If no allocation fails, a peek of a token returns `true` if and only if a parse of this token
/// returns a value.
///
/// The law applies to identifiers, literals, puncts, trees and `_`.
pub fn peeks_tell_parses()
    ensures idents { PeekTells ⟦<Ident as Token>⟧.peeks ⟦<Ident as Parse>⟧.parses }
    ensures literals { PeekTells ⟦<Literal as Token>⟧.peeks ⟦<Literal as Parse>⟧.parses }
    ensures puncts { PeekTells ⟦<Punct as Token>⟧.peeks ⟦<Punct as Parse>⟧.parses }
    ensures trees { PeekTells ⟦<TokenTree as Token>⟧.peeks ⟦<TokenTree as Parse>⟧.parses }
    ensures underscores { PeekTells ⟦<Underscore as Token>⟧.peeks ⟦<Underscore as Parse>⟧.parses }
{}

/// If no allocation fails, a peek of a keyword or a punctuation token returns `true` if and only if
/// a parse of this token returns a value.
///
/// The law also applies to token types whose number is past the end of the table.
#[tactic(auto, using(crate::proofs::Reading::reads_at_once_tell))]
pub fn peeks_tell_tokens<const K: usize, const N: usize>()
    ensures keywords { PeekTells ⟦<Keyword<K> as Token>⟧.peeks ⟦<Keyword<K> as Parse>⟧.parses }
    ensures punctuations { PeekTells ⟦<Punctuation<K, N> as Token>⟧.peeks
        ⟦<Punctuation<K, N> as Parse>⟧.parses }
{}

/// A peek of parentheses, braces or brackets returns `true` if and only if the parser of this
/// delimiter enters a group.
///
/// The parsers are `parse_parens`, `parse_braces` and `parse_brackets`. The law makes no statement
/// if an allocation fails.
pub fn peeks_tell_groups<const D: usize>()
    ensures { PeekTells ⟦<Visible<D> as Token>⟧.peeks (VisibleGroupParses {D = D}) }
{}

/// If a fork moves, or closes a group, a stream that then advances to the fork gets the same result
/// as if it had advanced first, and had then done so itself.
///
/// A new fork is at the position of its stream.
pub fn forks_follow()
    ensures { ForksFollow }
{}

/// In a scope without invisible groups, the contract of a parser allows only one span for each
/// error.
///
/// This span is the beginning of the next token, the whole token, the end of the scope, or a span
/// that the contract names.
#[tactic(auto, using(crate::proofs::Positions::said_once))]
pub fn errors_have_one_span()
    ensures { ErrorsHaveOneSpan }
{}

/// If a contract states that two streams have the same scope (`scope_of`), then one stream may
/// advance to the other, as `advance_to` requires.
///
/// Each call whose contract states which tokens it reads keeps the scope. A stream may therefore
/// advance to a fork that has made such calls.
#[tactic(auto, using(crate::proofs::Scopes::in_one_scope))]
pub fn scopes_tell()
    ensures { ScopesTell }
{}

/// The texts of errors do not depend on invisible groups.
///
/// The law applies to two streams that differ only in invisible groups, and thus have equal views.
/// It requires that every invisible group in their buffers contains a visible tree. Errors of the
/// two streams then have equal texts. The errors of two lookaheads that have recorded the same
/// names also have equal texts.
pub fn views_decide_words()
    ensures streams { ViewsDecideWords }
    ensures lookaheads { ViewsDecideLookaheads }
{}

/// If the result of `peek` for a token type does not depend on invisible groups, then the results
/// of `peek2` and `peek3` for this type do not depend on them.
#[tactic(auto, using(crate::proofs::Views::peeks2_ignore, crate::proofs::Views::peeks3_ignore))]
pub fn peeks_past_ignore_invisible<T: Token>()
    ensures second { IgnoresInvisible T.peeks → IgnoresInvisible (Peeks2 T.peeks) }
    ensures third { IgnoresInvisible T.peeks → IgnoresInvisible (Peeks3 T.peeks) }
{}

/// All values of `Nothing`, including clones, are equal, and hashing such a value writes nothing to
/// the hasher.
pub fn nothings_are_equal()
    ensures equal { AreEqual ⟦<Nothing as PartialEq>⟧.eq }
    ensures hash { WriteNothing ⟦<Nothing as Hash>⟧.hash_input }
    ensures clone { ClonesKeep ⟦<Nothing as Clone>⟧.is_clone }
{}

/// All values of `Own<W>` are equal, and hashing such a value writes nothing to the hasher.
pub fn own_keywords_are_equal<W: Word>()
    ensures equal { AreEqual ⟦<Own<W> as PartialEq>⟧.eq }
    ensures hash { WriteNothing ⟦<Own<W> as Hash>⟧.hash_input }
{}

/// A clone of an `Own<W>` has the same span as the original.
pub fn clones_keep_own_keywords<W: Word>()
    ensures { ClonesKeep ⟦<Own<W> as Clone>⟧.is_clone }
{}

/// A clone of a `Paused` or of a `StepCursor` has the same position and scope as the original. A
/// clone of a `Paused` also has the same leftover.
pub fn clones_keep_streams<'a>()
    ensures paused { ClonesKeep ⟦<Paused<'a> as Clone>⟧.is_clone }
    ensures cursors { ClonesKeep ⟦<StepCursor<'a> as Clone>⟧.is_clone }
{}

/// Enters parentheses with the macro `parenthesized!`.
///
/// Returns the token of the parentheses and the stream of their contents. The contract states that
/// the macro enters only parentheses.
pub fn parenthesized_enters_parentheses<'a>(
    input: ParseStream<'_, 'a>,
) -> Result<(token::Paren, ParseBuffer<'a>)>
    ensures { EntersAhead (λ p. p.0.span) (λ p. p.1) Parenthesis input.old result input.new }
{
    let mut content;
    let token = crate::parenthesized!(content in input);
    Ok((token, content))
}

/// Enters braces with the macro `braced!`.
///
/// Returns the token of the braces and the stream of their contents. The contract states that the
/// macro enters only braces.
pub fn braced_enters_braces<'a>(
    input: ParseStream<'_, 'a>,
) -> Result<(token::Brace, ParseBuffer<'a>)>
    ensures { EntersAhead (λ p. p.0.span) (λ p. p.1) Brace input.old result input.new }
{
    let mut content;
    let token = crate::braced!(content in input);
    Ok((token, content))
}

/// Enters brackets with the macro `bracketed!`.
///
/// Returns the token of the brackets and the stream of their contents. The contract states that the
/// macro enters only brackets.
pub fn bracketed_enters_brackets<'a>(
    input: ParseStream<'_, 'a>,
) -> Result<(token::Bracket, ParseBuffer<'a>)>
    ensures { EntersAhead (λ p. p.0.span) (λ p. p.1) Bracket input.old result input.new }
{
    let mut content;
    let token = crate::bracketed!(content in input);
    Ok((token, content))
}
