//! Laws about the lexer's grammar, and about comparing, hashing, cloning and writing. Each law is
//! the contract of a function that does nothing.
ghost use Rattle.tok_lexical.specs.Laws.{ClonesKeep, EqualAsValues, EqualBy, HashedBy};
ghost use Rattle.tok_core.specs.Laws.{AreWrittenInTurn, stream_shown, tree_shown};
ghost use Rattle.tok_core.specs.Lexical.Laws.{IsExplainedOnce, IsReadOnce, IsReadVisibly, IsRefusedOnce, IsNeverBoth, IsBegunOnce};
ghost use Rattle.tok_core.specs.Spanless.{forest_input, tree_input};

use crate::group::Group;
use crate::lexer::{LexError, LexFault};
use crate::stream::{TokenStream, TokenTree};
use crate::tt::{TokenStreamHelper, TokenTreeHelper};
use std::hash::Hash;
pub use tok_leaves::laws::{
    clones_keep_all, ident_faults_tell, idents_by_text, spans_are_compared_whole,
};
pub use tok_lexical::laws::{clones_keep_rules, editions_by_year, kinds_are_compared_whole};

/// In each `Mode`, the lexer's grammar assigns at most one token stream to a text.
pub fn forest_once()
    ensures { IsReadOnce }
{}

/// In each `Mode`, the lexer's grammar rejects a text with at most one error.
pub fn refused_once()
    ensures { IsRefusedOnce }
{}

/// In each `Mode`, the lexer's grammar never both accepts and rejects a text.
pub fn never_both()
    ensures { IsNeverBoth }
{}

/// For an error and a text, the definition of `LexError::explain` allows at most one span and one
/// message.
pub fn errors_explained_once()
    ensures { IsExplainedOnce }
{}

/// The tokens of a source begin at only one position, which is after its byte order mark and its
/// shebang line, if it has them.
pub fn begins_once()
    ensures { IsBegunOnce }
{}

/// The token streams of `lex` and `lex_source` contain no invisible groups.
pub fn read_visibly()
    ensures { IsReadVisibly }
{}

/// The operations `==` and `hash` on a `TokenStreamHelper` ignore all spans of its stream.
///
/// For two helpers `a` and `b`, `a == b` if and only if their streams are equal apart from spans.
/// If `a == b`, both helpers write the same input to a hasher.
pub fn streams_without_spans<'a>()
    ensures equal { EqualBy stream_shown ⟦<TokenStreamHelper<'a> as PartialEq>⟧.eq }
    ensures hash { HashedBy stream_shown forest_input ⟦<TokenStreamHelper<'a> as Hash>⟧.hash_input }
{}

/// The operations `==` and `hash` on a `TokenTreeHelper` ignore all spans of its tree.
///
/// For two helpers `a` and `b`, `a == b` if and only if their trees are equal apart from spans.
pub fn trees_without_spans<'a>()
    ensures equal { EqualBy tree_shown ⟦<TokenTreeHelper<'a> as PartialEq>⟧.eq }
    ensures hash { HashedBy tree_shown tree_input ⟦<TokenTreeHelper<'a> as Hash>⟧.hash_input }
{}

/// Two values `a` and `b` of type `LexError` or `LexFault` are the same value if and only if
/// `a == b`.
pub fn errors_are_compared_whole()
    ensures errors { EqualAsValues ⟦<LexError as PartialEq>⟧.eq }
    ensures faults { EqualAsValues ⟦<LexFault as PartialEq>⟧.eq }
{}

/// A clone of a `TokenStream`, `TokenTree`, `Group`, `LexError`, `LexFault`, `TokenTreeHelper` or
/// `TokenStreamHelper` equals the original, including its spans.
pub fn clones_keep_trees<'a>()
    ensures streams { ClonesKeep ⟦<TokenStream as Clone>⟧.is_clone }
    ensures trees { ClonesKeep ⟦<TokenTree as Clone>⟧.is_clone }
    ensures groups { ClonesKeep ⟦<Group as Clone>⟧.is_clone }
    ensures errors { ClonesKeep ⟦<LexError as Clone>⟧.is_clone }
    ensures faults { ClonesKeep ⟦<LexFault as Clone>⟧.is_clone }
    ensures tree_helpers { ClonesKeep ⟦<TokenTreeHelper<'a> as Clone>⟧.is_clone }
    ensures stream_helpers { ClonesKeep ⟦<TokenStreamHelper<'a> as Clone>⟧.is_clone }
{}

/// Two calls of `to_tokens` in turn append the trees of the first value, and then the trees of the
/// second value.
///
/// If an allocation fails, the calls append only a prefix of these trees.
pub fn writes_follow_writes()
    ensures { AreWrittenInTurn }
{}
