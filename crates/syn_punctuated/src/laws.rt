//! Laws about punctuated lists. Each function in this module states a law in its contract. Every
//! function except `read_again` has an empty body.
ghost use Rattle.std.specs.Prelude.{◌≡◌, ◌<◌, ◌+◌, ◌&&◌, ◌⊎◌, ℕ, List, length};
ghost use Rattle.std.specs.Cmp.Lexicographic.{pointwise};
ghost use Rattle.std.specs.Fn.{CalledAtMut};
ghost use Rattle.std.specs.List.{All};
ghost use Rattle.tok_core.specs.Forest.{Tree};
ghost use Rattle.tok_lexical.specs.Laws.{ClonesKeep, EqualAsValues};
ghost use Rattle.tok_leaves.specs.declared.ident.Ident.{Ident};
ghost use Rattle.tok_types.specs.declared.punctuation.Punctuation.{Punctuation};
ghost use Rattle.syn_punctuated.specs.Hashed.{list_input};
ghost use Rattle.syn_punctuated.specs.Lends.{with_value, WritesValue};
ghost use Rattle.syn_punctuated.specs.Lists.{values_of, separators_of, is_trailing};
ghost use Rattle.syn_punctuated.specs.Pairs.{clones_pair, equal_pairs, pair_input};
ghost use Rattle.syn_punctuated.specs.declared.pair.Pair.{Pair};
ghost use Rattle.syn_punctuated.specs.ReadBack.{IsAccepted, IsInTable, IsReadBack, ListsAreReadBack, ReadsAgain};
ghost use Rattle.syn_punctuated.specs.Retained.{Retains};
ghost use Rattle.syn_punctuated.specs.Trees.{ListsHaveTheirTrees, StatesTrees, ident_sources, punctuation_sources};
ghost use Rattle.syn_punctuated.specs.declared.punctuated.Punctuated.{Punctuated};

use crate::extends::PairsFault;
use crate::pair::Pair;
use crate::punctuated::Punctuated;
use std::alloc::Global;
use std::hash::Hash;
use syn_parse::{Parse, Result, tokens_to_parse_buffer};
use tok_buffer::TokenBuffer;
use tok_core::{Ident, Span, ToTokens};
use tok_types::token::{Punctuation, Token};

/// A list has either as many separators as values, or one separator fewer than values.
pub fn separators_follow_values<T, P>()
    ensures { (list : Punctuated T P)
        → (length (values_of list) ≡ length (separators_of list))
        ⊎ (length (values_of list) ≡ length (separators_of list) + 1) }
{}

/// Two lists are equal if and only if they have equal values and equal separators, in the same
/// order.
pub fn equality_is_pointwise<T: PartialEq, P: PartialEq>()
    ensures { (left : Punctuated T P) (right : Punctuated T P)
        → ⟦<Punctuated<T, P> as PartialEq>⟧.eq left right
        ≡ (pointwise T.eq (values_of left) (values_of right)
        && pointwise P.eq (separators_of left) (separators_of right)) }
{}

/// The hash input of a list consists of the number of separators, then each separator with the
/// value before it, and then an `Option`.
///
/// The `Option` contains the last value if no separator follows this value. Equal lists have equal
/// hash inputs.
pub fn lists_hash_all<T: Hash, P: Hash>()
    ensures { (list : Punctuated T P)
        → ⟦<Punctuated<T, P> as Hash>⟧.hash_input list ≡ list_input T.hash_input P.hash_input list }
{}

/// Two pairs are equal if and only if their values are equal, and either their separators are equal
/// or neither pair has a separator.
///
/// The hash input of a pair contains its value and its separator, and tells whether there is a
/// separator. Equal pairs therefore have equal hash inputs.
pub fn pairs_are_compared_by_parts<T: Hash + PartialEq, P: Hash + PartialEq>()
    ensures equal { (left : Pair T P) (right : Pair T P) → ⟦<Pair<T, P> as PartialEq>⟧.eq left right
        ≡ equal_pairs T.PartialEq.eq P.PartialEq.eq left right }
    ensures hash { (pair : Pair T P) → ⟦<Pair<T, P> as Hash>⟧.hash_input pair
        ≡ pair_input T.hash_input P.hash_input pair }
{}

/// A clone of a pair consists of a clone of the value and, if the pair has a separator, a clone of
/// the separator.
pub fn clones_keep_pairs<T: Clone, P: Clone>()
    ensures { (pair : Pair T P) (clone : Pair T P)
        → ⟦<Pair<T, P> as Clone>⟧.is_clone pair clone
        → clones_pair T.is_clone P.is_clone pair clone }
{}

/// Two values of `PairsFault` are equal if and only if they are the same variant. A clone of a
/// `PairsFault` equals the original.
pub fn pair_faults_are_compared_whole()
    ensures equal { EqualAsValues ⟦<PairsFault as PartialEq>⟧.eq }
    ensures clones { ClonesKeep ⟦<PairsFault as Clone>⟧.is_clone }
{}

/// If a list is not empty after a call of `retain`, it ends in a separator if and only if it ended
/// in a separator before the call.
pub fn retain_keeps_trailing<T, P, F: FnMut(&mut T) -> bool>()
    ensures { (f : F) (old : Punctuated T P) (new : Punctuated T P)
        → Retains (CalledAtMut F.FnMut) f old new → 0 < length (values_of new)
        → is_trailing new ≡ is_trailing old }
{}

/// An assignment to `list[index]` replaces the value at `index`, and does not change the rest of
/// the list.
pub fn indexing_writes_one_value<T, P>()
    ensures { (list : Punctuated T P) (index : ℕ) (value : T)
        → index < length (values_of list)
        → WritesValue index value list (with_value list index value) }
{}

/// The parser of a list reads exactly the trees of the list's values and separators, in order.
///
/// The law requires that the contracts of the value parser and of the separator parser state which
/// trees they read. A parser of terminated lists reads all remaining trees.
pub fn lists_have_their_trees<T: Parse, P: Parse + Token>()
    ensures { (values : T → List (List Tree)) (separators : P → List (List Tree))
        → ListsHaveTheirTrees values separators T.parses P.parses P.peeks }
{}

/// The parser of `Ident` reads one identifier. The parser of `Punctuation` reads one punct for each
/// of its characters.
pub fn tokens_state_trees<const K: usize, const N: usize>()
    ensures idents { StatesTrees ⟦<Ident as Parse>⟧.parses ident_sources }
    ensures punctuations { StatesTrees ⟦<Punctuation<K, N> as Parse>⟧.parses punctuation_sources }
{}

/// If the values and separators of a list can be written as tokens and parsed back, then the list
/// can also be written and parsed back.
///
/// Parsing the tokens of the list then returns the same list and leaves no tokens, unless an
/// allocation fails. A value or separator can be parsed back if parsing its tokens returns an equal
/// one.
pub fn lists_are_read_back<T: Parse + ToTokens, P: Parse + ToTokens>()
    ensures { ListsAreReadBack T.parses T.printed P.parses P.printed }
{}

/// Identifiers and punctuation tokens can be written as tokens and parsed back.
///
/// The identifier must not be a reserved word. The punctuation token must be in the table of
/// punctuation tokens, and must have a span for each character. The only possible error is an
/// allocation failure.
pub fn names_and_punctuations_are_read_back<const K: usize, const N: usize>()
    ensures names { (i : Ident) → IsAccepted i
        → IsReadBack ⟦<Ident as Parse>⟧.parses ⟦<Ident as ToTokens>⟧.printed i }
    ensures punctuations { (p : Punctuation K N) → IsInTable K N → length p.spans ≡ N
        → IsReadBack ⟦<Punctuation<K, N> as Parse>⟧.parses
        ⟦<Punctuation<K, N> as ToTokens>⟧.printed p }
{}

/// Writes a list of identifiers as tokens, and parses these tokens as a list again.
///
/// The contract states that the parsed list equals `list`. Returns an error if an allocation fails.
///
/// # Requires
///
/// - No identifier in `list` may be a reserved word.
/// - `K` must be the number of a punctuation token that has `N` characters.
/// - Each separator in `list` must have one span for each character.
pub fn read_again<const K: usize, const N: usize>(
    alloc: Global,
    list: &Punctuated<Ident, Punctuation<K, N>>,
) -> Result<Punctuated<Ident, Punctuation<K, N>>>
    requires words { All IsAccepted (values_of list.now) }
    requires table { IsInTable K N }
    requires spans { All (λ p. length p.spans ≡ N) (separators_of list.now) }
    ensures { ReadsAgain list.now result }
{
    let tokens = list.to_token_stream(alloc)?;
    let buffer = TokenBuffer::new2(alloc, 0, tokens)?;
    let mut input = tokens_to_parse_buffer(alloc, &buffer, Span::call_site());
    match Punctuated::parse_terminated(&mut input) {
        Ok(again) => match input.finish() {
            Ok(()) => Ok(again),
            Err(fault) => Err(fault),
        },
        Err(fault) => {
            input.discard();
            Err(fault)
        }
    }
}
