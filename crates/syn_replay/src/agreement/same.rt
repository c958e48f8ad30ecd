//! Functions that compare pieces and token streams, including their spans.
ghost use Rattle.std.specs.Prelude.{◌≡◌, ◌↔◌, map, true};
ghost use Rattle.tok_core.specs.Seen.{tree_of};
ghost use Rattle.syn_replay.specs.Meanings.{piece_of, pieces_in};

use crate::report::Piece;
use tok_core::same::{same_ident, same_literal, same_punct};
use tok_core::{TokenStream, TokenTree};

fn same_piece(left: &Piece, right: &Piece) -> bool
    ensures { (result ≡ true) ↔ (piece_of left.now ≡ piece_of right.now) }
{
    left.text.as_str() == right.text.as_str() && left.span == right.span
}

/// Returns `true` if two lists contain the same pieces in the same order, with equal texts and
/// equal spans.
pub fn same_pieces(left: &[Piece], right: &[Piece]) -> bool
    ensures { (result ≡ true) ↔ (map piece_of left.now ≡ map piece_of right.now) }
{
    if left.len() != right.len() {
        return false;
    }
    for i in 0..left.len() {
        if !same_piece(&left[i], &right[i]) {
            return false;
        }
    }
    true
}

/// Returns `true` if the values and separators of two lists have equal pieces, in order.
pub fn same_parts(left: &[Vec<Piece>], right: &[Vec<Piece>]) -> bool
    ensures { (result ≡ true) ↔ (map pieces_in left.now ≡ map pieces_in right.now) }
{
    if left.len() != right.len() {
        return false;
    }
    for i in 0..left.len() {
        if !same_pieces(&left[i], &right[i]) {
            return false;
        }
    }
    true
}

#[cycle(same)]
/// Returns `true` if two token streams are equal, including all spans.
pub fn same_streams(left: &TokenStream, right: &TokenStream) -> bool
    ensures { (result ≡ true) ↔ (left.now ≡ right.now) }
{
    let ours = left.trees();
    let theirs = right.trees();
    if ours.len() != theirs.len() {
        return false;
    }
    for i in 0..ours.len() {
        if !same_tree(&ours[i], &theirs[i]) {
            return false;
        }
    }
    true
}

#[cycle(same)]
fn same_tree(left: &TokenTree, right: &TokenTree) -> bool
    ensures { (result ≡ true) ↔ (tree_of left.now ≡ tree_of right.now) }
{
    match (left, right) {
        (TokenTree::Group(left), TokenTree::Group(right)) => {
            left.delimiter() == right.delimiter()
                && left.span() == right.span()
                && same_streams(left.stream(), right.stream())
        }
        (TokenTree::Ident(left), TokenTree::Ident(right)) => same_ident(left, right),
        (TokenTree::Punct(left), TokenTree::Punct(right)) => same_punct(*left, *right),
        (TokenTree::Literal(left), TokenTree::Literal(right)) => same_literal(left, right),
        _ => false,
    }
}
