//! Wrappers around token trees and streams, for comparing and hashing without spans.
ghost use Rattle.std.specs.Prelude.{◌≡◌, ◌↔◌, fold, true};
ghost use Rattle.std.specs.Cmp.{partial_equiv_from_equiv, on_equiv};
ghost use Rattle.tok_core.specs.Code.{delimiter_code};
ghost use Rattle.tok_core.specs.Seen.{tree_of};
ghost use Rattle.tok_core.specs.Spanless.{alike, spanless, tree_alike, tree_spanless, same_delimiter, same_spacing, spacing_number, tree_input, forest_input};
ghost use Rattle.tok_core.specs.Private.Alikes.{alike_equivalence, tree_alike_equivalence, forest_input_alike, tree_input_alike};

use crate::stream::{TokenStream, TokenTree};
use std::hash::{Hash, Hasher};
use tok_leaves::{Delimiter, Spacing};

/// A wrapper around a token tree. The operations `==` and `hash` on this wrapper ignore all spans
/// of the tree.
#[derive(Clone, Copy, Debug)]
pub struct TokenTreeHelper<'a>(pub &'a TokenTree);

/// A wrapper around a token stream. The operations `==` and `hash` on this wrapper ignore all spans
/// of the stream.
#[derive(Clone, Copy, Debug)]
pub struct TokenStreamHelper<'a>(pub &'a TokenStream);

impl<'a> PartialEq for TokenTreeHelper<'a> {
    ghost eq = { λ left right. tree_alike (tree_of left.0.now) (tree_of right.0.now) };

    ghost laws = { partial_equiv_from_equiv
        (on_equiv (λ h. tree_of h.0.now) tree_alike_equivalence) };

    fn eq(&self, other: &Self) -> bool
        ensures eq { result ≡ tree_alike (tree_of self.now.0.now) (tree_of other.now.0.now) }
        ensures spanless { (result ≡ true)
            ↔ (tree_spanless (tree_of self.now.0.now) ≡ tree_spanless (tree_of other.now.0.now)) }
    {
        is_alike(self.0, other.0)
    }
}

impl<'a> Eq for TokenTreeHelper<'a> {
    ghost laws = { on_equiv (λ h. tree_of h.0.now) tree_alike_equivalence };
}

impl<'a> Hash for TokenTreeHelper<'a> {
    ghost hash_input = { λ h. tree_input (tree_of h.0.now) };

    ghost respects_eq = { λ left right e. tree_input_alike (tree_of left.0.now)
        (tree_of right.0.now) e };

    fn hash<H: Hasher>(&self, state: &mut H) {
        hash_tree(self.0, state);
    }
}

impl<'a> PartialEq for TokenStreamHelper<'a> {
    ghost eq = { λ left right. alike left.0.now right.0.now };

    ghost laws = { partial_equiv_from_equiv (on_equiv (λ h. h.0.now) alike_equivalence) };

    fn eq(&self, other: &Self) -> bool
        ensures eq { result ≡ alike self.now.0.now other.now.0.now }
        ensures spanless { (result ≡ true) ↔ (spanless self.now.0.now ≡ spanless other.now.0.now) }
    {
        are_alike(self.0, other.0)
    }
}

impl<'a> Eq for TokenStreamHelper<'a> {
    ghost laws = { on_equiv (λ h. h.0.now) alike_equivalence };
}

impl<'a> Hash for TokenStreamHelper<'a> {
    ghost hash_input = { λ h. forest_input h.0.now };

    ghost respects_eq = { λ left right e. forest_input_alike left.0.now right.0.now e };

    fn hash<H: Hasher>(&self, state: &mut H) {
        hash_stream(self.0, state);
    }
}

#[cycle(alike)]
fn are_alike(left: &TokenStream, right: &TokenStream) -> bool
    ensures { result ≡ alike left.now right.now }
{
    let ours = left.trees();
    let theirs = right.trees();
    if ours.len() != theirs.len() {
        return false;
    }
    for i in 0..ours.len() {
        if !is_alike(&ours[i], &theirs[i]) {
            return false;
        }
    }
    true
}

#[cycle(alike)]
fn is_alike(left: &TokenTree, right: &TokenTree) -> bool
    ensures { result ≡ tree_alike (tree_of left.now) (tree_of right.now) }
{
    match (left, right) {
        (TokenTree::Group(left), TokenTree::Group(right)) => {
            same(left.delimiter(), right.delimiter()) && are_alike(left.stream(), right.stream())
        }
        (TokenTree::Ident(left), TokenTree::Ident(right)) => left.as_str() == right.as_str(),
        (TokenTree::Punct(left), TokenTree::Punct(right)) => {
            left.as_char() == right.as_char() && same_spacing(left.spacing(), right.spacing())
        }
        (TokenTree::Literal(left), TokenTree::Literal(right)) => left.as_str() == right.as_str(),
        _ => false,
    }
}

fn same(left: Delimiter, right: Delimiter) -> bool
    ensures { result ≡ same_delimiter left right }
{
    left == right
}

fn same_spacing(left: Spacing, right: Spacing) -> bool
    ensures { result ≡ same_spacing left right }
{
    left == right
}

#[cycle(hash)]
fn hash_stream<H: Hasher>(stream: &TokenStream, state: &mut H)
    ensures { state.new ≡ fold H.write state.old (forest_input stream.now) }
{
    for next in stream.trees() {
        hash_tree(next, state);
    }
}

#[cycle(hash)]
fn hash_tree<H: Hasher>(next: &TokenTree, state: &mut H)
    ensures { state.new ≡ fold H.write state.old (tree_input (tree_of next.now)) }
{
    match next {
        TokenTree::Group(group) => {
            state.write_u8(0);
            state.write_u8(delimiter_number(group.delimiter()));
            hash_stream(group.stream(), state);
            // Ends the group: no tree begins with this byte.
            state.write_u8(0xff);
        }
        TokenTree::Punct(punct) => {
            state.write_u8(1);
            punct.as_char().hash(state);
            state.write_u8(spacing_number(punct.spacing()));
        }
        TokenTree::Literal(literal) => {
            state.write_u8(2);
            literal.as_str().hash(state);
        }
        TokenTree::Ident(ident) => {
            state.write_u8(3);
            ident.as_str().hash(state);
        }
    }
}

fn delimiter_number(delimiter: Delimiter) -> u8
    ensures { result ≡ delimiter_code delimiter }
{
    match delimiter {
        Delimiter::Parenthesis => 0,
        Delimiter::Brace => 1,
        Delimiter::Bracket => 2,
        Delimiter::None => 3,
    }
}

fn spacing_number(spacing: Spacing) -> u8
    ensures { result ≡ spacing_number spacing }
{
    match spacing {
        Spacing::Alone => 0,
        Spacing::Joint => 1,
    }
}
