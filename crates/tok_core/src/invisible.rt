//! Tests and comparisons of streams that contain invisible groups.
ghost use Rattle.std.specs.Prelude.{◌≡◌, ◌≤◌, ◌+◌, ◌↔◌, false, IfOk, IfSome, MatchOption, true};
ghost use Rattle.tok_core.specs.Clear.{clear, tree_clear, ends_joint, is_joint_apostrophe, is_invisible_group};
ghost use Rattle.tok_core.specs.Erase.{erase};
ghost use Rattle.tok_core.specs.Filled.{filled};
ghost use Rattle.tok_core.specs.Forest.{no_trees, tree, concat, tree_delimiter, tree_span};
ghost use Rattle.tok_core.specs.Seen.{group_of, tree_of};
ghost use Rattle.tok_core.specs.Weight.{tree_weight};
ghost use Rattle.tok_core.specs.Private.Pending.{all_of, pending, pending_weight, IsVisible, invisible};
ghost use Rattle.tok_leaves.specs.declared.span.Span.{Span};

use crate::group::Group;
use crate::stream::{TokenStream, TokenTree};
use std::alloc::{AllocError, Global};
use tok_leaves::same::{same_ident, same_literal, same_punct};
use tok_leaves::{Delimiter, Spacing};

/// Returns `true` if every invisible group in `stream`, at any depth, contains a visible tree.
///
/// A visible tree is any token tree except an invisible group.
#[cycle(filled)]
pub fn is_filled(stream: &TokenStream) -> bool
    ensures { result ≡ filled stream.now }
{
    for next in stream.trees() {
        if !is_tree_filled(next) {
            return false;
        }
    }
    true
}

#[cycle(filled)]
fn is_tree_filled(next: &TokenTree) -> bool
    ensures { result ≡ filled (tree (tree_of next.now) no_trees) }
{
    match next {
        TokenTree::Group(group) => match group.delimiter() {
            // A group that is filled and not empty has a visible tree.
            Delimiter::None => !group.stream().is_empty() && is_filled(group.stream()),
            _ => is_filled(group.stream()),
        },
        _ => true,
    }
}

/// Returns `true` unless a joint apostrophe is directly before an invisible group, or is the last
/// tree of an invisible group.
///
/// The call examines the stream and the contents of all its groups.
#[cycle(clear)]
pub fn is_clear(stream: &TokenStream) -> bool
    ensures { result ≡ clear stream.now }
{
    let mut joint = false;
    for next in stream.trees() {
        if joint && is_invisible_group(next) {
            return false;
        }
        if !is_tree_clear(next) {
            return false;
        }
        joint = is_joint_apostrophe(next);
    }
    true
}

#[cycle(clear)]
fn is_tree_clear(next: &TokenTree) -> bool
    ensures { result ≡ tree_clear (tree_of next.now) }
{
    match next {
        TokenTree::Group(group) => match group.delimiter() {
            Delimiter::None => !ends_joint(group.stream()) && is_clear(group.stream()),
            _ => is_clear(group.stream()),
        },
        _ => true,
    }
}

// Returns `true` if the last tree is a joint apostrophe.
fn ends_joint(stream: &TokenStream) -> bool
    ensures { result ≡ ends_joint false stream.now }
{
    match stream.trees() {
        [.., last] => is_joint_apostrophe(last),
        [] => false,
    }
}

fn is_joint_apostrophe(next: &TokenTree) -> bool
    ensures { result ≡ is_joint_apostrophe (tree_of next.now) }
{
    match next {
        TokenTree::Punct(punct) => match punct.spacing() {
            Spacing::Joint => punct.as_char() == '\'',
            Spacing::Alone => false,
        },
        _ => false,
    }
}

fn is_invisible_group(next: &TokenTree) -> bool
    ensures { result ≡ is_invisible_group (tree_of next.now) }
{
    match next {
        TokenTree::Group(group) => match group.delimiter() {
            Delimiter::None => true,
            _ => false,
        },
        _ => false,
    }
}

/// Returns `true` if `left` and `right` are equal, including their spans, apart from invisible
/// groups.
///
/// The call compares the streams as if the contents of each invisible group replaced the group. It
/// creates no new stream, and allocates one list entry for each invisible group around the trees
/// that it is comparing. Returns an error if an allocation fails.
#[cycle(same)]
pub fn same_visible(
    alloc: Global,
    left: &TokenStream,
    right: &TokenStream,
) -> Result<bool, AllocError>
    ensures { IfOk result (λ same. (same ≡ true) ↔ (erase left.now ≡ erase right.now)) }
{
    let mut ours = VisibleTrees {
        trees: left.trees(),
        outer: Vec::new(alloc),
    };
    let mut theirs = VisibleTrees {
        trees: right.trees(),
        outer: Vec::new(alloc),
    };
    loop {
        match (ours.next()?, theirs.next()?) {
            (None, None) => return Ok(true),
            (Some(one), Some(other)) => {
                if !same_tree(alloc, one, other)? {
                    return Ok(false);
                }
            }
            _ => return Ok(false),
        }
    }
}

// Returns `true` if two visible trees are equal apart from the invisible groups inside.
#[cycle(same)]
fn same_tree(alloc: Global, left: &TokenTree, right: &TokenTree) -> Result<bool, AllocError>
    requires left_visible { IsVisible (tree_of left.now) }
    requires right_visible { IsVisible (tree_of right.now) }
    ensures { IfOk result
        (λ same. (same ≡ true)
        ↔ (erase (tree (tree_of left.now) no_trees) ≡ erase (tree (tree_of right.now) no_trees))) }
{
    match left {
        TokenTree::Group(left) => match right {
            TokenTree::Group(right) => {
                if same_edges(left, right) {
                    same_visible(alloc, left.stream(), right.stream())
                } else {
                    Ok(false)
                }
            }
            _ => Ok(false),
        },
        TokenTree::Ident(left) => match right {
            TokenTree::Ident(right) => Ok(same_ident(left, right)),
            _ => Ok(false),
        },
        TokenTree::Punct(left) => match right {
            TokenTree::Punct(right) => Ok(same_punct(*left, *right)),
            _ => Ok(false),
        },
        TokenTree::Literal(left) => match right {
            TokenTree::Literal(right) => Ok(same_literal(left, right)),
            _ => Ok(false),
        },
    }
}

// Returns `true` if two groups have the same delimiter and span.
fn same_edges(left: &Group, right: &Group) -> bool
    ensures { (result ≡ true)
        ↔ ((tree_delimiter (group_of left.now) ≡ tree_delimiter (group_of right.now))
        × (tree_span (group_of left.now) ≡ tree_span (group_of right.now))) }
{
    left.delimiter() == right.delimiter() && left.span() == right.span()
}

// The visible trees still to come: the current ones, and then those after each invisible group that
// has been entered, the innermost last.
#[derive(Drop)]
struct VisibleTrees<'a> {
    trees: &'a [TokenTree],
    outer: Vec<&'a [TokenTree]>,
}

impl<'a> VisibleTrees<'a> {
    // Removes the next visible tree. The trees of an invisible group come before those after it.
    fn next(&mut self) -> Result<Option<&'a TokenTree>, AllocError>
        ensures erased { IfOk result (λ next. MatchOption next
            (pending (all_of self.old) ≡ no_trees)
            (λ t. pending (all_of self.old)
            ≡ concat (erase (tree (tree_of t.now) no_trees)) (pending (all_of self.new)))) }
        ensures visible { IfOk result (λ next. IfSome next (λ t. IsVisible (tree_of t.now))) }
        ensures smaller { IfOk result (λ next. IfSome next
            (λ t. tree_weight (tree_of t.now) + pending_weight (all_of self.new)
            ≤ pending_weight (all_of self.old))) }
    {
        loop {
            if let Some((first, rest)) = self.trees.split_first() {
                self.trees = rest;
                let Some(content) = invisible_content(first) else {
                    return Ok(Some(first));
                };
                self.outer.push(rest)?;
                self.trees = content.trees();
            } else {
                let Some(trees) = self.outer.pop() else {
                    return Ok(None);
                };
                self.trees = trees;
            }
        }
    }
}

// Returns the trees of an invisible group.
fn invisible_content(next: &TokenTree) -> Option<&TokenStream>
    ensures { MatchOption result
        (IsVisible (tree_of next.now))
        (λ inside. (span : Span) × (tree_of next.now ≡ invisible inside.now span)) }
{
    match next {
        TokenTree::Group(group) => match group.delimiter() {
            Delimiter::None => Some(group.stream()),
            _ => None,
        },
        _ => None,
    }
}
