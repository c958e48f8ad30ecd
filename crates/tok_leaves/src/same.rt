//! Compares identifiers, puncts and literals, including their spans.
//!
//! The functions of this module are inlined, because comparing two streams calls one of them for
//! each leaf.
ghost use Rattle.std.specs.Prelude.{◌≡◌, ◌↔◌, true};
ghost use Rattle.tok_leaves.specs.Leaves.{ident_of, literal_of, punct_of};

use crate::ident::Ident;
use crate::literal::Literal;
use crate::punct::Punct;

/// Returns `true` if both identifiers have the same text and span.
#[inline(always)]
pub fn same_ident(one: &Ident, other: &Ident) -> bool
    ensures { (result ≡ true) ↔ (ident_of one.now ≡ ident_of other.now) }
{
    one.as_str() == other.as_str() && one.span() == other.span()
}

/// Returns `true` if both literals have the same text and span.
#[inline(always)]
pub fn same_literal(left: &Literal, right: &Literal) -> bool
    ensures { (result ≡ true) ↔ (literal_of left.now ≡ literal_of right.now) }
{
    left.as_str() == right.as_str() && left.span() == right.span()
}

/// Returns `true` if both puncts have the same character, spacing and span.
#[inline(always)]
pub fn same_punct(left: Punct, right: Punct) -> bool
    ensures { (result ≡ true) ↔ (punct_of left ≡ punct_of right) }
{
    left.as_char() == right.as_char()
        && left.spacing() == right.spacing()
        && left.span() == right.span()
}
