//! Laws about comparing, ordering, hashing and cloning. Each law is the contract of a function that
//! does nothing, or only compares.
ghost use Rattle.std.specs.Prelude.{◌≡◌, ◌↔◌, ℕ, List, true, bytes_eq};
ghost use Rattle.std.specs.Ordering.{nat_cmp};
ghost use Rattle.std.specs.Cmp.Lexicographic.{slice_cmp};
ghost use Rattle.std.specs.declared.cmp.Ordering.TheVariants.{Equal};
ghost use Rattle.tok_lexical.specs.Laws.{ClonesKeep, EqualAsValues};
ghost use Rattle.tok_leaves.specs.IdentFaults.{FaultsTellCharacters, FaultsTellIdentifiers, FaultsTellRawForms};
ghost use Rattle.tok_leaves.specs.Laws.{IsByText, text_of};
ghost use Rattle.tok_leaves.specs.Lifetimes.{name_of};

use crate::ident::{Ident, MakeFault};
use crate::ident_fault::IdentFault;
use crate::integer_type::IntegerType;
use crate::lifetime::{Lifetime, LifetimeFault};
use crate::literal::Literal;
use crate::literal_fault::LiteralFault;
use crate::punct::{Punct, Spacing};
use crate::span::{Bounds, DelimSpan, Span};
use crate::text::Text;
use std::cmp::Ordering;
use std::hash::Hash;

/// For two identifiers `a` and `b`, `a == b` if and only if their texts are equal, and `a.cmp(&b)`
/// compares their texts.
///
/// `a.cmp(&b)` is `Equal` if and only if `a == b`, and `a.partial_cmp(&b)` is `Some(a.cmp(&b))`.
/// The hash of an identifier depends only on its text.
pub fn idents_by_text()
    ensures { IsByText text_of ⟦<Ident as PartialEq>⟧.eq ⟦<Ident as Ord>⟧.cmp
        ⟦<Ident as PartialOrd>⟧.partial_cmp ⟦<Ident as Hash>⟧.hash_input }
{}

/// Returns `left == right` and `left.cmp(right)`, which depend only on the names of the two
/// lifetimes.
///
/// `left == right` if and only if `left.cmp(right)` is `Equal`.
pub fn lifetimes_in_order(left: &Lifetime, right: &Lifetime) -> (bool, Ordering)
    ensures names { (x : List ℕ) → (y : List ℕ)
        → (bytes_eq x y ≡ true) ↔ (slice_cmp nat_cmp x y ≡ Equal) }
    ensures equal { result.0 ≡ bytes_eq (name_of left.now) (name_of right.now) }
    ensures order { result.1 ≡ slice_cmp nat_cmp (name_of left.now) (name_of right.now) }
{
    (left == right, left.cmp(right))
}

/// For two lifetimes `a` and `b`, `a == b` if and only if their names are equal, and `a.cmp(&b)`
/// compares their names.
///
/// `a.cmp(&b)` is `Equal` if and only if `a == b`, and `a.partial_cmp(&b)` is `Some(a.cmp(&b))`.
/// The hash of a lifetime depends only on its name.
pub fn lifetimes_by_name()
    ensures { IsByText name_of ⟦<Lifetime as PartialEq>⟧.eq ⟦<Lifetime as Ord>⟧.cmp
        ⟦<Lifetime as PartialOrd>⟧.partial_cmp ⟦<Lifetime as Hash>⟧.hash_input }
{}

/// `IdentFault::of(text)` returns `None` if and only if `text` is an identifier.
/// `IdentFault::of_raw(text)` returns `None` if and only if `text` is an identifier with a raw
/// form.
///
/// If one of these calls returns `IdentFault::Character`, the fault contains the first character of
/// `text` that cannot stand at its position.
pub fn ident_faults_tell()
    ensures identifiers { FaultsTellIdentifiers }
    ensures raw_forms { FaultsTellRawForms }
    ensures characters { FaultsTellCharacters }
{}

/// Two values `a` and `b` of type `Span`, `DelimSpan`, `Spacing`, `IntegerType` or a fault type are
/// the same value if and only if `a == b`.
///
/// The fault types are `MakeFault`, `LifetimeFault`, `IdentFault` and `LiteralFault`.
pub fn spans_are_compared_whole()
    ensures spans { EqualAsValues ⟦<Span as PartialEq>⟧.eq }
    ensures group_spans { EqualAsValues ⟦<DelimSpan as PartialEq>⟧.eq }
    ensures spacings { EqualAsValues ⟦<Spacing as PartialEq>⟧.eq }
    ensures faults { EqualAsValues ⟦<MakeFault as PartialEq>⟧.eq }
    ensures lifetime_faults { EqualAsValues ⟦<LifetimeFault as PartialEq>⟧.eq }
    ensures ident_faults { EqualAsValues ⟦<IdentFault as PartialEq>⟧.eq }
    ensures integer_types { EqualAsValues ⟦<IntegerType as PartialEq>⟧.eq }
    ensures literal_faults { EqualAsValues ⟦<LiteralFault as PartialEq>⟧.eq }
{}

/// A clone of an identifier, a punct, a literal, a lifetime, a text, a span, an integer type or a
/// fault equals the original, including its spans.
pub fn clones_keep_all()
    ensures idents { ClonesKeep ⟦<Ident as Clone>⟧.is_clone }
    ensures puncts { ClonesKeep ⟦<Punct as Clone>⟧.is_clone }
    ensures literals { ClonesKeep ⟦<Literal as Clone>⟧.is_clone }
    ensures lifetimes { ClonesKeep ⟦<Lifetime as Clone>⟧.is_clone }
    ensures texts { ClonesKeep ⟦<Text as Clone>⟧.is_clone }
    ensures spans { ClonesKeep ⟦<Span as Clone>⟧.is_clone }
    ensures group_spans { ClonesKeep ⟦<DelimSpan as Clone>⟧.is_clone }
    ensures bounds { ClonesKeep ⟦<Bounds as Clone>⟧.is_clone }
    ensures spacings { ClonesKeep ⟦<Spacing as Clone>⟧.is_clone }
    ensures faults { ClonesKeep ⟦<MakeFault as Clone>⟧.is_clone }
    ensures lifetime_faults { ClonesKeep ⟦<LifetimeFault as Clone>⟧.is_clone }
    ensures ident_faults { ClonesKeep ⟦<IdentFault as Clone>⟧.is_clone }
    ensures integer_types { ClonesKeep ⟦<IntegerType as Clone>⟧.is_clone }
    ensures literal_faults { ClonesKeep ⟦<LiteralFault as Clone>⟧.is_clone }
{}
