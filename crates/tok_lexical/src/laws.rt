//! Laws about the types of the grammar. Each law is the contract of a function that does nothing.
ghost use Rattle.std.specs.Prelude.{◌≡◌, ◌∷◌, ◌↔◌, List, None, Option, ℕ};
ghost use Rattle.std.specs.Hash as fed;
ghost use Rattle.std.specs.Ordering.{nat_cmp};
ghost use Rattle.tok_lexical.specs.Ascii.{apostrophe, quote};
ghost use Rattle.tok_lexical.specs.Laws.{ClonesKeep, EqualAsValues, HashedBy, OrderAgrees, OrderedBy, edition_number};
ghost use Rattle.tok_lexical.specs.Pieces.{HasPrefix};
ghost use Rattle.tok_lexical.specs.QuotedFaults.{IsCharFault, IsQuotedFault, IsRawFault, IsStringFault, OpensRaw};
ghost use Rattle.tok_lexical.specs.Raw.{IsRawString};
ghost use Rattle.tok_lexical.specs.Strings.{IsByte, IsChar, IsQuoted, IsString};
ghost use Rattle.tok_lexical.specs.declared.contents.Contents.{Contents};
ghost use Rattle.tok_lexical.specs.declared.contents.Contents.TheVariants.{Text, Bytes};
ghost use Rattle.tok_lexical.specs.declared.edition.Edition.{Edition};
ghost use Rattle.tok_lexical.specs.declared.edition.Edition.TheVariants.{Edition2021};
ghost use Rattle.tok_lexical.specs.declared.quoted.QuotedFault.{QuotedFault};

use crate::contents::Contents;
use crate::delimiter::Delimiter;
use crate::edition::Edition;
use crate::lex_error_kind::LexErrorKind;
use crate::numbers::Base;
use crate::quoted::QuotedFault;
use crate::rule::{Mode, Rule};
use std::hash::Hash;

/// Two values `a` and `b` of type `Edition`, `Delimiter`, `LexErrorKind` or `QuotedFault` are the
/// same value if and only if `a == b`.
pub fn kinds_are_compared_whole()
    ensures editions { EqualAsValues ⟦<Edition as PartialEq>⟧.eq }
    ensures delimiters { EqualAsValues ⟦<Delimiter as PartialEq>⟧.eq }
    ensures errors { EqualAsValues ⟦<LexErrorKind as PartialEq>⟧.eq }
    ensures faults { EqualAsValues ⟦<QuotedFault as PartialEq>⟧.eq }
{}

/// For two editions `a` and `b`, `a.cmp(&b)` compares their years.
///
/// `a.cmp(&b)` is `Equal` if and only if `a == b`, and `a.partial_cmp(&b)` is `Some(a.cmp(&b))`.
/// The hash of an edition depends only on its position in this order. The default edition is 2021.
pub fn editions_by_year()
    ensures order { OrderedBy edition_number nat_cmp ⟦<Edition as Ord>⟧.cmp }
    ensures agree { OrderAgrees ⟦<Edition as PartialEq>⟧.eq ⟦<Edition as Ord>⟧.cmp
        ⟦<Edition as PartialOrd>⟧.partial_cmp }
    ensures hash { HashedBy edition_number fed.usize ⟦<Edition as Hash>⟧.hash_input }
    ensures default { (edition : Edition) → ⟦<Edition as Default>⟧.is_default edition
        → edition ≡ Edition2021 }
{}

/// A clone of an `Edition`, `Mode`, `Rule`, `Delimiter`, `Contents`, `Base`, `LexErrorKind` or
/// `QuotedFault` equals the original.
pub fn clones_keep_rules()
    ensures editions { ClonesKeep ⟦<Edition as Clone>⟧.is_clone }
    ensures modes { ClonesKeep ⟦<Mode as Clone>⟧.is_clone }
    ensures rules { ClonesKeep ⟦<Rule as Clone>⟧.is_clone }
    ensures delimiters { ClonesKeep ⟦<Delimiter as Clone>⟧.is_clone }
    ensures contents { ClonesKeep ⟦<Contents as Clone>⟧.is_clone }
    ensures bases { ClonesKeep ⟦<Base as Clone>⟧.is_clone }
    ensures errors { ClonesKeep ⟦<LexErrorKind as Clone>⟧.is_clone }
    ensures faults { ClonesKeep ⟦<QuotedFault as Clone>⟧.is_clone }
{}

/// A text that begins with the opening quote of a literal has no `QuotedFault` if and only if the
/// grammar accepts a literal at its start.
///
/// A text has at most one `QuotedFault`.
pub fn quoted_faults_tell()
    ensures strings { (contents : Contents) → (before text : List ℕ)
        → (found : Option (QuotedFault × ℕ)) → IsStringFault contents before text found
        → (found ≡ None) ↔ HasPrefix (IsString contents) (quote ∷ text) }
    ensures characters { (before text : List ℕ) → (found : Option (QuotedFault × ℕ))
        → IsCharFault IsChar Text before text found
        → (found ≡ None) ↔ HasPrefix (IsQuoted IsChar) (apostrophe ∷ text) }
    ensures bytes { (before text : List ℕ) → (found : Option (QuotedFault × ℕ))
        → IsCharFault IsByte Bytes before text found
        → (found ≡ None) ↔ HasPrefix (IsQuoted IsByte) (apostrophe ∷ text) }
    ensures raws { (contents : Contents) → (text hashes rest : List ℕ)
        → (found : Option (QuotedFault × ℕ)) → OpensRaw contents text hashes rest
        → IsRawFault hashes rest found → (found ≡ None) ↔ HasPrefix (IsRawString contents) text }
    ensures one_of_strings { (contents : Contents) → (before text : List ℕ)
        → (one other : Option (QuotedFault × ℕ)) → IsStringFault contents before text one
        → IsStringFault contents before text other → one ≡ other }
    ensures one_of_characters { (before text : List ℕ) → (one other : Option (QuotedFault × ℕ))
        → IsCharFault IsChar Text before text one → IsCharFault IsChar Text before text other
        → one ≡ other }
    ensures one_of_bytes { (before text : List ℕ) → (one other : Option (QuotedFault × ℕ))
        → IsCharFault IsByte Bytes before text one → IsCharFault IsByte Bytes before text other
        → one ≡ other }
    ensures one_of_raws { (hashes text : List ℕ) → (one other : Option (QuotedFault × ℕ))
        → IsRawFault hashes text one → IsRawFault hashes text other → one ≡ other }
    ensures one_fault { (text : List ℕ) → (one other : Option (QuotedFault × ℕ))
        → IsQuotedFault text one → IsQuotedFault text other → one ≡ other }
{}
