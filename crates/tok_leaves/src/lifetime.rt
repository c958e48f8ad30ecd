//! Lifetimes.
ghost use Rattle.std.specs.Prelude.{◌≡◌, ◌++◌, ◌∷◌, codes, None, MatchOption, IfSome, IfOk, IfErr, Some};
ghost use Rattle.std.specs.Str.{chars, IsUtf8};
ghost use Rattle.tok_leaves.specs.Leaves.{ident, ident_of, leaf_span, leaf_text};
ghost use Rattle.tok_lexical.specs.Ascii.{apostrophe};
ghost use Rattle.tok_lexical.specs.Words.{has_no_raw};
ghost use Rattle.tok_leaves.specs.Lifetimes.{lifetime_fault_words, lifetime_fault, lifetime_text, name_fault, name_error, plain_error, raw_error, error_in};
ghost use Rattle.tok_leaves.specs.Spans.{covering};

use crate::ident::{Ident, MakeFault};
use crate::span::Span;
use std::alloc::{AllocError, Global};
use std::fmt;
use std::fmt::{Display, Formatter, Write};
use tok_lexical::text::next_char;
use tok_lexical::words::has_no_raw;

/// A lifetime, such as `'a`.
///
/// A lifetime consists of an apostrophe and an identifier, which may be a keyword or a raw
/// identifier. The operations `==`, `cmp` and `hash` use only the identifier of a lifetime, and
/// ignore its spans.
///
/// # Examples
///
/// ```rust
/// let lifetime = Lifetime::new(alloc, "'a", Span::call_site())?;
/// assert_eq!(rt; lifetime.ident.as_str(), "a");
/// ```
#[derive(Drop, Debug)]
#[derive_where(PartialEq, Eq, PartialOrd, Ord, Hash)]
pub struct Lifetime {
    #[derive_where(skip(EqHashOrd))]
    pub apostrophe: Span,
    pub ident: Ident,
}

/// An error that `Lifetime::new` can return.
///
/// Each variant except `Memory` stands for one of the rules N1 to N4 that reject a text.
#[derive(Clone, Copy, PartialEq, Eq, Debug)]
pub enum LifetimeFault {
    /// The text does not begin with an apostrophe (rule N1).
    NoApostrophe,
    /// The text ends directly after `'` or `'r#`, without a name (rule N2).
    Empty,
    /// The name is not an identifier (rule N3).
    NotIdentifier,
    /// The name after `'r#` is `_`, `self`, `Self`, `super` or `crate`, which have no raw form
    /// (rule N4).
    NoRaw,
    /// An allocation failed.
    Memory,
}

impl LifetimeFault {
    fn words(self) -> &'static str
        ensures { result.now ≡ lifetime_fault_words self }
    {
        match self {
            LifetimeFault::NoApostrophe => "lifetime without an apostrophe",
            LifetimeFault::Empty => "lifetime without a name",
            LifetimeFault::NotIdentifier => "lifetime whose name is no identifier",
            LifetimeFault::NoRaw => "lifetime whose raw name does not exist",
            LifetimeFault::Memory => "out of memory",
        }
    }
}

impl Display for LifetimeFault {
    ghost output = { λ fault. Some (lifetime_fault_words fault) };

    fn fmt<W: Write>(&self, f: &mut Formatter<W>) -> fmt::Result {
        f.write_str(self.words())
    }
}

impl std::error::Error for LifetimeFault {}

impl Lifetime {
    /// Creates a lifetime from its text, such as `'a` or `'r#a`.
    ///
    /// The apostrophe and the identifier both have the span `span`. If `symbol` is not a lifetime,
    /// the call returns the first variant of `LifetimeFault` that applies. Returns `Memory` if an
    /// allocation fails.
    pub fn new(alloc: Global, symbol: &str, span: Span) -> Result<Lifetime, LifetimeFault>
        ensures made { IfOk result (λ l. lifetime_fault (chars symbol.now) ≡ None) }
        ensures text { IfOk result (λ l. lifetime_text l ≡ symbol.now) }
        ensures spans { IfOk result
            (λ l. (l.apostrophe ≡ span) × (leaf_span (ident_of l.ident) ≡ span)) }
        ensures refused { IfErr result
            (λ fault. lifetime_fault (chars symbol.now) ≡ error_in fault) }
    {
        let Some(name) = past_apostrophe(symbol) else {
            return Err(LifetimeFault::NoApostrophe);
        };
        Ok(Lifetime {
            apostrophe: span,
            ident: identifier(alloc, name, span)?,
        })
    }

    /// Returns the span that covers the apostrophe and the identifier.
    ///
    /// If their spans are not in the same source, the call returns the span of the apostrophe.
    pub fn span(&self) -> Span
        ensures { result ≡ covering self.now.apostrophe (leaf_span (ident_of self.now.ident)) }
    {
        self.apostrophe
            .join(self.ident.span())
            .unwrap_or(self.apostrophe)
    }

    /// Sets the span of the apostrophe and of the identifier.
    pub fn set_span(&mut self, span: Span)
        ensures apostrophe { self.new.apostrophe ≡ span }
        ensures ident { ident_of self.new.ident ≡ ident (leaf_text (ident_of self.old.ident)) span }
    {
        self.apostrophe = span;
        self.ident.set_span(span);
    }
}

/// Copies the lifetime and its spans.
impl Clone for Lifetime {
    ghost is_clone = { λ l m. m ≡ l };

    fn clone(&self) -> Result<Lifetime, AllocError> {
        Ok(Lifetime {
            apostrophe: self.apostrophe,
            ident: self.ident.clone()?,
        })
    }
}

/// Writes the apostrophe and the text of the identifier.
impl Display for Lifetime {
    ghost use Rattle.std.specs.Prelude.{Some};
    ghost use Rattle.tok_leaves.specs.Lifetimes.{lifetime_text};

    ghost output = { λ l. Some (lifetime_text l) };

    fn fmt<W: Write>(&self, f: &mut Formatter<W>) -> fmt::Result {
        f.write_str("'")?;
        f.write_str(self.ident.as_str())
    }
}

// Removes a leading apostrophe.
fn past_apostrophe(symbol: &str) -> Option<&str>
    ensures chars { MatchOption result
        (lifetime_fault (chars symbol.now) ≡ Some LifetimeFault.NoApostrophe)
        (λ name. lifetime_fault (chars symbol.now) ≡ name_error (chars name.now)) }
    ensures bytes { IfSome result (λ name. symbol.now ≡ apostrophe ∷ name.now) }
    ensures utf8 { IfSome result (λ name. IsUtf8 name.now) }
{
    let (first, name) = next_char(symbol)?;
    if first == '\'' { Some(name) } else { None }
}

// Removes a leading `r#`.
fn past_raw(name: &str) -> Option<&str>
    ensures chars { MatchOption result
        (name_error (chars name.now) ≡ plain_error (chars name.now))
        (λ word. name_error (chars name.now) ≡ raw_error (chars word.now)) }
    ensures bytes { IfSome result (λ word. name.now ≡ codes "r#" ++ word.now) }
    ensures utf8 { IfSome result (λ word. IsUtf8 word.now) }
{
    let (first, after) = next_char(name)?;
    let (second, word) = next_char(after)?;
    if first == 'r' && second == '#' {
        Some(word)
    } else {
        None
    }
}

fn identifier(alloc: Global, name: &str, span: Span) -> Result<Ident, LifetimeFault>
    ensures made { IfOk result (λ i. name_error (chars name.now) ≡ None) }
    ensures value { IfOk result (λ i. ident_of i ≡ ident name.now span) }
    ensures refused { IfErr result (λ fault. name_error (chars name.now) ≡ error_in fault) }
{
    match past_raw(name) {
        Some(word) => raw_identifier(alloc, word, span),
        None => plain_identifier(alloc, name, span),
    }
}

fn plain_identifier(alloc: Global, name: &str, span: Span) -> Result<Ident, LifetimeFault>
    ensures made { IfOk result (λ i. plain_error (chars name.now) ≡ None) }
    ensures value { IfOk result (λ i. ident_of i ≡ ident name.now span) }
    ensures refused { IfErr result (λ fault. plain_error (chars name.now) ≡ error_in fault) }
{
    if name.is_empty() {
        return Err(LifetimeFault::Empty);
    }
    match Ident::new(alloc, name, span) {
        Ok(ident) => Ok(ident),
        Err(fault) => Err(name_fault(fault)),
    }
}

fn raw_identifier(alloc: Global, word: &str, span: Span) -> Result<Ident, LifetimeFault>
    ensures made { IfOk result (λ i. raw_error (chars word.now) ≡ None) }
    ensures value { IfOk result (λ i. ident_of i ≡ ident (codes "r#" ++ word.now) span) }
    ensures refused { IfErr result (λ fault. raw_error (chars word.now) ≡ error_in fault) }
{
    if has_no_raw(word) {
        return Err(LifetimeFault::NoRaw);
    }
    if word.is_empty() {
        return Err(LifetimeFault::Empty);
    }
    match Ident::new_raw(alloc, word, span) {
        Ok(ident) => Ok(ident),
        Err(fault) => Err(name_fault(fault)),
    }
}

// Converts the error of a name that isn't empty and can be raw.
fn name_fault(fault: MakeFault) -> LifetimeFault
    ensures { result ≡ name_fault fault }
{
    match fault {
        MakeFault::Refused => LifetimeFault::NotIdentifier,
        MakeFault::Memory => LifetimeFault::Memory,
    }
}
