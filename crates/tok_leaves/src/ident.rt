//! Identifiers.
ghost use Rattle.std.specs.Prelude.{◌≡◌, ◌++◌, ◌≤◌, length, codes, IfOk, IfErr, SomeIff, Err, Some};
ghost use Rattle.std.specs.Str.{chars};
ghost use Rattle.tok_leaves.specs.Leaves.{ident, ident_of, leaf_span, leaf_text, make_fault_words, most_short, unraw};
ghost use Rattle.tok_lexical.specs.Words.{IsIdentifier, HasRaw};

use crate::span::Span;
use crate::text::Text;
use std::alloc::{AllocError, Global};
use std::fmt::{self, Display, Formatter, Write};
use tok_lexical::words::{has_no_raw, is_identifier};

/// An identifier or a keyword. The text of a raw identifier begins with `r#`.
///
/// The operations `==`, `cmp` and `hash` use only the text of an identifier, and ignore its span.
///
/// # Examples
///
/// ```rust
/// let name = Ident::new(alloc, "size", Span::call_site())?;
/// assert_eq!(rt; name.as_str(), "size");
/// let raw = Ident::new_raw(alloc, "fn", Span::call_site())?;
/// assert_eq!(rt; raw.as_str(), "r#fn");
/// ```
#[derive(Drop, Debug)]
#[derive_where(PartialEq, Eq, PartialOrd, Ord, Hash)]
pub struct Ident {
    text: Text,
    #[derive_where(skip(EqHashOrd))]
    span: Span,
}

/// An error that `Ident::new` and `Ident::new_raw` can return.
#[derive(Clone, Copy, PartialEq, Eq, Debug)]
pub enum MakeFault {
    /// The text is not an identifier. For `Ident::new_raw`, the text may also be a word without a
    /// raw form, such as `self`.
    Refused,
    /// An allocation failed.
    Memory,
}

impl From<AllocError> for MakeFault {
    ghost use Rattle.tok_leaves.specs.declared.ident.MakeFault.TheVariants.{Memory};

    ghost from_gives = { λ _ fault. fault ≡ Memory };

    fn from(_: AllocError) -> Self {
        MakeFault::Memory
    }
}

impl MakeFault {
    fn words(self) -> &'static str
        ensures { result.now ≡ make_fault_words self }
    {
        match self {
            MakeFault::Refused => "not an identifier, or one without a raw form",
            MakeFault::Memory => "out of memory",
        }
    }
}

impl Display for MakeFault {
    ghost output = { λ fault. Some (make_fault_words fault) };

    fn fmt<W: Write>(&self, f: &mut Formatter<W>) -> fmt::Result {
        f.write_str(self.words())
    }
}

impl std::error::Error for MakeFault {}

// Removes a leading `r#`.
fn without_raw(text: &str) -> &str
    ensures { result.now ≡ unraw text.now }
{
    text.strip_prefix("r#").unwrap_or(text)
}

impl Ident {
    /// Creates an identifier or a keyword from its text.
    ///
    /// The first character of `text` must be `_` or an XID_Start character, and the other
    /// characters must be XID_Continue characters. Returns `Refused` for any other text. To find
    /// the reason, call `IdentFault::of`. Returns `Memory` if the allocation fails.
    pub fn new(alloc: Global, text: &str, span: Span) -> Result<Ident, MakeFault>
        ensures made { IfOk result (λ i. ident_of i ≡ ident text.now span) }
        ensures takes { IsIdentifier (chars text.now)
            → IfErr result (λ fault. fault ≡ MakeFault.Memory) }
        ensures refuses { (IsIdentifier (chars text.now) → ⊥) → result ≡ Err MakeFault.Refused }
    {
        if !is_identifier(text) {
            return Err(MakeFault::Refused);
        }
        let text = Text::from_str(alloc, text)?;
        Ok(Ident::unchecked(text, span))
    }

    /// Creates a raw identifier, whose text consists of `r#` and `text`.
    ///
    /// Returns `Refused` if `text` is not an identifier, or is one of `_`, `self`, `Self`, `super`
    /// and `crate`, which have no raw form. To find the reason, call `IdentFault::of_raw`. Returns
    /// `Memory` if an allocation fails.
    pub fn new_raw(alloc: Global, text: &str, span: Span) -> Result<Ident, MakeFault>
        ensures made { IfOk result (λ i. ident_of i ≡ ident (codes "r#" ++ text.now) span) }
        ensures takes { HasRaw (chars text.now) → IfErr result (λ fault. fault ≡ MakeFault.Memory) }
        ensures refuses { (HasRaw (chars text.now) → ⊥) → result ≡ Err MakeFault.Refused }
    {
        if !is_identifier(text) || has_no_raw(text) {
            return Err(MakeFault::Refused);
        }
        let mut raw = String::with_capacity(alloc, text.len().saturating_add(2))?;
        raw.push_str("r#")?;
        raw.push_str(text)?;
        Ok(Ident::unchecked(Text::from_string(alloc, raw)?, span))
    }

    // Doesn't test the text.
    pub(crate) fn unchecked(text: Text, span: Span) -> Ident
        ensures { ident_of result ≡ ident text span }
    {
        Ident { text, span }
    }

    /// Returns the text of the identifier, which begins with `r#` if the identifier is raw.
    pub fn as_str(&self) -> &str
        ensures { result.now ≡ leaf_text (ident_of self.now) }
    {
        self.text.as_str()
    }

    /// Returns a copy of the identifier's text, which begins with `r#` if the identifier is raw.
    ///
    /// Returns an error if an allocation fails.
    pub fn to_text(&self) -> Result<Text, AllocError>
        ensures { IfOk result (λ t. t ≡ leaf_text (ident_of self.now)) }
    {
        self.text.clone()
    }

    /// Returns a copy of the identifier if its text has at most 14 bytes.
    ///
    /// Returns `None` if the text is longer. The call does not allocate.
    #[inline(always)]
    pub fn copied_if_short(&self) -> Option<Ident>
        ensures { SomeIff result (length (leaf_text (ident_of self.now)) ≤ most_short) self.now }
    {
        let text = self.text.copied_if_short()?;
        let span = self.span;
        Some(Ident { text, span })
    }

    /// Returns the span of the identifier.
    pub fn span(&self) -> Span
        ensures { result ≡ leaf_span (ident_of self.now) }
    {
        self.span
    }

    /// Sets the span of the identifier.
    pub fn set_span(&mut self, span: Span)
        ensures { ident_of self.new ≡ ident (leaf_text (ident_of self.old)) span }
    {
        self.span = span;
    }

    /// Returns a copy of the identifier without a leading `r#`. The copy has the same span.
    ///
    /// Returns an error if the allocation fails.
    pub fn unraw(&self, alloc: Global) -> Result<Ident, AllocError>
        ensures { IfOk result (λ i. ident_of i
            ≡ ident (unraw (leaf_text (ident_of self.now))) (leaf_span (ident_of self.now))) }
    {
        let text = Text::from_str(alloc, without_raw(self.as_str()))?;
        Ok(Ident::unchecked(text, self.span))
    }
}

/// Copies the identifier and its span.
impl Clone for Ident {
    ghost is_clone = { λ i j. j ≡ i };

    #[inline(always)]
    fn clone(&self) -> Result<Ident, AllocError> {
        Ok(Ident {
            text: self.text.clone()?,
            span: self.span,
        })
    }
}

/// Writes the text of the identifier.
impl Display for Ident {
    ghost output = { λ i. Some (leaf_text (ident_of i)) };

    fn fmt<W: Write>(&self, f: &mut Formatter<W>) -> fmt::Result {
        f.write_str(self.as_str())
    }
}
