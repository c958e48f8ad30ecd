//! Methods that convert a token into an identifier.
ghost use Rattle.std.specs.Prelude.{◌≡◌, ◌<◌, codes, length, IfOk};
ghost use Rattle.tok_leaves.specs.Leaves.{ident, ident_of};
ghost use Rattle.tok_types.specs.Printed.{first_span};
ghost use Rattle.tok_types.specs.Texts.{keyword_text, keywords};

use crate::keyword::Keyword;
use crate::texts::keyword_text;
use crate::token;
use crate::underscore::Underscore;
use std::alloc::{AllocError, Global};
use tok_core::Ident;
use tok_core::known::identifier;

impl<const K: usize> Keyword<K> {
    // Creates the identifier of a keyword in the table.
    fn ident(self, alloc: Global) -> Result<Ident, AllocError>
        requires { K < length keywords }
        ensures { IfOk result (λ i. ident_of i ≡ ident (keyword_text K) self.entry.span) }
    {
        identifier(alloc, keyword_text(K), self.span)
    }
}

impl token::SelfValue {
    /// Creates the identifier `self` with the span of this token.
    ///
    /// Returns an error if the allocation fails.
    pub fn into_ident(self, alloc: Global) -> Result<Ident, AllocError>
        ensures { IfOk result (λ i. ident_of i ≡ ident (codes "self") self.span) }
    {
        token::SelfValue::ident(self, alloc)
    }
}

impl token::SelfType {
    /// Creates the identifier `Self` with the span of this token.
    ///
    /// Returns an error if the allocation fails.
    pub fn into_ident(self, alloc: Global) -> Result<Ident, AllocError>
        ensures { IfOk result (λ i. ident_of i ≡ ident (codes "Self") self.span) }
    {
        token::SelfType::ident(self, alloc)
    }
}

impl token::Super {
    /// Creates the identifier `super` with the span of this token.
    ///
    /// Returns an error if the allocation fails.
    pub fn into_ident(self, alloc: Global) -> Result<Ident, AllocError>
        ensures { IfOk result (λ i. ident_of i ≡ ident (codes "super") self.span) }
    {
        token::Super::ident(self, alloc)
    }
}

impl token::Crate {
    /// Creates the identifier `crate` with the span of this token.
    ///
    /// Returns an error if the allocation fails.
    pub fn into_ident(self, alloc: Global) -> Result<Ident, AllocError>
        ensures { IfOk result (λ i. ident_of i ≡ ident (codes "crate") self.span) }
    {
        token::Crate::ident(self, alloc)
    }
}

impl token::Extern {
    /// Creates the identifier `extern` with the span of this token.
    ///
    /// Returns an error if the allocation fails.
    pub fn into_ident(self, alloc: Global) -> Result<Ident, AllocError>
        ensures { IfOk result (λ i. ident_of i ≡ ident (codes "extern") self.span) }
    {
        token::Extern::ident(self, alloc)
    }
}

impl Underscore {
    /// Creates the identifier `_` with the span of this token.
    ///
    /// Returns an error if the allocation fails.
    pub fn into_ident(self, alloc: Global) -> Result<Ident, AllocError>
        ensures { IfOk result (λ i. ident_of i ≡ ident (codes "_") (first_span self.spans)) }
    {
        identifier(alloc, "_", self.spans[0])
    }
}
