//! Functions that peek for a target that is known only at run time.
ghost use Rattle.std.specs.Prelude.{◌≡◌};
ghost use Rattle.tok_buffer.specs.Cursors.{place_of};
ghost use Rattle.syn_replay.specs.Meanings.{kind_of, look_of};
ghost use Rattle.syn_replay.specs.Kinds as spec;

use crate::command::{Kind, Look};
use tok_buffer::{Cursor, Lifetime};
use tok_core::{Group, Ident, Literal, Punct, TokenTree};
use tok_types::token::{
    self, Token, Underscore, keyword_display, keyword_text, punctuation_display, punctuation_text,
};
use tok_types::{End, IdentAny};

impl Look {
    /// Returns `true` if this target is next at the cursor.
    pub fn peek(self, cursor: Cursor<'_>) -> bool
        ensures { result ≡ spec.peek (look_of self) (place_of cursor.entry) }
    {
        match self {
            Look::Kind(kind) => kind.peek(cursor),
            Look::Paren => token::Paren::peek(cursor),
            Look::Brace => token::Brace::peek(cursor),
            Look::Bracket => token::Bracket::peek(cursor),
            Look::End => End::peek(cursor),
            Look::Group => token::Group::peek(cursor),
            Look::GroupTree => <Group as Token>::peek(cursor),
            Look::Tree => <TokenTree as Token>::peek(cursor),
        }
    }

    /// Returns `true` if this target comes after the next token.
    pub fn peek2(self, cursor: Cursor<'_>) -> bool
        ensures { result ≡ spec.peek2 (look_of self) (place_of cursor.entry) }
    {
        match cursor.skip() {
            Some(second) => self.peek(second),
            None => false,
        }
    }

    /// Returns `true` if this target comes after the next two tokens.
    pub fn peek3(self, cursor: Cursor<'_>) -> bool
        ensures { result ≡ spec.peek3 (look_of self) (place_of cursor.entry) }
    {
        match cursor.skip() {
            Some(second) => self.peek2(second),
            None => false,
        }
    }

    /// Returns the name of this target for the error message of a lookahead.
    pub fn display(self) -> &'static str
        ensures { result.now ≡ spec.display (look_of self) }
    {
        match self {
            Look::Kind(kind) => kind.display(),
            Look::Paren => token::Paren::display(),
            Look::Brace => token::Brace::display(),
            Look::Bracket => token::Bracket::display(),
            Look::End => End::display(),
            Look::Group => token::Group::display(),
            Look::GroupTree => <Group as Token>::display(),
            Look::Tree => <TokenTree as Token>::display(),
        }
    }
}

impl Kind {
    /// Returns `true` if the next token is of this kind. For the kind `Lifetime`, a lifetime may
    /// have any name.
    pub fn peek(self, cursor: Cursor<'_>) -> bool
        ensures { result ≡ spec.peek_kind (kind_of self) (place_of cursor.entry) }
    {
        match self {
            Kind::Ident => <Ident as Token>::peek(cursor),
            Kind::IdentAny => IdentAny::peek(cursor),
            Kind::Lifetime | Kind::LifetimeAny => <Lifetime as Token>::peek(cursor),
            Kind::Literal => <Literal as Token>::peek(cursor),
            Kind::Punct => <Punct as Token>::peek(cursor),
            Kind::Underscore => Underscore::peek(cursor),
            Kind::Keyword(k) => cursor.peek_keyword(keyword_text(k)),
            Kind::Punctuation(k) => cursor.peek_punct(punctuation_text(k)),
        }
    }

    /// Returns the name of this kind for the error message of a lookahead.
    pub fn display(self) -> &'static str
        ensures { result.now ≡ spec.display_kind (kind_of self) }
    {
        match self {
            Kind::Ident => <Ident as Token>::display(),
            Kind::IdentAny => IdentAny::display(),
            Kind::Lifetime | Kind::LifetimeAny => <Lifetime as Token>::display(),
            Kind::Literal => <Literal as Token>::display(),
            Kind::Punct => <Punct as Token>::display(),
            Kind::Underscore => Underscore::display(),
            Kind::Keyword(k) => keyword_display(k),
            Kind::Punctuation(k) => punctuation_display(k),
        }
    }
}
