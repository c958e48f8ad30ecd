//! Types for settings and their values.
ghost use Rattle.std.specs.Prelude.{codes};

use syn_parse::{Own, Word};
use syn_punctuated::Punctuated;
use tok_core::{Ident, Span};
use tok_types::token;

/// A list of settings with commas between them, and an optional comma after the last setting.
pub type Config = Punctuated<Setting, token::Comma>;

/// A setting, which consists of a key, a colon and a value.
#[cycle(values)]
#[derive(Drop)]
pub struct Setting {
    pub key: Ident,
    pub colon: token::Colon,
    pub value: Value,
}

/// The value of a setting, with its location in the text.
#[cycle(values)]
#[derive(Drop)]
pub enum Value {
    /// The text of a string literal.
    Text(Span, String),
    /// The value of an integer literal.
    Number(Span, u64),
    /// `true` or `false`.
    Truth(Span, bool),
    /// A list of values in brackets.
    List(token::Bracket, Punctuated<Value, token::Comma>),
    /// A map, which consists of settings in braces.
    Map(token::Brace, Config),
}

/// The word `include`, for the token type `Own<IncludeWord>`.
pub struct IncludeWord;

impl Word for IncludeWord {
    ghost text = { codes "include" };

    fn display() -> &'static str {
        "`include`"
    }
}

/// The keyword `include`, which can't be a key.
pub type Include = Own<IncludeWord>;

/// The word `true`, for the token type `Own<TrueWord>`.
pub struct TrueWord;

impl Word for TrueWord {
    ghost text = { codes "true" };

    fn display() -> &'static str {
        "`true`"
    }
}

/// The keyword `true`.
pub type True = Own<TrueWord>;

/// The word `false`, for the token type `Own<FalseWord>`.
pub struct FalseWord;

impl Word for FalseWord {
    ghost text = { codes "false" };

    fn display() -> &'static str {
        "`false`"
    }
}

/// The keyword `false`.
pub type False = Own<FalseWord>;
