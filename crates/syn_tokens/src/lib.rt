//! Tokens, token buffers and parse streams, with the names and paths of the crate `syn`.
//!
//! This crate re-exports the public items of the crates that implement the library, so that a user
//! depends on only one crate. Its `specs/` folder re-exports the definitions of these crates under
//! their names.
#![tactic(auto)]

pub mod laws;

pub use syn_literals::{
    LitBool, LitFloat, LitInt, LitStr, SignedFloat, SignedInt, signed_float_value, signed_int_value,
};
pub use syn_parse::{
    Fault, Own, Result, Word, parse_both, parse_source, parse_str, parse_text, parse2, parsing,
};
pub use syn_punctuated as punctuated;
pub use syn_replay::{
    Answer, BothTexts, Command, Kind, Line, Look, Misuse, Piece, Position, Report, Separator,
    Verdict, agree, is_self_contained, is_transparent, replay, replay_both, replay_both_texts,
    replay_onto,
};
pub use tok_buffer::{Error, Lifetime, LifetimeFault, error};
pub use tok_core::{
    DelimSpan, Delimiter, Edition, Group, Ident, IdentFault, IntegerType, LexError, LexFault,
    Literal, LiteralFault, MakeFault, Punct, Spacing, Span, Text, ToTokens, TokenStream,
    TokenStreamHelper, TokenTree, TokenTreeHelper, is_clear, is_filled, lex, lex_marked,
    lex_source, same_visible,
};
pub use tok_pruned::prune;
pub use tok_types::{accept_as_ident, token};
pub use visible_parse::{parse_visible, parse_visible_both, parse_visible_with};
pub use visible_replay::{visible_replay, visible_replay_both};

/// Token buffers, and cursors over the tokens of a buffer.
pub mod buffer {
    pub use tok_buffer::{Cursor, LifetimeRef, TokenBuffer};
}

/// Token streams as arrays of plain structs, for callers in C and for procedural macros.
pub mod entries {
    pub use tok_entries::{Entry, EntryFault, LexedEntries, Refusal, write_entries};
}

/// Extension traits for identifiers, lifetimes and literals.
pub mod ext {
    pub use syn_parse::{IdentExt, LifetimeExt};
    pub use tok_types::IdentAny;
    pub use tok_values::{Integer, IntegerFault, LiteralExt, NumberFault, bool_value};
}

/// Types that display an error together with the line that the error is about.
pub mod carets {
    pub use tok_carets::{IndexedSource, LineColumn, LineIndex, Source, line_column};
}

/// Functions that enter a group and return a stream of its contents.
pub mod group {
    pub use syn_parse::{
        Braces, Brackets, Delimited, Group, Parens, parse_braces, parse_brackets, parse_group,
        parse_parens,
    };
}

/// Parse streams, and traits for types and functions that parse tokens from a stream.
pub mod parse {
    pub use syn_choices::{Either, NotNext, OneOf, ParseBufferExt, Then};
    pub use syn_parse::{
        Fault, Lookahead1, Nothing, Parse, ParseBuffer, ParseStream, Parser, Paused, Result,
        StepCursor, tokens_to_parse_buffer,
    };
    pub use tok_buffer::Error;
    pub use tok_types::End;
}

/// Enters the next group, which must be in parentheses, and returns the token of its parentheses.
///
/// The macro stores a stream of the group's contents in a variable, which must be declared before
/// the call. The enclosing function must return a `Result`, because the macro uses `?`.
#[macro_export]
macro_rules! parenthesized {
    ($content:ident in $input:expr) => {{
        let parens = $crate::group::parse_parens($input)?;
        let $crate::group::Parens { token, content: inner } = parens;
        $content = inner;
        token
    }};
}

/// Enters the next group, which must be in braces, and returns the token of its braces.
///
/// The macro stores a stream of the group's contents in the same way as `parenthesized!`.
#[macro_export]
macro_rules! braced {
    ($content:ident in $input:expr) => {{
        let braces = $crate::group::parse_braces($input)?;
        let $crate::group::Braces { token, content: inner } = braces;
        $content = inner;
        token
    }};
}

/// Enters the next group, which must be in brackets, and returns the token of its brackets.
///
/// The macro stores a stream of the group's contents in the same way as `parenthesized!`.
#[macro_export]
macro_rules! bracketed {
    ($content:ident in $input:expr) => {{
        let brackets = $crate::group::parse_brackets($input)?;
        let $crate::group::Brackets { token, content: inner } = brackets;
        $content = inner;
        token
    }};
}
