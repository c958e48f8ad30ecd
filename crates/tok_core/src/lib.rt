//! Token trees, and a lexer that reads a text into token trees.
//!
//! A token tree is an identifier, a punct, a literal or a group, and has a span. Contracts describe
//! a token stream as a forest (`specs/Forest.antt`). The crate `tok_leaves` defines identifiers,
//! puncts and literals.
#![tactic(auto)]

mod group;
mod invisible;
pub mod laws;
mod lexer;
mod print;
pub mod room;
mod stream;
mod to_tokens;
mod tt;

pub use group::Group;
pub use invisible::{is_clear, is_filled, same_visible};
pub use lexer::{Build, LexError, LexFault, MOST_LEVELS, lex, lex_marked, lex_source, read};
pub use stream::{TokenStream, TokenTree};
pub use to_tokens::ToTokens;
pub use tok_leaves::{
    DelimSpan, Delimiter, Ident, IdentFault, IntegerType, Lifetime, LifetimeFault, Literal,
    LiteralFault, MakeFault, Punct, Spacing, Span, Text, same,
};
pub use tok_lexical::Edition;
pub use tt::{TokenStreamHelper, TokenTreeHelper};

/// Creates identifiers and puncts from texts that the caller has proved to be valid.
pub mod known {
    pub use tok_leaves::known::{identifier, punct};
}
