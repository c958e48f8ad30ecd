//! Finds the first token, comment or white space of a text according to Rust's lexical grammar. If
//! the grammar rejects a token or a comment, the crate also finds the reason.
//!
//! The definitions in `specs/` are the grammar. This crate does not use token trees.
#![tactic(auto)]

mod char_literals;
pub mod classes;
pub mod comments;
mod contents;
mod delimiter;
mod edition;
mod errors;
mod escapes;
mod floats;
pub mod joint;
pub mod laws;
mod lex_error_kind;
mod numbers;
mod prefixes;
mod quoted;
mod raw;
mod raw_quotes;
mod rule;
pub mod scan;
pub mod source;
mod start;
mod strings;
pub mod text;
pub mod words;

pub use contents::{Contents, has_return};
pub use delimiter::Delimiter;
pub use edition::Edition;
pub use errors::error_kind;
pub use lex_error_kind::LexErrorKind;
pub use numbers::Base;
pub use quoted::{QuotedFault, quoted_fault};
pub use raw_quotes::in_raw_quotes;
pub use rule::{Mode, Rule, first_rule, past_told_identifier, past_told_punct};
