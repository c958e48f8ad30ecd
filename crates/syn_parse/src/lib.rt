//! Parse streams, and the parsers of tokens and trees.
//!
//! A parser is a function `fn(ParseStream) -> Result<T>`. It reads values with `parse`, and looks
//! at the next tokens with `peek` and `lookahead1`. It enters groups with `within` or with a
//! function such as `parse_parens`, and tries alternatives on a `fork`.
//!
//! The trait `Parser` has methods that run a parser over a whole text or a whole stream of tokens.
#![tactic(auto)]

mod choice;
mod ext;
mod fault;
mod group;
pub mod laws;
mod lookahead;
mod many;
mod own;
mod parse;
mod parser;
pub mod parsing;
mod run;
mod step;
mod stream;
mod tokens;
mod trees;
mod visible;
mod whole;

pub use ext::{IdentExt, LifetimeExt};
pub use fault::{Fault, Result};
pub use group::{
    Braces, Brackets, Delimited, Group, Parens, parse_braces, parse_brackets, parse_group,
    parse_parens,
};
pub use lookahead::Lookahead1;
pub use own::{Own, Word};
pub use parse::Parse;
pub use parser::Parser;
pub use run::Run;
pub use step::StepCursor;
pub use stream::{ParseBuffer, ParseStream, Paused, tokens_to_parse_buffer};
pub use tokens::Nothing;
pub use whole::{parse_both, parse_source, parse_str, parse_text, parse2};
