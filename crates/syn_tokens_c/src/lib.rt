//! The library for callers in C and Rust. Its calls read texts into arrays of plain structs, and
//! run commands over tokens.
//!
//! A caller can also pass its own tokens as such an array. Each call writes into memory that the
//! caller lends, except for `syn_tokens_open`. That call writes into memory of the library, which
//! the caller holds with a handle.
//!
//! # Rules for callers
//!
//! The contracts can't check that a caller follows these rules:
//!
//! - A slice is passed as a pointer and a length. The pointer must be non-null and aligned, even if
//!   the length is zero. It must point to as many elements as the length says.
//! - Two parameters must not share memory. However, a text may be passed to several calls at the
//!   same time.
//! - A handle must be null, or unchanged since a call wrote it. It must not be copied, and must be
//!   passed to only one call at a time.
//! - The memory that a handle holds must not be written to. After the handle is closed or opened
//!   again, this memory must not be read.
//! - `malloc`, `realloc` and `free` must belong to the same allocator. They must align a block to
//!   each power of two up to 16 that divides the size of the block.
//! - The caller's structs must have the same layout as the structs of this crate. The calls whose
//!   names begin with `syn_tokens_sample` check this.
#![tactic(auto)]

mod cursor;
mod flat;
mod handle;
mod judge;
mod kept;
pub mod laws;
mod lines;
mod loose;
mod open;
mod read;
mod replay;
mod respond;
mod rules;
mod sample;
mod value;

pub use cursor::{
    syn_tokens_group, syn_tokens_ident, syn_tokens_lifetime, syn_tokens_literal, syn_tokens_punct,
    syn_tokens_skip,
};
pub use entry_outcomes::{Message, Outcome};
pub use flat::FlatArgument;
pub use handle::{Handle, syn_tokens_close};
pub use judge::syn_tokens_arguments;
pub use lines::syn_tokens_lines;
pub use open::{Opened, syn_tokens_open};
pub use read::{Reading, syn_tokens_lex, syn_tokens_lex_marked, syn_tokens_lex_source};
pub use replay::syn_tokens_replay;
pub use respond::syn_tokens_respond;
pub use sample::{
    syn_tokens_sample, syn_tokens_sample_answers, syn_tokens_sample_opened,
    syn_tokens_sample_places,
};
pub use tok_carets::LineColumn;
pub use tok_entries::Entry;
pub use tok_entries::cursor::Step;
pub use value::{LiteralValue, syn_tokens_value};
