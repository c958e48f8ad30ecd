//! Token streams as flat arrays of plain structs, for C and for the macros of a compiler.
//!
//! The function `write_entries` converts a stream to an array. `LexedEntries` lexes a text into an
//! array, and `read_entries` reads an array.
#![tactic(auto)]

mod builder;
pub mod cursor;
mod entry;
mod intake;
pub mod laws;
mod lexing;
mod texts;
mod writing;

pub use builder::first_room;
pub use entry::Entry;
pub use intake::{EntryFault, Refusal, TakeBack, read_entries};
pub use lexing::LexedEntries;
pub use writing::write_entries;
