//! Functions for writing exported functions, which parse a caller's entries and write an answer
//! into memory that the caller lends.
//!
//! You can export a parser for a language of your own in a few lines:
//!
//! - `parse_entries` runs the parser of the language over the entries.
//! - A function that you write converts the parsed value to an `Answer` of flat structs.
//! - `Answer::of_fault` converts an error to an answer, and `write` writes the answer.
#![tactic(auto)]

mod answer;
mod intake;
pub mod laws;
mod outcome;
mod parse;

pub use answer::{Answer, write};
pub use intake::read_entries;
pub use outcome::{Message, Outcome, range};
pub use parse::{EntriesFault, parse_entries};
