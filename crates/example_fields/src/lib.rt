//! A table of the fields of structs, enums and unions, for a derive macro in Rust.
//!
//! `tools/macro --derive` copies this crate under another name. If your derive macro needs more
//! information, add a column to `Row` or a new kind of row.
#![tactic(auto)]

mod ends;
pub mod laws;
mod ranges;
mod read;
mod table;

pub use ranges::Range;
pub use read::example_fields_parse;
pub use table::{Row, tabulate};
