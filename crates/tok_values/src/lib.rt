//! The values and suffixes of literals. The values are texts, characters, bytes, integers and
//! floats.
//!
//! `LiteralExt` adds methods to `Literal`. These methods return the value of a literal, return or
//! remove a suffix, and create numbers. If a literal is of another kind, or has an unexpected
//! suffix, a method returns no value. Contracts describe the values with the grammar of the Rust
//! Reference (`specs/Strings.antt`, `CStrings`, `RawStrings`, `Suffixed`, `Escapes`, `Integers`,
//! `Floats`, `Suffixes`, `TypedNumbers`).
#![tactic(auto)]

mod between;
mod escapes;
mod floats;
mod integers;
pub mod laws;
mod literal;
mod numbers;
mod plain;
mod raw;
mod strings;
mod suffixes;

pub use integers::{Integer, IntegerFault};
pub use literal::{LiteralExt, bool_value};
pub use numbers::NumberFault;
