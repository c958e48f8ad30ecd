//! A parser of nested arguments, such as `name`, `name = literal` and `name(..)`, with commas
//! between them.
//!
//! This crate shows how to build a language on parse streams, and how to prove its parser. It uses
//! only the public calls and laws of the crates that it depends on.
#![tactic(auto)]

mod argument;
pub mod laws;
mod read;

pub use argument::{Argument, Arguments, Value};
pub use read::{arguments_both, parse_arguments, parse_to_end};
