//! Types for string, integer, floating-point and boolean literals.
//!
//! Values of each type can be parsed, peeked at and written as tokens. Each type also gives access
//! to the value of its literal. If another kind of literal is next, the parser returns an error
//! that names the expected kind.
#![tactic(auto)]

mod boolean;
mod float;
mod integer;
mod kind;
pub mod laws;
mod raw;
mod signed;
mod string;

pub use boolean::LitBool;
pub use float::LitFloat;
pub use integer::LitInt;
pub use signed::{SignedFloat, SignedInt, signed_float_value, signed_int_value};
pub use string::LitStr;
