//! Identifiers, puncts, literals and lifetimes, with their texts and spans.
//!
//! Identifiers, puncts and literals are the leaves of token trees. A lifetime consists of an
//! apostrophe and an identifier. Contracts describe a leaf as a `Leaf` (`specs/Leaves.antt`).
#![tactic(auto)]

mod ident;
mod ident_fault;
mod integer_type;
pub mod known;
pub mod laws;
mod lifetime;
mod literal;
mod literal_fault;
mod punct;
pub mod same;
mod span;
mod text;

pub use ident::{Ident, MakeFault};
pub use ident_fault::IdentFault;
pub use integer_type::IntegerType;
pub use lifetime::{Lifetime, LifetimeFault};
pub use literal::Literal;
pub use literal_fault::{LiteralFault, is_literal, is_number_rule, is_quoted_rule};
pub use punct::{Punct, Spacing};
pub use span::{Bounds, DelimSpan, Span};
pub use text::Text;
pub use tok_lexical::Delimiter;
