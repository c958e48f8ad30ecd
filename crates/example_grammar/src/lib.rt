//! Examples of parsers for more grammars, written as a user would write them. Their proofs use only
//! public contracts.
#![tactic(auto)]

pub mod ended;
pub mod limit;
pub mod named_type;
pub mod runs;
pub mod shape;
