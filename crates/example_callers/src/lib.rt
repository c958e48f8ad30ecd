//! Examples of callers of the libraries, written as a user would write them. Their proofs use only
//! public contracts.
#![tactic(auto)]

pub mod buffer;
pub mod constant;
pub mod entry;
pub mod lists;
pub mod loops;
pub mod punctuated;
pub mod records;
pub mod route;
pub mod rule;
pub mod service;
pub mod setting;
pub mod streams;
pub mod tokens;
pub mod trees;
pub mod value;
pub mod views;
