//! Functions that parse arguments from the visible tokens of a stream, regardless of its invisible
//! groups.
#![tactic(auto)]

mod read;

pub use read::{visible_arguments, visible_arguments_both};
