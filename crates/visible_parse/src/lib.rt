//! Functions that parse the visible tokens of a stream, regardless of the stream's invisible
//! groups.
//!
//! Each function first removes the invisible groups that contain nothing visible. It then parses
//! the stream in the same way as the corresponding function of `syn_parse`. Therefore, no contract
//! in this crate requires that the invisible groups of a stream contain visible tokens.
#![tactic(auto)]

mod whole;

pub use whole::{parse_visible, parse_visible_both, parse_visible_with};
