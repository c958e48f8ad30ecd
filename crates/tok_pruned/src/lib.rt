//! Removes the invisible groups that contain no visible tree.
//!
//! For example, a compiler creates such a group for an empty `$v:vis`.
#![tactic(auto)]

mod empty;
pub mod laws;

pub use empty::prune;
