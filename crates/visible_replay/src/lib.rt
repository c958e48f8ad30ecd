//! Functions that run commands over the visible tokens of a stream, regardless of its invisible
//! groups.
#![tactic(auto)]

pub mod laws;
mod sessions;

pub use sessions::{visible_replay, visible_replay_both};
