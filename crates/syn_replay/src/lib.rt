//! Runs lists of parse commands over token streams.
//!
//! `replay` returns a report with an answer to each command, and `agree` compares two reports.
#![tactic(auto)]

mod agreement;
mod command;
mod forks;
pub mod laws;
mod report;
mod session;

pub use agreement::agree;
pub use agreement::both::replay_both;
pub use agreement::written::{BothTexts, replay_both_texts};
pub use command::{Command, Kind, Look, Separator, is_transparent};
pub use forks::is_self_contained;
pub use report::{Answer, Line, Misuse, Piece, Position, Report, Verdict};
pub use session::written::replay_onto;
pub use session::{replay, replay_in};
