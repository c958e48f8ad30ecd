//! Token buffers, cursors and errors.
//!
//! A buffer stores token trees in flat form, and a cursor is a position in a buffer. Contracts
//! describe a cursor as a place in the sequence of token trees (`specs/Place.antt`).
#![tactic(auto)]

mod ahead;
mod buffer;
mod builder;
mod cursor;
mod entry;
pub mod error;
pub mod laws;
mod spot;

pub use buffer::TokenBuffer;
pub use cursor::{Cursor, LifetimeRef};
pub use error::Error;
pub use tok_core::{Lifetime, LifetimeFault};
