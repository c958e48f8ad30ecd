//! Methods of parse streams for choices, attempts, loops and lists in groups, and peeks that
//! combine other peeks. A parser that calls these methods needs no separate type for each choice or
//! loop.
#![tactic(auto)]

mod ext;
mod peeks;

pub use either::Either;
pub use ext::ParseBufferExt;
pub use peeks::{NotNext, OneOf, Then};
