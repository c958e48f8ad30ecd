//! Lists of values with separators between them, and parsers of such lists.
#![tactic(auto)]

mod clones;
mod edits;
mod extends;
mod into_iter;
mod into_pairs;
mod iter;
mod iter_mut;
pub mod laws;
mod pair;
mod pairs;
mod pairs_mut;
mod parse;
mod print;
mod punctuated;
mod retain;
mod separated;
mod terminated;
mod values_mut;

pub use extends::PairsFault;
pub use into_iter::IntoIter;
pub use into_pairs::IntoPairs;
pub use iter::Iter;
pub use iter_mut::IterMut;
pub use pair::Pair;
pub use pairs::Pairs;
pub use pairs_mut::PairsMut;
pub use punctuated::Punctuated;
pub use terminated::ParseTerminated;
