//! Tests of the examples in doc comments. `tests/layout` checks that each example stands here, word
//! for word.
#![tactic(auto)]

#[cfg(test)]
mod buffers;
#[cfg(test)]
mod choices;
#[cfg(test)]
mod derive;
#[cfg(test)]
mod lists;
#[cfg(test)]
mod literals;
#[cfg(test)]
mod loops;
#[cfg(test)]
mod replays;
#[cfg(test)]
mod runs;
#[cfg(test)]
mod streams;
#[cfg(test)]
mod tokens;
#[cfg(test)]
mod trees;
#[cfg(test)]
mod values;
#[cfg(test)]
mod visible;
