//! Tests of the calls of leaves and trees: what no contract says, and that each succeeds while memory
//! lasts. `vectors_lexer` reads texts.
#![tactic(auto)]

#[cfg(test)]
mod errors;
#[cfg(test)]
mod leaves;
#[cfg(test)]
mod texts;
#[cfg(test)]
mod trees;
#[cfg(test)]
mod values;
