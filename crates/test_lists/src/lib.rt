//! Tests of punctuated lists: what no contract says, and that each call succeeds while memory
//! lasts.
#![tactic(auto)]

#[cfg(test)]
mod lists;
