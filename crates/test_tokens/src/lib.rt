//! Tests of token types, of suffixes and raw strings, and of streams as entries: what no contract
//! says, and that each call succeeds while memory lasts.
#![tactic(auto)]

#[cfg(test)]
mod entries;
#[cfg(test)]
mod literals;
#[cfg(test)]
mod types;
