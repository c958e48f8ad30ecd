//! Tests of `example_callers`, `example_grammar` and `example_config`.
#![tactic(auto)]

#[cfg(test)]
mod callers;
#[cfg(test)]
mod grammar;
#[cfg(test)]
mod said;
#[cfg(test)]
mod settings;
