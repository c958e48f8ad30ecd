//! Tests of the calls of buffers: what no contract says, and that each succeeds while memory lasts.
#![tactic(auto)]

#[cfg(test)]
mod buffer;
#[cfg(test)]
mod carets;
#[cfg(test)]
mod threads;
