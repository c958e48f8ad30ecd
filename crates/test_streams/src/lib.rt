//! Tests of parse streams, of the reader of arguments, and of the calls that read visible tokens
//! alone.
#![tactic(auto)]

#[cfg(test)]
mod argument_lists;
#[cfg(test)]
mod streams;
#[cfg(test)]
mod visible;
