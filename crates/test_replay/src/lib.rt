//! Tests of what the library exports, of replays, and of the program's reader and writer.
#![tactic(auto)]

#[cfg(test)]
mod channels;
#[cfg(test)]
mod forks;
#[cfg(test)]
mod front;
#[cfg(test)]
mod names;
#[cfg(test)]
mod pieces;
#[cfg(test)]
mod session;
#[cfg(test)]
mod sizes;
#[cfg(test)]
mod written;
