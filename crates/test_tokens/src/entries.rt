//! Streams as entries: which are accepted, what is left of them, where others are refused, and what
//! a cursor finds in them; and texts as entries.
mod accepted;
mod cursors;
mod leaves;
mod lexed;
mod refused;
