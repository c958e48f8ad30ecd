//! Types for arguments and their values.
use syn_punctuated::Punctuated;
use tok_core::{Ident, Literal};
use tok_types::token;

/// An argument, which consists of a name and a value, such as `name = 1`.
#[cycle(arguments)]
#[derive(Drop)]
pub struct Argument {
    pub name: Ident,
    pub value: Value,
}

/// The value of an argument: nothing, a literal after `=`, or arguments in parentheses.
#[cycle(arguments)]
#[derive(Drop)]
pub enum Value {
    Flag,
    Literal(token::Eq, Literal),
    List(token::Paren, Punctuated<Argument, token::Comma>),
}

/// A list of arguments with commas between them, and an optional comma after the last argument.
pub type Arguments = Punctuated<Argument, token::Comma>;
