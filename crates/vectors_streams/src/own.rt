//! Keywords of one's own, and errors at a span.
ghost use Rattle.std.specs.Prelude.{codes};

use crate::visible::marked;
use std::alloc::Global;
use syn_parse::{Fault, Own, ParseStream, Parser, Result, Word};
use test_outcomes::read;
use tok_core::Ident;
use tok_types::token;

/// Parses a text by the parser of this name, if there is one here.
pub fn parsed(alloc: Global, parser: &str, text: &str) -> Option<Result<String>> {
    let returned = match parser {
        "Server" => read::<Server>.parse_str(alloc, text),
        "Optional" => optional.parse_str(alloc, text),
        "Lookahead" => looked.parse_str(alloc, text),
        "Arrow" => read::<Own<ArrowWord>>.parse_str(alloc, text),
        "Target" => target.parse_str(alloc, text),
        "MarkedTarget" => target.parse2(alloc, marked(alloc, text)?),
        "AtName" => at_name.parse_str(alloc, text),
        _ => return None,
    };
    Some(returned)
}

struct ServerWord;

impl Word for ServerWord {
    ghost text = { codes "server" };

    fn display() -> &'static str {
        "`server`"
    }
}

type Server = Own<ServerWord>;

// No identifier: it is never found.
struct ArrowWord;

impl Word for ArrowWord {
    ghost text = { codes "=>" };

    fn display() -> &'static str {
        "`=>`"
    }
}

fn optional(input: ParseStream<'_, '_>) -> Result<String> {
    let server: Option<Server> = input.parse()?;
    let name: Ident = input.parse()?;
    Ok(format!(in input.allocator(); "{} {}", server.is_some(), name.as_str())?)
}

fn looked(input: ParseStream<'_, '_>) -> Result<String> {
    let mut lookahead = input.lookahead1();
    if lookahead.peek::<Server>()? {
        let server: Server = input.parse()?;
        return Ok(format!(in input.allocator(); "{server}")?);
    }
    lookahead.peek::<token::Comma>()?;
    Err(lookahead.error())
}

// Whether the word is next, and its span.
fn target(input: ParseStream<'_, '_>) -> Result<String> {
    let is_next = input.peek_word("target");
    let alloc = input.allocator();
    match input.parse_word("target") {
        Ok(span) => Ok(format!(in alloc; "{is_next} {span:?}")?),
        Err(fault) if is_next => Ok(format!(in alloc; "a peek and then {fault}")?),
        Err(fault) => Err(fault),
    }
}

// Rejects a name at its span.
fn at_name(input: ParseStream<'_, '_>) -> Result<String> {
    let name: Ident = input.parse()?;
    let alloc = input.allocator();
    Err(Fault::at(
        alloc,
        name.span(),
        format_args!("`{}` is taken", name.as_str()),
    ))
}
