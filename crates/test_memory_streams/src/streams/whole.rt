//! Parsers of whole texts and streams of tokens.
use std::alloc::Global;
use syn_parse::{
    ParseStream, Parser, Result, parse_both, parse_source, parse_str, parse_text, parse2,
};
use test_outcomes::memory::{Outcome, ended, made, rejected, worst};
use tok_core::{Edition, Ident, Span, lex};

/// Makes each call.
pub fn calls(alloc: Global) -> Outcome {
    let edition = Edition::default();
    worst(&[
        ended(name.parse_str(alloc, "a")),
        rejected(name.parse_str(alloc, "1.0"), "Parser::parse_str"),
        rejected(name.parse_str(alloc, "a b"), "Parser::parse_str"),
        ended(name.parse_source(alloc, edition, "a // b")),
        ended(parse_str::<Ident>(alloc, "a")),
        rejected(parse_str::<Ident>(alloc, ")"), "parse_str"),
        rejected(parse_str::<Ident>(alloc, "a b"), "parse_str"),
        ended(parse_source::<Ident>(alloc, edition, "#!/bin/sh\na")),
        rejected(parse_source::<Ident>(alloc, edition, ")"), "parse_source"),
        ended(name.parse_text(alloc, 0, "a")),
        rejected(name.parse_text(alloc, 0, ""), "Parser::parse_text"),
        ended(parse_text::<Ident>(alloc, 0, "a")),
        rejected(parse_text::<Ident>(alloc, 0, ")"), "parse_text"),
        rejected(parse_text::<Ident>(alloc, 0, ""), "parse_text"),
        tokens(alloc),
        scoped(alloc),
        of_type(alloc),
        both(alloc),
    ])
}

fn name(input: ParseStream<'_, '_>) -> Result<Ident> {
    input.parse()
}

fn tokens(alloc: Global) -> Outcome {
    ended(name.parse2(alloc, made(lex(alloc, 0, "a"))?))
}

fn scoped(alloc: Global) -> Outcome {
    let tokens = made(lex(alloc, 0, "a"))?;
    ended(name.parse_scoped(alloc, Span::call_site(), tokens))
}

fn of_type(alloc: Global) -> Outcome {
    ended(parse2::<Ident>(alloc, made(lex(alloc, 0, "a"))?))
}

fn both(alloc: Global) -> Outcome {
    let left = made(lex(alloc, 0, "a"))?;
    let right = made(lex(alloc, 0, "a b"))?;
    let (left, right) = parse_both::<Ident>(alloc, left, right);
    worst(&[ended(left), rejected(right, "parse_both")])
}
