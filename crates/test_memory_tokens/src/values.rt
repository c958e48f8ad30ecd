//! The calls of `tok_values` and `tok_carets`.
use std::alloc::Global;
use test_outcomes::memory::{Outcome, Stop, ended, made, worst};
use tok_buffer::Error;
use tok_carets::{IndexedSource, LineIndex, Source};
use tok_core::{Edition, LexError, LexFault, Literal, Span, TokenTree, lex, lex_source};
use tok_values::LiteralExt;

/// Makes each call.
pub fn calls(alloc: Global) -> Outcome {
    worst(&[
        values(alloc, "\"a long text\\n of two lines\""),
        values(alloc, "b\"a long text\\n of two lines\""),
        values(alloc, "\"a long text\\n of two lines\"s"),
        values(alloc, "r\"a long text of one line\""),
        values(alloc, "br\"a long text of one line\""),
        values(alloc, "c\"a long text\\n of two lines\""),
        values(alloc, "cr\"a long text of one line\""),
        ended(Literal::number(alloc, "123456789_012i64", Span::call_site())),
        ended(source().show(alloc, span(), "no")),
        shown_error(alloc),
        shown_lex(alloc),
        ended(LineIndex::new(alloc, "a\nb\nc\n")),
        indexed(alloc),
    ])
}

fn values(alloc: Global, text: &str) -> Outcome {
    let stream = made(lex_source(alloc, Edition::default(), 0, text))?;
    match stream.trees() {
        [TokenTree::Literal(literal)] => of_literal(alloc, literal),
        _ => Err(Stop::Wrong("lex_source")),
    }
}

// Without `float_value`: it gathers digits by std's `collect`, which can do without some of its
// allocations.
fn of_literal(alloc: Global, literal: &Literal) -> Outcome {
    worst(&[
        ended(literal.string_value(alloc)),
        ended(literal.bytes_value(alloc)),
        ended(literal.str_value(alloc)),
        ended(literal.byte_str_value(alloc)),
        ended(literal.cstr_value(alloc)),
        ended(literal.without_suffix(alloc)),
    ])
}

const TEXT: &str = "a b\n\"";

fn source() -> Source<'static> {
    Source {
        name: "a",
        number: 0,
        text: TEXT,
    }
}

fn span() -> Span {
    Span::source(0, 2, 3)
}

fn error(alloc: Global) -> Result<Error, Stop> {
    let mut error = made(Error::new(alloc, span(), "no"))?;
    made(error.combine(made(Error::new(alloc, Span::call_site(), "since"))?))?;
    Ok(error)
}

fn lex_error(alloc: Global) -> Result<LexError, Stop> {
    match lex(alloc, 0, TEXT) {
        Err(LexFault::Refused(error)) => Ok(error),
        Err(LexFault::Memory) => Err(Stop::Refused),
        Ok(_) => Err(Stop::Wrong("lex")),
    }
}

fn shown_error(alloc: Global) -> Outcome {
    ended(source().show_error(alloc, &error(alloc)?))
}

fn shown_lex(alloc: Global) -> Outcome {
    ended(source().show_lex(alloc, lex_error(alloc)?))
}

fn indexed(alloc: Global) -> Outcome {
    let indexed = made(IndexedSource::new(alloc, source()))?;
    worst(&[
        ended(indexed.show(alloc, span(), "no")),
        ended(indexed.show_error(alloc, &error(alloc)?)),
        ended(indexed.show_lex(alloc, lex_error(alloc)?)),
    ])
}
