//! The calls of `tok_buffer` on errors.
use std::alloc::{AllocError, Global};
use test_outcomes::memory::{Outcome, Stop, ended, made, worst};
use tok_buffer::{Cursor, Error};
use tok_core::{Ident, LexFault, Span, lex};

/// Makes the calls that need no cursor.
pub fn calls(alloc: Global) -> Outcome {
    worst(&[
        from_string(alloc),
        new_spanned(alloc),
        from_lex(alloc),
        combine(alloc),
        extend(alloc),
        of_error(alloc),
    ])
}

/// Makes errors at the start of a stream, and at an end.
pub fn at_cursors(alloc: Global, begin: Cursor<'_>) -> Outcome {
    match begin.skip() {
        Some(end) => worst(&[
            new_range(alloc, begin, end),
            ended(Error::new_at(alloc, Span::call_site(), begin, "x")),
            ended(Error::new_at(alloc, Span::call_site(), end, "x")),
        ]),
        None => Err(Stop::Wrong("Cursor::skip")),
    }
}

fn new_range(alloc: Global, start: Cursor<'_>, end: Cursor<'_>) -> Outcome {
    if start <= end {
        ended(Error::new_range(alloc, start, end, "x"))
    } else {
        Err(Stop::Wrong("Cursor::skip"))
    }
}

// Returns an error of one message.
fn one(alloc: Global) -> Result<Error, Stop> {
    made(Error::new(alloc, Span::call_site(), "x"))
}

// Returns an error of two messages.
fn two(alloc: Global) -> Result<Error, Stop> {
    let mut error = one(alloc)?;
    made(error.combine(one(alloc)?))?;
    Ok(error)
}

// A text of more than 14 bytes takes an allocation more.
fn from_string(alloc: Global) -> Outcome {
    let text = made(String::from_str(alloc, "expected one of"))?;
    ended(Error::from_string(alloc, Span::call_site(), text))
}

fn new_spanned(alloc: Global) -> Outcome {
    let ident = made(Ident::new(alloc, "a", Span::call_site()))?;
    ended(Error::new_spanned(alloc, ident, "x"))
}

fn from_lex(alloc: Global) -> Outcome {
    match lex(alloc, 0, ")") {
        Err(LexFault::Refused(refused)) => ended(Error::from_lex(alloc, refused)),
        Err(LexFault::Memory) => Err(Stop::Refused),
        Ok(_) => Err(Stop::Wrong("lex")),
    }
}

fn combine(alloc: Global) -> Outcome {
    ended(two(alloc))
}

fn extend(alloc: Global) -> Outcome {
    let mut error = one(alloc)?;
    let others = [one(alloc)?, two(alloc)?, two(alloc)?];
    ended(error.extend(others))
}

fn of_error(alloc: Global) -> Outcome {
    let error = two(alloc)?;
    let outcomes = [
        ended::<_, AllocError>(error.clone()),
        each(&error),
        ended(error.to_compile_error(alloc)),
        ended(error.into_compile_error(alloc)),
    ];
    worst(&outcomes)
}

// Each message is copied as it comes.
fn each(error: &Error) -> Outcome {
    let mut outcome = Ok(());
    for copy in error {
        outcome = worst(&[outcome, ended(copy)]);
    }
    outcome
}
