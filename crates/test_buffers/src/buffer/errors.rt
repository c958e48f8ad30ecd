//! Makes errors and combines them: their spans, their messages, and what they print.
use super::{At, Range, laid, place};
use std::alloc::{AllocGlobal, Global};
use std::process::Abort;
use tok_buffer::{Cursor, Error};
use tok_core::{LexFault, Span, lex};

// A message, and the start and the end of its span.
type Message<'a> = (&'a str, usize, usize);

// The error at the end of a scope.
const END: Message<'static> = ("unexpected end of input, x", 9, 9);

fn span(message: &Message<'_>) -> Span {
    let (_, start, end) = *message;
    if start <= end {
        Span::source(0, start, end)
    } else {
        Span::call_site()
    }
}

// Returns the span of an error from one cursor to another that isn't before it.
fn range(alloc: Global, start: Cursor<'_>, end: Cursor<'_>) -> Option<Range> {
    if start <= end {
        let error = Error::new_range(alloc, start, end, "x").ok()?;
        Some(error.span().as_range())
    } else {
        None
    }
}

fn range_in(alloc: Global, text: &str, start: &At, end: &At) -> Option<Range> {
    let buffer = laid(alloc, 0, text)?;
    range(alloc, place(&buffer, start), place(&buffer, end))
}

fn all_ranges(rt: &(impl Abort + AllocGlobal), text: &str, rows: &[(At, At, Option<Range>)]) {
    for (start, end, wanted) in rows {
        assert_eq!(rt; range_in(rt.alloc(), text, start, end), *wanted);
    }
}

#[test]
fn spans_errors_from_cursor_to_cursor(rt: HostRuntime) {
    all_ranges(
        &rt,
        "a (b) c",
        &[
            (At::Front(0), At::Front(2), Some(Some((0, 0, 5)))),
            (At::Front(1), At::Front(1), Some(Some((0, 2, 5)))),
            (At::Front(2), At::Front(0), None),
        ],
    );
}

// Returns the span of an error at all tokens of a text.
fn spanned(alloc: Global, text: &str) -> Option<Range> {
    let buffer = laid(alloc, 0, text)?;
    let tokens = buffer.begin().token_stream(alloc).ok()?;
    let error = Error::new_spanned(alloc, tokens, "x").ok()?;
    Some(error.span().as_range())
}

fn all_spanned(rt: &(impl Abort + AllocGlobal), rows: &[(&str, Range)]) {
    for (text, wanted) in rows {
        assert_eq!(rt; spanned(rt.alloc(), text), Some(*wanted), "at {text}");
    }
}

#[test]
fn spans_errors_of_tokens(rt: HostRuntime) {
    all_spanned(&rt, &[("a (b) c", Some((0, 0, 7))), ("", None)]);
}

fn is_error(alloc: Global, error: &Error, span: Span, words: &str) -> Option<bool> {
    let text = error.to_string(alloc).ok()?;
    Some(text.as_str() == words && error.as_str() == words && error.span() == span)
}

// Returns `true` if an error at a place, in a scope at 9..9, has this span and these words.
fn is_error_at(alloc: Global, text: &str, at: &At, wanted: &Message<'_>) -> Option<bool> {
    let buffer = laid(alloc, 0, text)?;
    let scope = Span::source(0, 9, 9);
    let error = Error::new_at(alloc, scope, place(&buffer, at), "x").ok()?;
    is_error(alloc, &error, span(wanted), wanted.0)
}

fn all_errors_at(rt: &(impl Abort + AllocGlobal), rows: &[(&str, At, Message<'_>)]) {
    for (text, at, wanted) in rows {
        assert_eq!(rt;
            is_error_at(rt.alloc(), text, at, wanted),
            Some(true),
            "at {text}"
        );
    }
}

#[test]
fn refuses_at_a_cursor(rt: HostRuntime) {
    all_errors_at(
        &rt,
        &[
            ("(b)", At::Front(0), ("x", 0, 1)),
            ("(b)", At::Front(1), END),
            ("(b)", At::Within(0, 1), END),
            ("", At::Nowhere, END),
        ],
    );
}

// Returns `true` if the error of a text that isn't read has this span and these words.
fn is_reported(alloc: Global, text: &str, wanted: &Message<'_>) -> Option<bool> {
    match lex(alloc, 0, text) {
        Err(LexFault::Refused(error)) => {
            let error = Error::from_lex(alloc, error).ok()?;
            is_error(alloc, &error, span(wanted), wanted.0)
        }
        _ => None,
    }
}

fn all_reported(rt: &(impl Abort + AllocGlobal), rows: &[(&str, Message<'_>)]) {
    for (text, wanted) in rows {
        assert_eq!(rt;
            is_reported(rt.alloc(), text, wanted),
            Some(true),
            "at {text}"
        );
    }
}

#[test]
fn reports_texts_that_are_not_read(rt: HostRuntime) {
    all_reported(
        &rt,
        &[
            ("a 1.0", ("float literal", 2, 2)),
            ("(", ("unclosed group", 0, 0)),
        ],
    );
}

fn error_of(alloc: Global, message: &Message<'_>) -> Option<Error> {
    Error::new(alloc, span(message), message.0).ok()
}

// Combines errors of these messages, of which there must be one.
fn error_of_all(alloc: Global, messages: &[Message<'_>]) -> Option<Error> {
    let (first, more) = messages.split_first()?;
    let mut error = error_of(alloc, first)?;
    for message in more {
        error.combine(error_of(alloc, message)?).ok()?;
    }
    Some(error)
}

fn is_shown(alloc: Global, messages: &[Message<'_>], wanted: &str) -> Option<bool> {
    let error = error_of_all(alloc, messages)?;
    let shown = format!(in alloc; "{error:?} {error}").ok()?;
    Some(shown.as_str() == wanted)
}

fn all_shown(rt: &(impl Abort + AllocGlobal), rows: &[(&[Message<'_>], &str)]) {
    for (messages, wanted) in rows {
        let found = is_shown(rt.alloc(), messages, wanted);
        assert_eq!(rt; found, Some(true), "not {wanted}");
    }
}

#[test]
fn shows_errors(rt: HostRuntime) {
    all_shown(
        &rt,
        &[
            (&[("x", 3, 4)], "Error(\"x\") x"),
            (&[("x", 3, 4), ("y", 5, 6)], "Error([\"x\", \"y\"]) x"),
        ],
    );
}

fn is_message(error: &Error, wanted: Option<&Message<'_>>) -> bool {
    match wanted {
        Some(message) => error.as_str() == message.0 && error.span() == span(message),
        None => false,
    }
}

// Returns `true` if the error of these messages lends each of them in turn.
fn are_lent(alloc: Global, messages: &[Message<'_>]) -> Option<bool> {
    let error = error_of_all(alloc, messages)?;
    let mut wanted = messages.iter();
    for one in &error {
        if !is_message(&one.ok()?, wanted.next()) {
            return Some(false);
        }
    }
    Some(wanted.next().is_none())
}

// Extends the error of these messages with a copy of it.
fn doubled(alloc: Global, messages: &[Message<'_>]) -> Option<Error> {
    let mut error = error_of_all(alloc, messages)?;
    let copy = error.clone().ok()?;
    error.extend(copy).ok()?;
    Some(error)
}

// Returns `true` if such an error yields these messages twice.
fn are_given_twice(alloc: Global, messages: &[Message<'_>]) -> Option<bool> {
    let error = doubled(alloc, messages)?;
    let mut wanted = messages.iter().chain(messages);
    for one in error {
        if !is_message(&one, wanted.next()) {
            return Some(false);
        }
    }
    Some(wanted.next().is_none())
}

fn all_messages(rt: &(impl Abort + AllocGlobal), rows: &[&[Message<'_>]]) {
    for messages in rows {
        assert_eq!(rt; are_lent(rt.alloc(), messages), Some(true));
        assert_eq!(rt; are_given_twice(rt.alloc(), messages), Some(true));
    }
}

#[test]
fn yields_messages(rt: HostRuntime) {
    all_messages(&rt, &[&[("x", 3, 4)], &[("x", 3, 4), ("y", 5, 6)]]);
}

fn is_compile_error(alloc: Global, messages: &[Message<'_>], wanted: &str) -> Option<bool> {
    let error = error_of_all(alloc, messages)?;
    let tokens = error.to_compile_error(alloc).ok()?;
    Some(tokens.to_string(alloc).ok()?.as_str() == wanted)
}

// Returns the number of trees that an error becomes, and the span of one of them.
fn compile_error(alloc: Global, messages: &[Message<'_>], row: usize) -> Option<(usize, Span)> {
    let tokens = error_of_all(alloc, messages)?
        .into_compile_error(alloc)
        .ok()?;
    let trees = tokens.trees();
    Some((trees.len(), trees.get(row)?.span()))
}

// Checks the tokens that errors become, and that the last tree of each message has its span.
fn all_compile_errors(rt: &(impl Abort + AllocGlobal), rows: &[(&[Message<'_>], &str, usize)]) {
    for (messages, wanted, count) in rows {
        let found = is_compile_error(rt.alloc(), messages, wanted);
        assert_eq!(rt; found, Some(true), "not {wanted}");
        let mut row = 7usize;
        for message in *messages {
            let found = compile_error(rt.alloc(), messages, row);
            assert_eq!(rt; found, Some((*count, span(message))), "not {wanted}");
            row = row.saturating_add(8);
        }
    }
}

#[test]
fn hands_errors_to_the_compiler(rt: HostRuntime) {
    all_compile_errors(
        &rt,
        &[
            (&[("x", 3, 4)], ":: core :: compile_error ! {\"x\"}", 8),
            (
                &[("x", 3, 4), ("y", 5, 6)],
                ":: core :: compile_error ! {\"x\"} :: core :: compile_error ! {\"y\"}",
                16,
            ),
        ],
    );
}
