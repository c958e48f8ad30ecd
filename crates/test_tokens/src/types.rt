//! Writes, compares and shows token types, and finds them in texts.
mod keywords;
mod punctuations;
mod trees;

use std::alloc::{AllocError, AllocGlobal, Global};
use std::fmt::Debug;
use std::hash::{DefaultHasher, Hash, Hasher};
use std::process::Abort;
use tok_buffer::TokenBuffer;
use tok_core::{Ident, Span, ToTokens, TokenStream, TokenTree, lex_marked};
use tok_types::token::{self, Token, printing};

// Checks that each of these facts holds.
fn all_hold(rt: &impl Abort, facts: &[bool]) {
    for (row, fact) in facts.iter().enumerate() {
        assert!(rt; *fact, "fact {row}");
    }
}

// Returns `true` if a token is next in a text, and `None` if the text is not read.
fn found_in<T: Token>(alloc: Global, text: &str) -> Option<bool> {
    let stream = lex_marked(alloc, 0, text).ok()?;
    let buffer = TokenBuffer::new2(alloc, 0, stream).ok()?;
    Some(T::peek(buffer.begin()))
}

// Returns `true` if a token is next in the first text and not in the second.
fn is_found<T: Token>(alloc: Global, here: &str, not_here: &str) -> bool {
    found_in::<T>(alloc, here) == Some(true) && found_in::<T>(alloc, not_here) == Some(false)
}

fn is_text(alloc: Global, tokens: &TokenStream, wanted: &str) -> Option<bool> {
    let text = tokens.to_string(alloc).ok()?;
    Some(text.as_str() == wanted)
}

// Returns `true` if a token is written as this text.
fn is_written<T: ToTokens>(alloc: Global, token: &T, wanted: &str) -> Option<bool> {
    let tokens = token.to_token_stream(alloc).ok()?;
    is_text(alloc, &tokens, wanted)
}

// Returns `true` if this is the text in backquotes.
fn is_quoted(alloc: Global, text: &str, display: &str) -> Option<bool> {
    let quoted = format!(in alloc; "`{text}`").ok()?;
    Some(quoted.as_str() == display)
}

// Returns `true` if a token is displayed as its text in backquotes, is written as the text, and is
// found in the text and not in another.
fn is_token<T: Token + ToTokens + Default + Drop>(alloc: Global, text: &str, other: &str) -> bool {
    is_quoted(alloc, text, T::display()) == Some(true)
        && is_written(alloc, &T::default(), text) == Some(true)
        && is_found::<T>(alloc, text, other)
}

// Returns `true` if a token has no text, and is found neither in this text nor at the end.
fn has_no_text<T: Token + ToTokens + Default + Drop>(alloc: Global, other: &str) -> bool {
    T::display() == "``"
        && is_written(alloc, &T::default(), "") == Some(true)
        && found_in::<T>(alloc, other) == Some(false)
        && found_in::<T>(alloc, "") == Some(false)
}

fn hash_of<T: Hash>(value: &T) -> u64 {
    let mut state = DefaultHasher::new();
    value.hash(&mut state);
    state.finish()
}

fn at(start: usize) -> Span {
    Span::source(0, start, start)
}

// Returns `true` if a text at so many spans, at most two, is written as this.
fn is_punct_written(alloc: Global, text: &str, count: usize, wanted: &str) -> Option<bool> {
    let mut tokens = TokenStream::new(alloc);
    let spans = [at(1), at(2)];
    printing::punct(text, spans.get(..count)?, &mut tokens).ok()?;
    is_text(alloc, &tokens, wanted)
}

fn all_puncts_written(rt: &(impl Abort + AllocGlobal), rows: &[(&str, usize, &str)]) {
    for (text, count, wanted) in rows {
        let found = is_punct_written(rt.alloc(), text, *count, wanted);
        assert_eq!(rt; found, Some(true), "at {text}");
    }
}

#[test]
fn writes_puncts(rt: HostRuntime) {
    all_puncts_written(
        &rt,
        &[
            ("+=", 1, ""),
            ("+=", 2, "+="),
            ("+", 1, "+"),
            ("", 0, ""),
            ("a", 1, ""),
            ("+a", 2, ""),
            ("'", 1, "'"),
        ],
    );
}

// Writes the name that `surround` puts into a group.
fn write_name(tokens: &mut TokenStream, alloc: Global) -> Result<(), AllocError> {
    match Ident::new(alloc, "a", Span::call_site()) {
        Ok(name) => tokens.append(TokenTree::Ident(name)),
        Err(_) => Err(AllocError),
    }
}

fn surround_all(alloc: Global, tokens: &mut TokenStream) -> Result<(), AllocError> {
    token::Paren::default().surround(tokens, |inside| write_name(inside, alloc))?;
    token::Brace::default().surround(tokens, |inside| write_name(inside, alloc))?;
    token::Bracket::default().surround(tokens, |inside| write_name(inside, alloc))?;
    token::Group::default().surround(tokens, |inside| write_name(inside, alloc))
}

fn is_surrounded(alloc: Global, wanted: &str) -> Option<bool> {
    let mut tokens = TokenStream::new(alloc);
    surround_all(alloc, &mut tokens).ok()?;
    is_text(alloc, &tokens, wanted)
}

// Returns `true` if a `surround` that fails returns the error and writes nothing.
fn writes_nothing(alloc: Global) -> bool {
    let mut tokens = TokenStream::new(alloc);
    let refused = token::Paren::default().surround(&mut tokens, |_| Err(AllocError));
    refused.is_err() && tokens.is_empty()
}

#[test]
fn surrounds(rt: HostRuntime) {
    let alloc = rt.alloc();
    assert_eq!(rt; is_surrounded(alloc, "(a) {a} [a] «a»"), Some(true));
    assert!(rt; writes_nothing(alloc));
}

// Returns `true` if an identifier of this text was made at 1.
fn is_ident(made: Result<Ident, AllocError>, text: &str) -> bool {
    match made {
        Ok(ident) => ident.as_str() == text && ident.span() == at(1),
        Err(AllocError) => false,
    }
}

#[test]
fn makes_identifiers(rt: HostRuntime) {
    let alloc = rt.alloc();
    all_hold(
        &rt,
        &[
            is_ident(token::SelfValue::new(at(1)).into_ident(alloc), "self"),
            is_ident(token::SelfType::new(at(1)).into_ident(alloc), "Self"),
            is_ident(token::Super::new(at(1)).into_ident(alloc), "super"),
            is_ident(token::Crate::new(at(1)).into_ident(alloc), "crate"),
            is_ident(token::Extern::new(at(1)).into_ident(alloc), "extern"),
            is_ident(token::Underscore::from_span(at(1)).into_ident(alloc), "_"),
        ],
    );
}

// Returns `true` if a token is equal to the one at the call site, and hashes nothing.
fn is_alike<T: PartialEq + Hash + Default + Drop>(token: T) -> bool {
    token == T::default() && hash_of(&token) == DefaultHasher::new().finish()
}

#[test]
fn compares_and_hashes_alike(rt: HostRuntime) {
    all_hold(
        &rt,
        &[
            is_alike(token::Fn::new(at(1))),
            is_alike(token::PathSep::new([at(1), at(2)])),
            is_alike(token::PathSep::from_span(at(1))),
            is_alike(token::Underscore::new([at(1)])),
            is_alike(token::Underscore::from_span(at(1))),
            is_alike(token::Paren::from_span(at(1))),
            is_alike(token::Brace::from_span(at(1))),
            is_alike(token::Group::new(at(1))),
            is_alike(token::Group::from_span(at(1))),
        ],
    );
}

// Returns `true` if a token is shown as this text for debugging.
fn is_debug<T: Debug + Default + Drop>(alloc: Global, wanted: &str) -> bool {
    match format!(in alloc; "{:?}", T::default()) {
        Ok(text) => text.as_str() == wanted,
        Err(_) => false,
    }
}

#[test]
fn shows_for_debugging(rt: HostRuntime) {
    let alloc = rt.alloc();
    all_hold(
        &rt,
        &[
            is_debug::<token::Fn>(alloc, "Token![fn]"),
            is_debug::<token::PathSep>(alloc, "Token![::]"),
            is_debug::<token::Underscore>(alloc, "Token![_]"),
            is_debug::<token::Paren>(alloc, "Paren"),
            is_debug::<token::Brace>(alloc, "Brace"),
            is_debug::<token::Bracket>(alloc, "Bracket"),
            is_debug::<token::Group>(alloc, "Group"),
        ],
    );
}

// Returns the span of a comma at 1, and its span after a move to 2.
fn moved_comma() -> (Span, Span) {
    let mut comma = token::Comma::new([at(1)]);
    let before = comma.span();
    comma.set_span(at(2));
    (before, comma.span())
}

// Returns the span of an underscore at 1, and its span after a move to 2.
fn moved_underscore() -> (Span, Span) {
    let mut underscore = token::Underscore::new([at(1)]);
    let before = underscore.span();
    underscore.set_span(at(2));
    (before, underscore.span())
}

#[test]
fn spans_of_tokens(rt: HostRuntime) {
    all_hold(
        &rt,
        &[
            moved_comma() == (at(1), at(2)),
            moved_underscore() == (at(1), at(2)),
            token::Comma::from_span(at(3)).spans == [at(3)],
            token::PathSep::from_span(at(3)).spans == [at(3), at(3)],
            token::Paren::from_span(at(3)).span.join() == at(3),
            token::Group::from_span(at(3)).span == at(3),
            token::Fn::from_span(at(3)).span == at(3),
            token::Fn::default().span == Span::call_site(),
        ],
    );
}
