//! Texts, leaves, spans, streams, buffers and errors may be sent to other threads, and shared with
//! them.
use tok_buffer::{Cursor, Error, Lifetime, TokenBuffer};
use tok_carets::LineColumn;
use tok_core::{
    Delimiter, Group, Ident, LexError, Literal, Punct, Spacing, Span, Text, TokenStream, TokenTree,
};

// Compiles only if values of the type may be sent to another thread, and shared with it.
fn crosses<T: Send + Sync>() {}

#[test]
fn cross_threads(_rt: HostRuntime) {
    crosses::<Span>();
    crosses::<Spacing>();
    crosses::<Delimiter>();
    crosses::<Text>();
    crosses::<Ident>();
    crosses::<Literal>();
    crosses::<Lifetime>();
    crosses::<Punct>();
    crosses::<Group>();
    crosses::<TokenTree>();
    crosses::<TokenStream>();
    crosses::<TokenBuffer>();
    crosses::<Cursor<'static>>();
    crosses::<Error>();
    crosses::<LexError>();
    crosses::<LineColumn>();
}
