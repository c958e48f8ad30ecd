//! Texts of many sizes: while memory lasts, no call says that it has run out. Texts of up to 14 bytes
//! are stored in place.
use replay_program::respond;
use std::alloc::{AllocGlobal, Global};
use std::process::Abort;
use syn_tokens::buffer::TokenBuffer;
use syn_tokens::punctuated::Punctuated;
use syn_tokens::{
    Command, Edition, Error, Ident, Lifetime, Literal, Span, ToTokens, TokenStream, lex,
    lex_marked, lex_source, parse_str, replay, replay_both, token,
};

// Returns a text of so many letters, after this one.
fn letters(alloc: Global, first: &str, count: usize) -> Option<String> {
    let mut text = String::from_str(alloc, first).ok()?;
    for _ in 0..count {
        text.push('a').ok()?;
    }
    Some(text)
}

fn literals(alloc: Global, text: &str) -> Option<()> {
    let literal = Literal::string(alloc, text).ok()?;
    let _copy = literal.clone().ok()?;
    let _bytes = Literal::byte_string(alloc, text.as_bytes()).ok()?;
    let _tokens = literal.to_token_stream(alloc).ok()?;
    Some(())
}

fn streams(alloc: Global, text: &str) -> Option<()> {
    let stream = lex(alloc, 0, text).ok()?;
    let _copy = stream.clone().ok()?;
    let _marked = lex_marked(alloc, 0, text).ok()?;
    let _source = lex_source(alloc, Edition::Edition2021, 0, text).ok()?;
    let _text = format!(in alloc; "{stream}").ok()?;
    Some(())
}

fn buffers(alloc: Global, text: &str) -> Option<()> {
    let _marked = TokenBuffer::from_marked(alloc, 0, 0, text).ok()?;
    let _source = TokenBuffer::from_source(alloc, 0, Edition::Edition2021, 0, text).ok()?;
    let buffer = TokenBuffer::from_text(alloc, 0, 0, text).ok()?;
    let stream = buffer.begin().token_stream(alloc).ok()?;
    let _again = TokenBuffer::new2(alloc, 0, stream).ok()?;
    Some(())
}

fn errors(alloc: Global, text: &str) -> Option<()> {
    let mut error = Error::new(alloc, Span::call_site(), text).ok()?;
    error.combine(error.clone().ok()?).ok()?;
    let _tokens = error.to_compile_error(alloc).ok()?;
    let _text = format!(in alloc; "{error}").ok()?;
    Some(())
}

fn replays(alloc: Global, text: &str) -> Option<()> {
    let stream: TokenStream = parse_str(alloc, text).ok()?;
    let commands = [Command::Rest(0)];
    let (left, right) = replay_both(
        alloc,
        stream.clone().ok()?,
        stream.clone().ok()?,
        &commands,
    ).ok()?;
    let _lines = left.lines.len().max(right.lines.len());
    let _report = replay(alloc, stream, &commands).ok()?;
    let input = format!(in alloc; "{text}\n---\nrest 0\n").ok()?;
    let (output, status) = respond(alloc, input.as_bytes()).ok()?;
    if status == 0 && output.len() > text.len() {
        Some(())
    } else {
        None
    }
}

fn names(alloc: Global, text: &str, lifetime: &str) -> Option<()> {
    let ident = Ident::new(alloc, text, Span::call_site()).ok()?;
    let _raw = Ident::new_raw(alloc, text, Span::call_site()).ok()?;
    let _plain = ident.unraw(alloc).ok()?;
    let _lifetime = Lifetime::new(alloc, lifetime, Span::call_site())
        .ok()?
        .clone()
        .ok()?;
    let _parsed: Ident = parse_str(alloc, text).ok()?;
    let mut list = Punctuated::<Ident, token::Comma>::new(alloc);
    list.push(ident.clone().ok()?).ok()?;
    list.push(ident).ok()?;
    let _copy = list.clone().ok()?;
    let _tokens = list.to_token_stream(alloc).ok()?;
    Some(())
}

fn granted(alloc: Global, count: usize) -> Option<()> {
    let text = letters(alloc, "", count)?;
    literals(alloc, text.as_str())?;
    streams(alloc, text.as_str())?;
    buffers(alloc, text.as_str())?;
    errors(alloc, text.as_str())?;
    replays(alloc, text.as_str())
}

fn granted_names(alloc: Global, count: usize) -> Option<()> {
    let text = letters(alloc, "", count)?;
    let lifetime = letters(alloc, "'", count)?;
    names(alloc, text.as_str(), lifetime.as_str())
}

fn all_granted(rt: &(impl Abort + AllocGlobal), counts: &[usize]) {
    for count in counts {
        assert!(rt; granted(rt.alloc(), *count).is_some(), "{count} letters");
    }
}

fn all_names_granted(rt: &(impl Abort + AllocGlobal), counts: &[usize]) {
    for count in counts {
        assert!(rt;
            granted_names(rt.alloc(), *count).is_some(),
            "{count} letters"
        );
    }
}

#[test]
fn takes_texts_of_every_size(rt: HostRuntime) {
    all_granted(&rt, &[0, 1, 14, 15, 1_000, 100_000]);
    all_names_granted(&rt, &[1, 14, 15, 1_000, 100_000]);
}
