//! Reads a text into what the first line of the input names: trees, a buffer, or a list of names.
//! The text is the rest. Doc comments are read in a source alone.
//!
//! `bench/peers` compares this with the same work done by other libraries.
use anyhow::{Context, Result, bail};
use std::alloc::Global;
use syn_parse::Parser;
use syn_punctuated::Punctuated;
use tok_buffer::TokenBuffer;
use tok_core::{Edition, Ident, lex, lex_source};
use tok_types::token;

/// Returns the number of names of a list, or 1 for trees or a buffer that are not empty.
pub fn count(alloc: Global, input: &str) -> Result<usize> {
    let (goal, text) = input
        .split_once('\n')
        .context("no line that says how far to read")?;
    match goal {
        "trees" => {
            let tokens = lex(alloc, 0, text).ok().context("lexing the text")?;
            Ok(usize::from(!tokens.is_empty()))
        }
        "buffer" => {
            let buffer = TokenBuffer::from_text(alloc, 0, 0, text);
            let buffer = buffer.ok().context("lexing the text")?;
            Ok(usize::from(!buffer.begin().eof()))
        }
        "source trees" => {
            let tokens = lex_source(alloc, Edition::default(), 0, text);
            Ok(usize::from(!tokens.ok().context("lexing a source")?.is_empty()))
        }
        "source buffer" => {
            let buffer = TokenBuffer::from_source(alloc, 0, Edition::default(), 0, text);
            let buffer = buffer.ok().context("lexing a source")?;
            Ok(usize::from(!buffer.begin().eof()))
        }
        "list" => {
            let names = Punctuated::<Ident, token::Comma>::parse_terminated.parse_str(alloc, text);
            Ok(names.ok().context("parsing a list of names")?.len())
        }
        _ => bail!("neither trees nor buffer, of a source or not, nor list"),
    }
}
