//! Trees as a program that rewrites code uses them: read, copied, laid out, taken back, compared,
//! printed and read again, with the values of their literals.
use crate::digest::Digest;
use crate::pen::Pen;
use crate::sources::{digest_stream, pen_of, write_file};
use anyhow::{Context, Result};
use std::alloc::{AllocError, Global};
use std::num::f64_to_bits_with_nan;
use tok_buffer::TokenBuffer;
use tok_core::{Edition, Literal, ToTokens, TokenStream, TokenStreamHelper, TokenTree, lex_source};
use tok_values::LiteralExt;

/// Rewrites so many files.
pub fn run(alloc: Global, seed: u64, rounds: usize, digest: &mut Digest) -> Result<()> {
    let mut ascii = Pen::new(alloc, seed, true)?;
    let mut other = Pen::new(alloc, seed ^ 1, false)?;
    for number in 0..rounds {
        let text = write_file(pen_of(number, &mut ascii, &mut other), number)?;
        rewrite(alloc, text.as_str(), digest)?;
    }
    Ok(())
}

fn read(alloc: Global, text: &str) -> Result<TokenStream> {
    let trees = lex_source(alloc, Edition::default(), 0, text);
    trees.ok().context("reading trees")
}

fn rewrite(alloc: Global, text: &str, digest: &mut Digest) -> Result<()> {
    let trees = read(alloc, text)?;
    let copy = trees.clone()?;
    let mut all = TokenStream::new(alloc);
    for tree in copy.trees() {
        tree.to_tokens(&mut all)?;
    }
    let buffer = TokenBuffer::new2(alloc, 0, copy)?;
    let taken = buffer.begin().token_stream(alloc)?;
    digest.number(u64::from(TokenStreamHelper(&trees) == TokenStreamHelper(&taken)));
    let printed = format!(in alloc; " {all}")?;
    digest.text(printed.as_str());
    let again = read(alloc, printed.as_str())?;
    digest.number(u64::from(TokenStreamHelper(&trees) == TokenStreamHelper(&again)));
    digest_stream(&again, digest);
    digest_values(alloc, &trees, digest)?;
    Ok(())
}

// Takes in the values of all literals.
#[cycle(values)]
fn digest_values(
    alloc: Global,
    stream: &TokenStream,
    digest: &mut Digest,
) -> std::result::Result<(), AllocError> {
    for tree in stream.trees() {
        digest_tree_values(alloc, tree, digest)?;
    }
    Ok(())
}

#[cycle(values)]
fn digest_tree_values(
    alloc: Global,
    tree: &TokenTree,
    digest: &mut Digest,
) -> std::result::Result<(), AllocError> {
    match tree {
        TokenTree::Group(group) => digest_values(alloc, group.stream(), digest),
        TokenTree::Literal(literal) => digest_value(alloc, literal, digest),
        TokenTree::Ident(_) | TokenTree::Punct(_) => Ok(()),
    }
}

fn digest_value(
    alloc: Global,
    literal: &Literal,
    digest: &mut Digest,
) -> std::result::Result<(), AllocError> {
    if let Some(text) = literal.string_value(alloc)? {
        digest.text(text.as_str());
    } else if let Ok(integer) = literal.integer_value() {
        digest.number(integer.value);
    } else if let Some(float) = literal.float_value(alloc)? {
        digest.number(f64_to_bits_with_nan(float));
    } else if let Some(c) = literal.char_value() {
        digest.number(u64::from(c));
    } else if let Some(byte) = literal.byte_value() {
        digest.number(u64::from(byte));
    }
    Ok(())
}
