//! Whole sources read: as trees, and as a buffer.
use crate::code::Shape;
use crate::digest::Digest;
use crate::pen::Pen;
use anyhow::{Context, Result};
use std::alloc::Global;
use tok_buffer::TokenBuffer;
use tok_core::{Delimiter, Edition, TokenStream, TokenTree, lex_source};

/// Writes the file of this number: code, or in one of eight something awkward. Returns the text.
pub fn write_file(pen: &mut Pen, number: usize) -> Result<String> {
    let size = match pen.random.below(6) {
        0 => 1_000usize,
        1 => 2_000,
        2 => 4_000,
        3 => 8_000,
        4 => 16_000,
        _ => 32_000,
    };
    let bytes = size.saturating_add(pen.random.below(size));
    let end = if number % 16 == 7 { "\r\n" } else { "\n" };
    let shape = match number % 32 {
        3 => Shape::Numbers,
        11 => Shape::Pairs,
        19 => Shape::Deep,
        1 | 9 | 17 | 25 => Shape::Code(60),
        2 | 5 | 6 | 10 | 13 | 14 | 18 | 21 | 22 | 26 | 29 | 30 | 27 => Shape::Code(14),
        _ => Shape::Code(0),
    };
    pen.file(shape, bytes, end)?;
    Ok(pen.take())
}

/// Returns the pen of the file of this number: every eighth writes names that aren't ASCII.
pub fn pen_of<'p>(number: usize, ascii: &'p mut Pen, other: &'p mut Pen) -> &'p mut Pen {
    if number % 8 == 4 { other } else { ascii }
}

/// Reads so many files, each as trees or into a buffer.
pub fn run(alloc: Global, seed: u64, rounds: usize, digest: &mut Digest) -> Result<()> {
    let mut ascii = Pen::new(alloc, seed, true)?;
    let mut other = Pen::new(alloc, seed ^ 1, false)?;
    for number in 0..rounds {
        let text = write_file(pen_of(number, &mut ascii, &mut other), number)?;
        if number % 64 < 32 {
            let trees = lex_source(alloc, Edition::default(), 0, text.as_str());
            digest_stream(&trees.ok().context("reading trees")?, digest);
        } else {
            let buffer = TokenBuffer::from_source(alloc, 0, Edition::default(), 0, text.as_str());
            digest_buffer(
                alloc,
                &buffer.ok().context("reading a buffer")?,
                text.len(),
                digest,
            )?;
        }
    }
    Ok(())
}

/// Takes in all trees.
#[cycle(trees)]
pub fn digest_stream(stream: &TokenStream, digest: &mut Digest) {
    for tree in stream.trees() {
        digest_tree(tree, digest);
    }
}

#[cycle(trees)]
fn digest_tree(tree: &TokenTree, digest: &mut Digest) {
    match tree {
        TokenTree::Group(group) => {
            digest.number(delimiter_number(group.delimiter()));
            digest.span(group.span());
            digest_stream(group.stream(), digest);
            digest.number(7);
        }
        TokenTree::Ident(ident) => digest.ident(ident),
        TokenTree::Punct(punct) => digest.punct(*punct),
        TokenTree::Literal(literal) => digest.literal(literal),
    }
}

/// Returns a number for a delimiter.
pub fn delimiter_number(delimiter: Delimiter) -> u64 {
    match delimiter {
        Delimiter::Parenthesis => 3,
        Delimiter::Brace => 4,
        Delimiter::Bracket => 5,
        Delimiter::None => 6,
    }
}

// Takes in all tokens of a buffer, of which there are no more than bytes in its text.
fn digest_buffer(
    alloc: Global,
    buffer: &TokenBuffer,
    bytes: usize,
    digest: &mut Digest,
) -> Result<()> {
    let mut around = Vec::new(alloc);
    let mut cursor = buffer.begin();
    for _ in 0..bytes.saturating_mul(8) {
        if let Some((ident, next)) = cursor.ident() {
            digest.ident(ident);
            cursor = next;
        } else if let Some((punct, next)) = cursor.punct() {
            digest.punct(punct);
            cursor = next;
        } else if let Some((lifetime, next)) = cursor.lifetime() {
            digest.span(lifetime.apostrophe);
            digest.ident(lifetime.ident);
            cursor = next;
        } else if let Some((literal, next)) = cursor.literal() {
            digest.literal(literal);
            cursor = next;
        } else if let Some((inside, delimiter, span, next)) = cursor.any_group() {
            digest.number(delimiter_number(delimiter));
            digest.span(span.join());
            around.push(next)?;
            cursor = inside;
        } else {
            let Some(next) = around.pop() else {
                break;
            };
            digest.number(7);
            cursor = next;
        }
    }
    Ok(())
}
