//! Builds groups by hand, as deep as the input says, and makes the call that it names.
//!
//! `bench/hostile` measures how deep they may be: some calls recurse once per level on the
//! machine's stack.
use anyhow::{Context, Result, bail};
use arguments::parse_arguments;
use std::alloc::Global;
use std::hash::{BuildHasher, BuildHasherDefault, FoldHasher};
use tok_buffer::TokenBuffer;
use tok_core::{
    Delimiter, Group, Ident, Span, TokenStream, TokenStreamHelper, TokenTree, is_clear, is_filled,
    same_visible,
};

/// Makes the call, and returns a number that shows that it was made.
pub fn count(alloc: Global, input: &str) -> Result<usize> {
    let (call, depth) = input.trim().split_once(' ').context("no call and depth")?;
    let depth: usize = depth.parse().ok().context("no number of groups")?;
    made(alloc, call, nested(alloc, depth)?)
}

// Returns `a(a(a()))` with this many groups.
fn nested(alloc: Global, depth: usize) -> Result<TokenStream> {
    let mut stream = TokenStream::new(alloc);
    for _ in 0..depth {
        let name = Ident::new(alloc, "a", Span::call_site())
            .ok()
            .context("no name")?;
        let group = Group::new(Delimiter::Parenthesis, stream, Span::call_site());
        stream = TokenStream::new(alloc);
        stream.append(TokenTree::Ident(name))?;
        stream.append(TokenTree::Group(group))?;
    }
    Ok(stream)
}

fn made(alloc: Global, call: &str, stream: TokenStream) -> Result<usize> {
    match call {
        "drop" => Ok(stream.trees().len()),
        "clone" => Ok(stream.clone()?.trees().len()),
        "weight" => Ok(stream.weight()),
        "==" => Ok(usize::from(TokenStreamHelper(&stream) == TokenStreamHelper(&stream))),
        "hash" => {
            let hasher = BuildHasherDefault::<FoldHasher>::default();
            Ok(usize::from(hasher.hash_one(&TokenStreamHelper(&stream)) > 0))
        }
        "to_string" => Ok(stream.to_string(alloc)?.len()),
        "is_filled" => Ok(usize::from(is_filled(&stream))),
        "is_clear" => Ok(usize::from(is_clear(&stream))),
        "same_visible" => Ok(usize::from(same_visible(alloc, &stream, &stream)?)),
        "new2" => {
            let buffer = TokenBuffer::new2(alloc, 0, stream)?;
            Ok(usize::from(!buffer.begin().eof()))
        }
        "token_stream" => {
            let buffer = TokenBuffer::new2(alloc, 0, stream)?;
            Ok(buffer.begin().token_stream(alloc)?.trees().len())
        }
        "parse_arguments" => {
            let list = parse_arguments(alloc, stream);
            Ok(list.ok().context("no arguments")?.len())
        }
        _ => bail!("no such call"),
    }
}
