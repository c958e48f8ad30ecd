//! What stays of several things that are added in turn, if an allocation fails for one of them.
use std::alloc::Global;
use syn_punctuated::{Pair, Punctuated};
use test_outcomes::memory::{Stop, made};
use tok_buffer::Error;
use tok_core::{Span, ToTokens, TokenStream, lex};

/// How many are there after the call, and whether an allocation failed.
#[derive(Clone, Copy)]
pub struct Kept {
    pub count: usize,
    pub is_refused: bool,
}

// Returns an error of one message.
fn error(alloc: Global) -> Result<Error, Stop> {
    made(Error::new(alloc, Span::call_site(), "x"))
}

/// Writes a stream of four groups, since a copy of each allocates.
pub fn tokens(alloc: Global) -> Result<Kept, Stop> {
    let groups = made(lex(alloc, 0, "(a) (b) (c) (d)"))?;
    let mut tokens = TokenStream::new(alloc);
    let is_refused = groups.to_tokens(&mut tokens).is_err();
    Ok(Kept {
        count: tokens.trees().len(),
        is_refused,
    })
}

/// Extends a list by nine values.
pub fn values(alloc: Global) -> Result<Kept, Stop> {
    let mut list = Punctuated::<u32, char>::new(alloc);
    let is_refused = list.extend_values(0..9).is_err();
    Ok(Kept {
        count: list.len(),
        is_refused,
    })
}

/// Extends a list by nine pairs.
pub fn pairs(alloc: Global) -> Result<Kept, Stop> {
    let mut list = Punctuated::<u32, char>::new(alloc);
    let more = (0..9).map(|value| Pair::Punctuated(value, ','));
    let is_refused = list.extend_pairs(more).is_err();
    Ok(Kept {
        count: list.len(),
        is_refused,
    })
}

/// Extends an error by nine others.
pub fn errors(alloc: Global) -> Result<Kept, Stop> {
    let mut all = error(alloc)?;
    let mut more = Vec::new(alloc);
    for _ in 0..9 {
        made(more.push(error(alloc)?))?;
    }
    let is_refused = all.extend(more).is_err();
    let mut count: usize = 0;
    for _ in all {
        count = count.saturating_add(1);
    }
    Ok(Kept { count, is_refused })
}
