//! A number that all results of a job go into.
use std::hash::{FoldHasher, Hasher};
use tok_core::{Ident, Literal, Punct, Spacing, Span};

/// A digest of numbers and texts, in their order.
#[derive(Drop)]
pub struct Digest {
    texts: FoldHasher,
    numbers: u64,
    count: u64,
}

impl Digest {
    /// Creates the digest of nothing.
    pub fn new() -> Digest {
        Digest {
            texts: FoldHasher::default(),
            numbers: 0,
            count: 0,
        }
    }

    /// Takes in a number.
    pub fn number(&mut self, number: u64) {
        self.numbers = (self.numbers ^ number)
            .wrapping_mul(0x9E37_79B9_7F4A_7C15)
            .rotate_left(29);
        self.count = self.count.wrapping_add(1);
    }

    /// Takes in a text.
    pub fn text(&mut self, text: &str) {
        self.texts.write(text.as_bytes());
        self.number(text.len() as u64);
    }

    /// Takes in a span.
    pub fn span(&mut self, span: Span) {
        match span.as_range() {
            Some((source, start, end)) => {
                self.number(u64::from(source) << 32 ^ (start as u64) << 1 ^ (end as u64) << 33);
            }
            None => self.number(1),
        }
    }

    /// Takes in an identifier.
    pub fn ident(&mut self, ident: &Ident) {
        self.text(ident.as_str());
        self.span(ident.span());
    }

    /// Takes in a punct.
    pub fn punct(&mut self, punct: Punct) {
        let joint = match punct.spacing() {
            Spacing::Joint => 1,
            Spacing::Alone => 0,
        };
        self.number(u64::from(punct.as_char()) << 1 | joint);
        self.span(punct.span());
    }

    /// Takes in a literal.
    pub fn literal(&mut self, literal: &Literal) {
        self.text(literal.as_str());
        self.span(literal.span());
    }

    /// Returns how much was taken in, and the digest.
    pub fn finish(&self) -> (u64, u64) {
        (self.count, self.texts.finish() ^ self.numbers)
    }
}
