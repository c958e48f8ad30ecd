//! Tests for the characters that stand for themselves between quotes.
ghost use Rattle.tok_values.specs.Private.Plain.{is_plain};

use std::simd::prelude::*;
use tok_lexical::scan::ByteTest;

/// A test for the bytes of characters that stand for themselves between quotes.
///
/// If `wide` is `true`, only ASCII bytes can pass the test, as in a byte string.
#[derive(Drop)]
pub struct Plain {
    pub wide: bool,
}

impl ByteTest for Plain {
    ghost passes = { λ s. is_plain s.wide };

    #[inline(always)]
    fn holds(&self, byte: u8) -> bool {
        !(byte == b'\\' || byte == b'"' || byte == b'\r' || (self.wide && byte >= 0x80))
    }

    #[inline(always)]
    fn fails(&self, bytes: u8x16) -> u64 {
        let top = if self.wide { 0x7F } else { 0xFF };
        let stops = bytes.simd_eq(u8x16::splat(b'\\'))
            | bytes.simd_eq(u8x16::splat(b'"'))
            | bytes.simd_eq(u8x16::splat(b'\r'))
            | bytes.simd_gt(u8x16::splat(top));
        stops.to_bitmask()
    }
}
