//! A function that counts the line feeds in a byte slice, many bytes at a time.
ghost use Rattle.std.specs.Prelude.{◌≡◌, ◌+◌, ◌*◌, ◌≤◌, count_by, length, take};
ghost use Rattle.tok_lexical.specs.Ascii.{line_feed};
ghost use Rattle.memchr.specs.Find.{is_byte};

use std::simd::prelude::*;

// How many bytes are compared at a time in a long text.
const LANES: usize = 64;

// How many times a lane is counted up before it may be full.
const MOST: usize = 255;

// How many bytes are compared at a time in what is left.
const FEW: usize = 16;

/// Returns the number of line feeds in `bytes`.
pub fn line_feeds(bytes: &[u8]) -> usize
    ensures { result ≡ count_by (is_byte line_feed) bytes.now }
{
    let mut count = 0;
    let mut at = 0;
    while LANES <= bytes.len() - at {
        let steps = ((bytes.len() - at) / LANES).min(MOST);
        count += in_steps(bytes, at, steps);
        at += LANES * steps;
    }
    while FEW <= bytes.len() - at {
        count += in_few(bytes, at);
        at += FEW;
    }
    while at < bytes.len() {
        if bytes[at] == b'\n' {
            count += 1;
        }
        at += 1;
    }
    count
}

// Returns how many line feeds are in so many times 64 bytes, from a place on. Each lane counts its
// own, in a byte.
fn in_steps(bytes: &[u8], from: usize, steps: usize) -> usize
    requires within { from + LANES * steps ≤ length bytes.now }
    requires few { steps ≤ MOST }
    ensures { count_by (is_byte line_feed) (take from bytes.now) + result
        ≡ count_by (is_byte line_feed) (take (from + LANES * steps) bytes.now) }
{
    let mut counts = u8x64::splat(0);
    let mut done = 0;
    while done < steps {
        let lanes = u8x64::from_slice(&bytes[from + LANES * done..]);
        let feeds = lanes.simd_eq(u8x64::splat(b'\n'));
        counts += feeds.select(u8x64::splat(1), u8x64::splat(0));
        done += 1;
    }
    let wide: u16x64 = counts.cast();
    usize::from(wide.reduce_sum())
}

// Returns how many line feeds are in 16 bytes, from a place on.
fn in_few(bytes: &[u8], at: usize) -> usize
    requires { at + FEW ≤ length bytes.now }
    ensures { count_by (is_byte line_feed) (take at bytes.now) + result
        ≡ count_by (is_byte line_feed) (take (at + FEW) bytes.now) }
{
    let lanes = u8x16::from_slice(&bytes[at..]);
    let feeds = lanes.simd_eq(u8x16::splat(b'\n'));
    feeds.to_bitmask().count_ones() as usize
}
