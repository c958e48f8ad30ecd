//! Tests of bytes, 16 bytes at a time.
ghost use Rattle.std.specs.Prelude.{◌≡◌, ℕ, ◌+◌, ◌≤◌, Bool, length, not, count_by};
ghost use Rattle.tok_lexical.specs.Numbers.{is_digit_or_underscore};
ghost use Rattle.tok_lexical.specs.Pieces.{is_neither};
ghost use Rattle.tok_lexical.specs.Scans.{failing_bits};
ghost use Rattle.tok_lexical.specs.Private.Fronts.{is_ascii_continue, is_ascii_whitespace};
ghost use Rattle.tok_lexical.specs.Private.Scans.{AllPass, IsRun};

use std::simd::prelude::*;

// How many bytes are tested at a time.
const LANES: usize = 16;

/// A test that a byte either passes or fails.
// Each class is written for one byte and for 16: a byte would cost as much as 16 by lanes, and
// lanes read no table. Both contracts name `passes`, so the two can't differ.
pub trait ByteTest {
    ghost passes: { Self → ℕ → Bool };

    /// Returns `true` if `byte` passes the test.
    fn holds(&self, byte: u8) -> bool
        ensures { result ≡ passes self.now byte };

    /// Tests each byte of `bytes`, and returns a mask with one bit for each byte.
    ///
    /// The lowest bit stands for the first byte. A bit is 1 if its byte fails the test.
    fn fails(&self, bytes: u8x16) -> u64
        ensures { result ≡ failing_bits (passes self.now) bytes };
}

/// A test for bytes other than `one` and `other`.
#[derive(Drop)]
pub(crate) struct Others {
    pub one: u8,
    pub other: u8,
}

/// A test for ASCII characters that may continue an identifier.
#[derive(Drop)]
pub(crate) struct Continues;

/// A test for decimal digits and underscores.
#[derive(Drop)]
pub(crate) struct Decimals;

/// A test for ASCII white space.
#[derive(Drop)]
pub(crate) struct Blanks;

impl ByteTest for Others {
    ghost passes = { λ s. is_neither s.one s.other };

    #[inline(always)]
    fn holds(&self, byte: u8) -> bool {
        !(byte == self.one || byte == self.other)
    }

    #[inline(always)]
    fn fails(&self, bytes: u8x16) -> u64 {
        let stops = bytes.simd_eq(u8x16::splat(self.one)) | bytes.simd_eq(u8x16::splat(self.other));
        stops.to_bitmask()
    }
}

// Each ASCII character that may go on in an identifier is at its own index, and a dash at every
// other.
static CONTINUES: [u8; 128] = *b"\
    --------------------------------\
    ----------------0123456789------\
    -ABCDEFGHIJKLMNOPQRSTUVWXYZ----_\
    -abcdefghijklmnopqrstuvwxyz-----";

impl ByteTest for Continues {
    ghost passes = { λ _. is_ascii_continue };

    #[inline(always)]
    fn holds(&self, byte: u8) -> bool {
        byte < 0x80 && CONTINUES[byte as usize] != b'-'
    }

    #[inline(always)]
    fn fails(&self, bytes: u8x16) -> u64 {
        let from_a = (bytes | u8x16::splat(0x20)) - u8x16::splat(b'a');
        let from_zero = bytes - u8x16::splat(b'0');
        let stops = from_a.simd_ge(u8x16::splat(26))
            & from_zero.simd_ge(u8x16::splat(10))
            & bytes.simd_ne(u8x16::splat(b'_'));
        stops.to_bitmask()
    }
}

impl ByteTest for Decimals {
    ghost passes = { λ _. is_digit_or_underscore 10 };

    #[inline(always)]
    fn holds(&self, byte: u8) -> bool {
        byte.is_ascii_digit() || byte == b'_'
    }

    #[inline(always)]
    fn fails(&self, bytes: u8x16) -> u64 {
        let from_zero = bytes - u8x16::splat(b'0');
        let stops = from_zero.simd_ge(u8x16::splat(10)) & bytes.simd_ne(u8x16::splat(b'_'));
        stops.to_bitmask()
    }
}

impl ByteTest for Blanks {
    ghost passes = { λ _. is_ascii_whitespace };

    #[inline(always)]
    fn holds(&self, byte: u8) -> bool {
        matches!(byte, b' ' | 0x9..=0xD)
    }

    #[inline(always)]
    fn fails(&self, bytes: u8x16) -> u64 {
        let from_tab = bytes - u8x16::splat(0x9);
        let stops = from_tab.simd_ge(u8x16::splat(5)) & bytes.simd_ne(u8x16::splat(b' '));
        stops.to_bitmask()
    }
}

// Returns how many of the 16 bytes from `at` on come before the first that fails.
#[inline(always)]
fn run_at<S: ByteTest>(test: &S, bytes: &[u8], at: usize) -> usize
    requires { at + 16 ≤ length bytes.now }
    ensures { IsRun (S.passes test.now) bytes.now at 16 result }
{
    let fails = test.fails(u8x16::from_slice(&bytes[at..]));
    if fails == 0 {
        LANES
    } else {
        fails.trailing_zeros() as usize
    }
}

/// Returns the number of leading elements of `bytes` that pass the test.
// Inlined up to the first load: most runs are shorter.
#[inline(always)]
pub(crate) fn front_run<S: ByteTest>(test: &S, bytes: &[u8]) -> usize
    ensures { IsRun (S.passes test.now) bytes.now 0 (length bytes.now) result }
{
    if LANES <= bytes.len() {
        let run = run_at(test, bytes, 0);
        if run < LANES {
            return run;
        }
        return rest_of_run(test, bytes, LANES);
    }
    rest_of_run(test, bytes, 0)
}

// Does the same as `run_from`, out of line.
#[inline(never)]
fn rest_of_run<S: ByteTest>(test: &S, bytes: &[u8], from: usize) -> usize
    requires within { from ≤ length bytes.now }
    requires pass { AllPass (S.passes test.now) bytes.now 0 from }
    ensures { IsRun (S.passes test.now) bytes.now 0 (length bytes.now) result }
{
    run_from(test, bytes, from)
}

/// Returns the number of leading elements of `bytes` that pass the test.
///
/// The call tests only the elements from index `from` on.
///
/// # Requires
///
/// - `from` must be at most `bytes.len()`.
/// - The elements before index `from` must pass the test.
#[inline(always)]
pub(crate) fn run_from<S: ByteTest>(test: &S, bytes: &[u8], from: usize) -> usize
    requires within { from ≤ length bytes.now }
    requires pass { AllPass (S.passes test.now) bytes.now 0 from }
    ensures { IsRun (S.passes test.now) bytes.now 0 (length bytes.now) result }
{
    let mut end = from;
    if bytes.len() < LANES {
        while end < bytes.len() && test.holds(bytes[end]) {
            end += 1;
        }
        return end;
    }
    while LANES <= bytes.len() - end {
        let run = run_at(test, bytes, end);
        end += run;
        if run < LANES {
            return end;
        }
    }
    // The last load goes back over bytes that pass.
    let at = bytes.len() - LANES;
    at + run_at(test, bytes, at)
}

/// Returns the number of elements of `bytes` that fail the test.
pub fn count_failing<S: ByteTest>(test: &S, bytes: &[u8]) -> usize
    ensures { result ≡ count_by (λ byte. not (S.passes test.now byte)) bytes.now }
{
    let mut count = 0;
    let mut at = 0;
    while LANES <= bytes.len() - at {
        count += test.fails(u8x16::from_slice(&bytes[at..])).count_ones() as usize;
        at += LANES;
    }
    while at < bytes.len() {
        if !test.holds(bytes[at]) {
            count += 1;
        }
        at += 1;
    }
    count
}
