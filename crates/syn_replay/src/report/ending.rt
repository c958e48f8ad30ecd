//! Functions that write the end of a report line. They fill a buffer on the stack, starting at its
//! end, and then write the result in one call.
ghost use Rattle.std.specs.Prelude.{◌≡◌, ◌+◌, ◌≤◌, ◌<◌, ◌∷◌, ◌++◌, codes, drop};
ghost use Rattle.std.specs.Fmt.{WritesOnOk, decimal};
ghost use Rattle.std.specs.Str.{IsAscii};
ghost use Rattle.syn_replay.specs.ReportText as spec;
ghost use Rattle.syn_replay.specs.ReportText.{as_line};
ghost use Rattle.syn_replay.specs.Meanings.{position_of};

use crate::report::Position;
use crate::report::place::{write_position, write_span};
use itoa::write_digits;
use std::fmt;
use std::fmt::{Formatter, Write};
use std::str::from_utf8_unchecked;
use tok_core::Span;

// The most digits of a `u64`.
const MOST_DIGITS: usize = 20;

// The most bytes of a range, with the space before it and its `..`.
const LONGEST_RANGE: usize = MOST_DIGITS + MOST_DIGITS + 3;

// The most bytes of a place, with its space, `@` and line feed.
const LONGEST_PLACE: usize = MOST_DIGITS + 3;

// The room for a range and a place, a multiple of eight bytes.
const ROOM: usize = (LONGEST_RANGE + LONGEST_PLACE + 7) / 8 * 8;

// Puts a byte before the bytes from `end` on, and returns where it is.
fn put(bytes: &mut [u8; ROOM], byte: u8, end: usize) -> usize
    requires room { (0 < end) × (end ≤ ROOM) }
    requires ascii { byte < 128 }
    ensures written { drop result bytes.new ≡ byte ∷ drop end bytes.old }
    ensures place { result + 1 ≡ end }
    ensures ascii { IsAscii (drop end bytes.old) → IsAscii (drop result bytes.new) }
{
    bytes[end - 1] = byte;
    end - 1
}

// Puts a number before the bytes from `end` on, and returns where it begins.
fn put_number(bytes: &mut [u8; ROOM], number: usize, end: usize) -> usize
    requires { (MOST_DIGITS ≤ end) × (end ≤ ROOM) }
    ensures written { drop result bytes.new ≡ decimal number ++ drop end bytes.old }
    ensures place { (end ≤ result + MOST_DIGITS) × (result ≤ end) }
    ensures ascii { IsAscii (drop end bytes.old) → IsAscii (drop result bytes.new) }
{
    write_digits(number as u64, bytes, end)
}

// Puts a space and a range.
fn put_range(bytes: &mut [u8; ROOM], start: usize, stop: usize, end: usize) -> usize
    requires { (LONGEST_RANGE ≤ end) × (end ≤ ROOM) }
    ensures written { drop result bytes.new
        ≡ codes " " ++ (decimal start ++ (codes ".." ++ (decimal stop ++ drop end bytes.old))) }
    ensures place { (end ≤ result + LONGEST_RANGE) × (result ≤ end) }
    ensures ascii { IsAscii (drop end bytes.old) → IsAscii (drop result bytes.new) }
{
    let at = put_number(bytes, stop, end);
    let at = put(bytes, b'.', at);
    let at = put(bytes, b'.', at);
    let at = put_number(bytes, start, at);
    put(bytes, b' ', at)
}

// Puts a space, a place and a line feed at the end of the bytes.
fn put_place(bytes: &mut [u8; ROOM], place: usize) -> usize
    ensures written { drop result bytes.new ≡ codes " @" ++ (decimal place ++ codes "\n") }
    ensures place { (ROOM ≤ result + LONGEST_PLACE) × (result ≤ ROOM) }
    ensures ascii { IsAscii (drop result bytes.new) }
{
    let at = put(bytes, b'\n', ROOM);
    let at = put_number(bytes, place, at);
    let at = put(bytes, b'@', at);
    put(bytes, b' ', at)
}

// Pushes the bytes from `start` on.
fn push<W: Write>(f: &mut Formatter<W>, bytes: &[u8; ROOM], start: usize) -> fmt::Result
    requires within { start ≤ ROOM }
    requires ascii { IsAscii (drop start bytes.now) }
    ensures { WritesOnOk W.write_str_gives f.old result (drop start bytes.now) f.new }
{
    // They are ASCII, so nothing is tested again.
    f.write_str(unsafe { from_utf8_unchecked(&bytes[start..]) })
}

/// Writes a space, a position and a line feed.
pub fn write_end<W: Write>(f: &mut Formatter<W>, position: Position) -> fmt::Result
    ensures { WritesOnOk W.write_str_gives f.old result
        (as_line (codes " " ++ spec.position_text (position_of position))) f.new }
{
    if let Position::At(place) = position {
        let mut bytes = [0u8; ROOM];
        let start = put_place(&mut bytes, place);
        return push(f, &bytes, start);
    }
    f.write_str(" ")?;
    write_position(f, position)?;
    f.write_str("\n")
}

/// Writes a space, a span, a space, a position and a line feed.
pub fn write_spanned_end<W: Write>(
    f: &mut Formatter<W>,
    span: Span,
    position: Position,
) -> fmt::Result
    ensures { WritesOnOk W.write_str_gives f.old result
        (as_line (codes " "
        ++ (spec.span_text span ++ (codes " " ++ spec.position_text (position_of position)))))
        f.new }
{
    if let (Some((_, start, stop)), Position::At(place)) = (span.as_range(), position) {
        let mut bytes = [0u8; ROOM];
        let at = put_place(&mut bytes, place);
        let at = put_range(&mut bytes, start, stop, at);
        return push(f, &bytes, at);
    }
    f.write_str(" ")?;
    write_span(f, span)?;
    write_end(f, position)
}
