//! Functions that write positions, spans and numbers as a report shows them.
ghost use Rattle.std.specs.Fmt.{WritesOnOk, decimal};
ghost use Rattle.syn_replay.specs.ReportText as spec;
ghost use Rattle.syn_replay.specs.Meanings.{position_of};

use crate::report::Position;
use itoa::Buffer;
use std::fmt;
use std::fmt::{Formatter, Write};
use tok_core::Span;

/// Writes a position as a report shows it, such as `@5`.
pub fn write_position<W: Write>(f: &mut Formatter<W>, position: Position) -> fmt::Result
    ensures { WritesOnOk W.write_str_gives f.old result
        (spec.position_text (position_of position)) f.new }
{
    match position {
        Position::At(n) => {
            f.write_str("@")?;
            write_number(f, n)
        }
        Position::Empty => f.write_str("@empty"),
        Position::Missing => f.write_str("@-"),
    }
}

/// Writes a span as a report shows it, such as `3..4`, or `call` for the call site.
pub fn write_span<W: Write>(f: &mut Formatter<W>, span: Span) -> fmt::Result
    ensures { WritesOnOk W.write_str_gives f.old result (spec.span_text span) f.new }
{
    match span.as_range() {
        None => f.write_str("call"),
        Some((_, start, end)) => {
            write_number(f, start)?;
            f.write_str("..")?;
            write_number(f, end)
        }
    }
}

/// Writes a number in decimal. Most lines of a report contain three or more numbers, so this
/// function uses `itoa`, which is faster than `Display`.
pub fn write_number<W: Write>(f: &mut Formatter<W>, number: usize) -> fmt::Result
    ensures { WritesOnOk W.write_str_gives f.old result (decimal number) f.new }
{
    f.write_str(Buffer::new().format(number))
}
