//! Functions that write a report as text.
ghost use Rattle.std.specs.Prelude.{◌≡◌, ◌++◌, Some, codes, map};
ghost use Rattle.std.specs.Fmt.{WritesOnOk};
ghost use Rattle.std.specs.List.{flat_map};
ghost use Rattle.syn_replay.specs.ReportText as spec;
ghost use Rattle.tok_buffer.specs.Messages.{first_message};
ghost use Rattle.syn_replay.specs.Meanings.{piece_of, pieces_in, answer_of, position_of, line_of, verdict_of, report_of};

use crate::report::ending::{write_end, write_spanned_end};
use crate::report::place::{write_number, write_position, write_span};
use crate::report::{Answer, Line, Misuse, Piece, Position, Report, Verdict};
use std::fmt;
use std::fmt::{Formatter, Write};
use tok_buffer::Error;
use tok_core::TokenStream;

impl fmt::Display for Report {
    ghost output = { λ r. Some (spec.report_text (report_of r)) };

    fn fmt<W: Write>(&self, f: &mut Formatter<W>) -> fmt::Result {
        for line in &self.lines {
            write_line(f, line)?;
        }
        write_last(f, &self.verdict)
    }
}

/// Writes a verdict, and then a line feed.
pub fn write_last<W: Write>(f: &mut Formatter<W>, verdict: &Verdict) -> fmt::Result
    ensures { WritesOnOk W.write_str_gives f.old result
        (spec.as_line (spec.verdict_text (verdict_of verdict.now))) f.new }
{
    write_verdict(f, verdict)?;
    f.write_char('\n')
}

impl fmt::Display for Line {
    ghost output = { λ l. Some (spec.line_text (line_of l)) };

    fn fmt<W: Write>(&self, f: &mut Formatter<W>) -> fmt::Result {
        write_answer(f, &self.answer)?;
        f.write_str(" ")?;
        write_position(f, self.position)
    }
}

/// Writes a line of a report, and then a line feed.
///
/// A report has many lines, so this function does not call `write!`. Most lines end in a span or a
/// position, which `write_end` and `write_spanned_end` write in one call.
pub fn write_line<W: Write>(f: &mut Formatter<W>, line: &Line) -> fmt::Result
    ensures { WritesOnOk W.write_str_gives f.old result
        (spec.as_line (spec.line_text (line_of line.now))) f.new }
{
    match &line.answer {
        Answer::Read(pieces) if pieces.len() == 1 => write_read(f, &pieces[0], line.position),
        answer => {
            write_answer(f, answer)?;
            write_end(f, line.position)
        }
    }
}

// Writes the line of one piece.
fn write_read<W: Write>(f: &mut Formatter<W>, piece: &Piece, position: Position) -> fmt::Result
    ensures { WritesOnOk W.write_str_gives f.old result
        (spec.as_line (codes "read"
        ++ (spec.piece_text (piece_of piece.now)
        ++ (codes " " ++ spec.position_text (position_of position))))) f.new }
{
    let text = piece.text.as_str();
    if text.is_empty() {
        f.write_str("read")?;
    } else {
        f.write_str("read ")?;
        f.write_str(text)?;
    }
    write_spanned_end(f, piece.span, position)
}

impl fmt::Display for Answer {
    ghost output = { λ a. Some (spec.answer_text (answer_of a)) };

    fn fmt<W: Write>(&self, f: &mut Formatter<W>) -> fmt::Result {
        write_answer(f, self)
    }
}

fn write_answer<W: Write>(f: &mut Formatter<W>, answer: &Answer) -> fmt::Result
    ensures { WritesOnOk W.write_str_gives f.old result
        (spec.answer_text (answer_of answer.now)) f.new }
{
    match answer {
        Answer::Truth(true) => f.write_str("true"),
        Answer::Truth(false) => f.write_str("false"),
        Answer::Read(pieces) => write_pieces(f, pieces),
        Answer::Entered(number, delimiter, span) => {
            f.write_str("entered ")?;
            write_number(f, *number)?;
            f.write_str(" ")?;
            f.write_str(delimiter.opening())?;
            f.write_str(" ")?;
            write_span(f, span.join())
        }
        Answer::Absent => f.write_str("none"),
        Answer::Forked(number) => {
            f.write_str("forked ")?;
            write_number(f, *number)
        }
        Answer::List(parts) => write_parts(f, parts),
        Answer::Found(index) => {
            f.write_str("found ")?;
            write_number(f, *index)
        }
        Answer::Trees(stream) => write_trees(f, stream),
        Answer::Done => f.write_str("done"),
        Answer::At(span) => {
            f.write_str("span ")?;
            write_span(f, *span)
        }
        Answer::Refused(error) => write_message(f, error),
        Answer::Misused(misuse) => write!(f, "refused C{}", misuse.number()),
    }
}

impl Misuse {
    // Returns the number that is printed.
    fn number(self) -> u8
        ensures { result ≡ spec.misuse_number self }
    {
        match self {
            Misuse::NoStream => 1,
            Misuse::Spent => 2,
            Misuse::NoFork => 3,
            Misuse::NoContent => 4,
            Misuse::OutOfScope => 5,
        }
    }
}

/// Writes the same text as `Display`.
impl fmt::Debug for Answer {
    fn fmt<W: Write>(&self, f: &mut Formatter<W>) -> fmt::Result {
        write!(f, "{self}")
    }
}

impl fmt::Display for Position {
    ghost output = { λ p. Some (spec.position_text (position_of p)) };

    fn fmt<W: Write>(&self, f: &mut Formatter<W>) -> fmt::Result {
        write_position(f, *self)
    }
}

impl fmt::Display for Verdict {
    ghost output = { λ v. Some (spec.verdict_text (verdict_of v)) };

    fn fmt<W: Write>(&self, f: &mut Formatter<W>) -> fmt::Result {
        write_verdict(f, self)
    }
}

fn write_verdict<W: Write>(f: &mut Formatter<W>, verdict: &Verdict) -> fmt::Result
    ensures { WritesOnOk W.write_str_gives f.old result
        (spec.verdict_text (verdict_of verdict.now)) f.new }
{
    match verdict {
        Verdict::Accepted => f.write_str("accepted"),
        Verdict::Refused(error) => write_message(f, error),
    }
}

fn write_pieces<W: Write>(f: &mut Formatter<W>, pieces: &Vec<Piece>) -> fmt::Result
    ensures { WritesOnOk W.write_str_gives f.old result
        (codes "read" ++ flat_map spec.piece_text (map piece_of pieces.now.items)) f.new }
{
    f.write_str("read")?;
    write_more(f, pieces.as_slice())
}

// Writes pieces, each after a space.
fn write_more<W: Write>(f: &mut Formatter<W>, pieces: &[Piece]) -> fmt::Result
    ensures { WritesOnOk W.write_str_gives f.old result
        (flat_map spec.piece_text (map piece_of pieces.now)) f.new }
{
    for piece in pieces {
        write_spaced(f, piece.text.as_str())?;
        f.write_str(" ")?;
        write_span(f, piece.span)?;
    }
    Ok(())
}

// Writes `list`, and each value and separator in brackets.
fn write_parts<W: Write>(f: &mut Formatter<W>, parts: &Vec<Vec<Piece>>) -> fmt::Result
    ensures { WritesOnOk W.write_str_gives f.old result
        (codes "list" ++ flat_map spec.part_text (map pieces_in parts.now.items)) f.new }
{
    f.write_str("list")?;
    for part in parts {
        write_part(f, part.as_slice())?;
    }
    Ok(())
}

fn write_part<W: Write>(f: &mut Formatter<W>, part: &[Piece]) -> fmt::Result
    ensures { WritesOnOk W.write_str_gives f.old result
        (spec.part_text (map piece_of part.now)) f.new }
{
    match part.split_first() {
        None => f.write_str(" []"),
        Some((first, rest)) => {
            f.write_str(" [")?;
            f.write_str(first.text.as_str())?;
            f.write_str(" ")?;
            write_span(f, first.span)?;
            write_more(f, rest)?;
            f.write_str("]")
        }
    }
}

// Writes `trees`, and the text of the trees if there are any.
fn write_trees<W: Write>(f: &mut Formatter<W>, stream: &TokenStream) -> fmt::Result
    ensures { WritesOnOk W.write_str_gives f.old result
        (codes "trees" ++ spec.trees_text stream.now) f.new }
{
    f.write_str("trees")?;
    if stream.is_empty() {
        Ok(())
    } else {
        write!(f, " {stream}")
    }
}

// Writes `refused`, the span and the text.
fn write_message<W: Write>(f: &mut Formatter<W>, error: &Error) -> fmt::Result
    ensures { WritesOnOk W.write_str_gives f.old result
        (spec.message_text (first_message error.now)) f.new }
{
    f.write_str("refused ")?;
    write_span(f, error.span())?;
    f.write_str(" ")?;
    f.write_str(error.as_str())
}

// Writes a part after a space, or nothing if it is empty.
fn write_spaced<W: Write>(f: &mut Formatter<W>, part: &str) -> fmt::Result
    ensures { WritesOnOk W.write_str_gives f.old result (spec.spaced part.now) f.new }
{
    if part.is_empty() {
        Ok(())
    } else {
        f.write_str(" ")?;
        f.write_str(part)
    }
}
