//! The pieces in which a report is printed. A writer that fails has those before its failure.
use std::alloc::{AllocGlobal, Global};
use std::fmt::{self, Write};
use std::ops::Range;
use std::process::Abort;
use syn_tokens::{Command, Delimiter, Kind, Look, Report, Separator, lex_marked, replay};

// Takes so many pieces, each with a bar after it, and then fails. A piece of no bytes is none.
#[derive(Drop)]
struct Few {
    left: usize,
    text: String,
}

impl Write for Few {
    fn write_str(&mut self, piece: &str) -> fmt::Result {
        if piece.is_empty() {
            return Ok(());
        }
        if self.left == 0 || self.text.push_str(piece).is_err() || self.text.push('|').is_err() {
            return Err(fmt::Error);
        }
        self.left -= 1;
        Ok(())
    }
}

// A command of each kind of answer, with none and several pieces, trees and parts.
fn report(alloc: Global) -> Option<Report> {
    let mut looks = Vec::new(alloc);
    looks.push(Look::Kind(Kind::Literal)).ok()?;
    let mut lookahead = Vec::new(alloc);
    lookahead.push(Look::Kind(Kind::Lifetime)).ok()?;
    let commands = vec![in alloc;
        Command::Enter(0, Delimiter::Parenthesis),
        Command::Parse(1, Kind::Ident),
        Command::Empty(1),
        Command::Close(1),
        Command::Fork(0),
        Command::Discard(2),
        Command::Lookahead(0, looks),
        Command::Lookahead(0, lookahead),
        Command::Parse(0, Kind::Lifetime),
        Command::Optional(0, Kind::Ident),
        Command::StreamSpan(0),
        Command::Parse(0, Kind::Literal),
        Command::Separated(0, Kind::Ident, Separator::Comma),
        Command::Tree(0),
        Command::Rest(0),
        Command::Terminated(0, Kind::Ident, Separator::Semi),
        Command::Peek(0, Look::End),
        Command::Parse(0, Kind::Ident),
        Command::Empty(3),
    ]
    .ok()?;
    let stream = lex_marked(alloc, 0, "(a) 'b 1 c,d {e} f").ok()?;
    replay(alloc, stream, &commands).ok()
}

// Each kind of line, in the pieces in which a report is printed.
const PIECES: &str = "\
entered |1| |(| |0|..|3| @3\n|\
read |a| 1..2 @2\n|\
true| @2\n|\
done| @2\n|\
forked |2| @3\n|\
done| @3\n|\
refused |4|..|5| |expected literal| @3\n|\
found |0| @3\n|\
read| |'| |4|..|5| |b| |5|..|6| @5\n|\
none| @5\n|\
span |7|..|8| @5\n|\
read |1| 7..8 @6\n|\
list| [|c| |9|..|10|]| [|,| |10|..|11|]| [|d| |11|..|12|]| @9\n|\
trees| |{|e|}| @12\n|\
trees| |f| |@empty|\n|\
list| |@empty|\n|\
true| |@empty|\n|\
refused |call| |unexpected end of input, expected identifier| |@empty|\n|\
refused C|1| |@-|\n|\
accepted|\n|\
";

// Returns the pieces that a writer has that takes so many, and whether it failed.
fn taken(report: &Report, alloc: Global, left: usize) -> (String, bool) {
    let mut few = Few {
        left,
        text: String::new(alloc),
    };
    let failed = write!(few, "{report}").is_err();
    (few.text, failed)
}

// Returns the first pieces, and whether there are more.
fn first(count: usize) -> (&'static str, bool) {
    let mut end = 0;
    let mut left = count;
    for (at, byte) in PIECES.as_bytes().iter().enumerate() {
        if left == 0 {
            break;
        }
        if *byte == b'|' {
            left -= 1;
            end = at + 1;
        }
    }
    (PIECES.get(..end).unwrap_or(""), end < PIECES.len())
}

fn is_taken(alloc: Global, count: usize) -> bool {
    let Some(report) = report(alloc) else {
        return false;
    };
    let (text, failed) = taken(&report, alloc, count);
    let (wanted, has_more) = first(count);
    text.as_str() == wanted && failed == has_more
}

fn all_taken(rt: &(impl Abort + AllocGlobal), counts: Range<usize>) {
    for count in counts {
        assert!(rt; is_taken(rt.alloc(), count), "{count} pieces");
    }
}

#[test]
fn fails_between_pieces(rt: HostRuntime) {
    all_taken(&rt, 0..114);
}
