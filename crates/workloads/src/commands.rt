//! Long lists of commands, over a text, or over two that differ only in invisible groups.
use crate::digest::Digest;
use crate::pen::Pen;
use anyhow::Result;
use itoa::Buffer;
use replay_program::respond;
use std::alloc::{AllocError, Global};

// A text, the same text with invisible groups, the commands, and how many streams they have made.
#[derive(Drop)]
struct Session {
    text: String,
    marked: String,
    commands: String,
    streams: usize,
}

impl Session {
    fn new(alloc: Global) -> Session {
        Session {
            text: String::new(alloc),
            marked: String::new(alloc),
            commands: String::new(alloc),
            streams: 0,
        }
    }

    // Writes a piece of both texts.
    fn both(&mut self, piece: &str) -> Result<(), AllocError> {
        self.text.push_str(piece)?;
        self.marked.push_str(piece)
    }

    // Writes a command on a stream: `before`, the stream's number, `after`.
    fn command(&mut self, before: &str, stream: usize, after: &str) -> Result<(), AllocError> {
        self.commands.push_str(before)?;
        self.commands.push(' ')?;
        self.commands.push_str(Buffer::new().format(stream))?;
        self.commands.push_str(after)?;
        self.commands.push('\n')
    }

    // Writes a command that makes a stream, and returns the stream's number.
    fn makes(&mut self, before: &str, stream: usize, after: &str) -> Result<usize, AllocError> {
        self.command(before, stream, after)?;
        self.streams = self.streams.saturating_add(1);
        Ok(self.streams)
    }
}

/// Runs so many lists of commands, each over a text of up to 20,000 items.
pub fn run(alloc: Global, seed: u64, rounds: usize, digest: &mut Digest) -> Result<()> {
    let mut pen = Pen::new(alloc, seed, true)?;
    for number in 0..rounds {
        let count = match number % 8 {
            7 => 20_000,
            3 => 5_000,
            _ => pen.random.below(600).saturating_add(200),
        };
        let session = write_session(&mut pen, count, None)?;
        let mut input = session.text;
        input.push_str("\n---\n")?;
        input.push_str(session.commands.as_str())?;
        digest_run(alloc, input.as_str(), digest)?;
    }
    Ok(())
}

/// Runs so many lists of commands, each over a text and over the same one with invisible groups.
pub fn run_both(alloc: Global, seed: u64, rounds: usize, digest: &mut Digest) -> Result<()> {
    let mut pen = Pen::new(alloc, seed, true)?;
    for number in 0..rounds {
        let count = match number % 8 {
            7 => 10_000,
            3 => 3_000,
            _ => pen.random.below(600).saturating_add(200),
        };
        let empties = if number % 4 == 1 { 4 } else { 0 };
        let session = write_session(&mut pen, count, Some(empties))?;
        let mut input = session.text;
        input.push_str("\n---\n")?;
        input.push_str(session.marked.as_str())?;
        input.push_str("\n---\n")?;
        input.push_str(session.commands.as_str())?;
        digest_run(alloc, input.as_str(), digest)?;
    }
    Ok(())
}

fn digest_run(alloc: Global, input: &str, digest: &mut Digest) -> Result<()> {
    let (output, status) = respond(alloc, input.as_bytes())?;
    digest.text(output.as_str());
    digest.number(u64::from(status));
    Ok(())
}

// Writes items and the commands that read them: all commands, or the transparent ones, with runs of
// empty groups in this many of 100 items.
fn write_session(
    pen: &mut Pen,
    count: usize,
    empties: Option<usize>,
) -> Result<Session, AllocError> {
    let mut session = Session::new(pen.alloc);
    for _ in 0..count {
        attribute(pen, &mut session)?;
        field(pen, &mut session, empties)?;
    }
    Ok(session)
}

// Puts one of the pen's words into both texts.
fn word(pen: &mut Pen, session: &mut Session) -> Result<(), AllocError> {
    pen.name()?;
    let word = pen.take();
    session.both(word.as_str())
}

// Writes `#[name(name = "text", name)]`, and the commands for it.
fn attribute(pen: &mut Pen, session: &mut Session) -> Result<(), AllocError> {
    session.both("#[")?;
    word(pen, session)?;
    session.both("(")?;
    word(pen, session)?;
    session.both(" = ")?;
    session.marked.push_str("«")?;
    pen.string()?;
    let literal = pen.take();
    session.both(literal.as_str())?;
    session.marked.push_str("»")?;
    session.both(", ")?;
    word(pen, session)?;
    session.both(")]\n")?;

    let looks = pen.random.pick(
        &[
            " fn struct #",
            " #",
            " Ident Literal Lifetime #",
            " :: , ; fn #",
        ],
        " #",
    );
    session.command("lookahead", 0, looks)?;
    session.command("parse", 0, " #")?;
    let brackets = session.makes("enter", 0, " [")?;
    session.command("parse", brackets, " Ident")?;
    if pen.random.chance(10) {
        session.command("parse", brackets, " fn")?;
    }
    if pen.random.chance(5) {
        session.command("lookahead", brackets, " fn , Literal")?;
    }
    let parens = session.makes("enter", brackets, " (")?;
    let fork = session.makes("fork", parens, "")?;
    session.command("parse", fork, " IdentAny")?;
    session.command("parse", fork, " =")?;
    session.command("parse", fork, " Literal")?;
    session.commands.push_str("advance ")?;
    session.commands.push_str(Buffer::new().format(parens))?;
    session.command("", fork, "")?;
    session.command("optional", parens, " ,")?;
    session.command("terminated", parens, " Ident ,")?;
    session.command("close", parens, "")?;
    session.command("empty", brackets, "")?;
    session.command("close", brackets, "")?;
    if pen.random.chance(3) {
        session.command("parse", brackets, " Ident")?;
    }
    Ok(())
}

// Writes `pub name: Vec<name::name>,`, and the commands for it.
fn field(pen: &mut Pen, session: &mut Session, empties: Option<usize>) -> Result<(), AllocError> {
    session.both("pub ")?;
    if pen.random.chance(empties.unwrap_or(0)) {
        session.marked.push_str("«»«»«»«»«»«»«»«»")?;
    }
    word(pen, session)?;
    session.both(": ")?;
    let is_nested = pen.random.chance(30);
    session.marked.push_str(if is_nested { "««" } else { "«" })?;
    session.both("Vec<")?;
    session.marked.push_str("«")?;
    word(pen, session)?;
    session.both("::")?;
    word(pen, session)?;
    session.marked.push_str("»")?;
    session.both(">")?;
    session.marked.push_str(if is_nested { "»»" } else { "»" })?;
    session.both(",\n")?;

    session.command("peek", 0, " pub")?;
    session.command("optional", 0, " pub")?;
    session.command("peek2", 0, " :")?;
    session.command("parse", 0, " Ident")?;
    session.command("parse", 0, " :")?;
    if empties.is_none() {
        session.command("span", 0, "")?;
        session.command("cursor", 0, "")?;
        session.command("previous", 0, "")?;
        let fork = session.makes("fork", 0, "")?;
        session.command("tree", fork, "")?;
        session.command("discard", fork, "")?;
    }
    let fork = session.makes("fork", 0, "")?;
    session.command("separated", fork, " IdentAny ::")?;
    session.command("peek3", fork, " ::")?;
    session.command("discard", fork, "")?;
    session.command("parse", 0, " Ident")?;
    session.command("parse", 0, " <")?;
    session.command("separated", 0, " Ident ::")?;
    session.command("parse", 0, " >")?;
    session.command("parse", 0, " ,")?;
    if pen.random.chance(2) {
        session.command("close", 0, "")?;
    }
    Ok(())
}
