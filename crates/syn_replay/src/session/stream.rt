//! A single stream of a replay.
ghost use Rattle.std.specs.Prelude.{◌≡◌, [], IfOk, None, true, false};
ghost use Rattle.std.specs.Fn.{FnOnceReturnsAtMut};
ghost use Rattle.tok_buffer.specs.Cursors.{place_of};
ghost use Rattle.syn_parse.specs.Pauses.{paused_state};
ghost use Rattle.syn_replay.specs.Commands as commands;
ghost use Rattle.syn_replay.specs.Commands.{StreamRead};
ghost use Rattle.syn_replay.specs.Meanings.{kind_of, position_of};
ghost use Rattle.syn_replay.specs.Session.Reading.{AreReads};
ghost use Rattle.syn_replay.specs.Session.State.{a_fork, printed_position, stream_from};
ghost use Rattle.syn_replay.specs.Session.Step.{is_content, is_fork};
ghost use Rattle.syn_replay.specs.Session.Stream.{IsReadLine, KeepsContents, stream_kind, stream_of};

use crate::command::Kind;
use crate::report::{Answer, Line, Position};
use crate::session::tokens;
use std::alloc::{AllocError, Global};
use syn_parse::{Fault, ParseStream, Paused};
use tok_buffer::Cursor;

/// A stream of a replay, paused between two commands.
#[derive(Drop)]
pub struct Stream<'a> {
    pub paused: Paused<'a>,
    /// The number of the stream from which this group was entered, or `None` if this is not a
    /// group's stream.
    pub parent: Option<usize>,
    /// The numbers of the groups' streams that were entered from this stream.
    pub contents: Vec<usize>,
    pub is_fork: bool,
    pub is_open: bool,
}

impl<'a> Stream<'a> {
    /// Creates the stream of a group that was entered from stream `parent`, or stream 0 if `parent`
    /// is `None`.
    pub fn new(alloc: Global, paused: Paused<'a>, parent: Option<usize>) -> Stream<'a>
        ensures stream { stream_of result
            ≡ stream_from (paused_state paused.entry) (stream_kind false parent) true }
        ensures parent { result.parent ≡ parent }
        ensures contents { result.contents.items ≡ [] }
    {
        Stream {
            paused,
            parent,
            contents: Vec::new(alloc),
            is_fork: false,
            is_open: true,
        }
    }

    /// Creates a fork at the position of `paused`.
    pub fn fork(alloc: Global, paused: Paused<'a>) -> Stream<'a>
        ensures stream { stream_of result ≡ stream_from (paused_state paused.entry) a_fork true }
        ensures parent { result.parent ≡ None }
        ensures contents { result.contents.items ≡ [] }
    {
        Stream {
            paused,
            parent: None,
            contents: Vec::new(alloc),
            is_fork: true,
            is_open: true,
        }
    }

    pub fn is_fork(&self) -> bool
        ensures { result ≡ is_fork (stream_of self.now).kind }
    {
        self.is_fork && self.parent.is_none()
    }

    /// Returns `true` if this is the stream of a group.
    pub fn is_content(&self) -> bool
        ensures { result ≡ is_content (stream_of self.now).kind }
    {
        self.parent.is_some()
    }

    pub fn position(&self) -> Position
        ensures { position_of result ≡ printed_position (stream_of self.now).place }
    {
        position_at(self.paused.cursor())
    }

    /// Returns the line of a command with this answer that leaves the stream where it is.
    pub fn line(&self, answer: Answer) -> Line
        ensures answer { result.answer ≡ answer }
        ensures position { position_of result.position
            ≡ printed_position (stream_of self.now).place }
    {
        Line {
            answer,
            position: self.position(),
        }
    }

    /// Parses a token of this kind. The pieces go into the line at once, and not by way of an
    /// answer.
    pub fn parse(&mut self, kind: Kind) -> Result<Line, AllocError>
        ensures line { IfOk result
            (λ l. IsReadLine (commands.parse (kind_of kind)) l (stream_of self.old)
            (stream_of self.new)) }
        ensures contents { KeepsContents self.old self.new }
    {
        let mut input = self.paused.resume();
        let pieces = tokens::parse(&mut input, kind);
        let position = position_at(input.cursor());
        self.paused = input.pause();
        match pieces {
            Ok(pieces) => Ok(Line {
                answer: Answer::Read(pieces),
                position,
            }),
            Err(Fault::Refused(refusal)) => Ok(Line {
                answer: Answer::Refused(refusal),
                position,
            }),
            Err(Fault::Memory(error)) => Err(error),
        }
    }

    /// Runs another read on this stream, and returns its line.
    pub fn read<F>(&mut self, read: F) -> Result<Line, AllocError>
    where
        F: FnOnce(ParseStream<'_, 'a>) -> syn_parse::Result<Answer>,
        requires { F.IsAlwaysCallable read }
        ensures line { (r : StreamRead) → AreReads r (FnOnceReturnsAtMut F.FnOnce read)
            → IfOk result (λ l. IsReadLine r l (stream_of self.old) (stream_of self.new)) }
        ensures contents { KeepsContents self.old self.new }
    {
        let mut input = self.paused.resume();
        let answer = input.call(read);
        let position = position_at(input.cursor());
        self.paused = input.pause();
        match answer {
            Ok(answer) => Ok(Line { answer, position }),
            Err(Fault::Refused(error)) => Ok(Line {
                answer: Answer::Refused(error),
                position,
            }),
            Err(Fault::Memory(error)) => Err(error),
        }
    }
}

/// Returns the position of a stream at this cursor.
pub fn position_at(cursor: Cursor<'_>) -> Position
    ensures { position_of result ≡ printed_position (place_of cursor.entry) }
{
    match cursor.position() {
        None => Position::Empty,
        Some(n) => Position::At(n),
    }
}
