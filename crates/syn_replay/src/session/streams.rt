//! The numbered streams of a replay.
ghost use Rattle.std.specs.Prelude.{◌≡◌, ◌<◌, length};
ghost use Rattle.syn_parse.specs.Groups.{AreParts, Enters};
ghost use Rattle.syn_parse.specs.ErrorWords.{refused_at};
ghost use Rattle.syn_replay.specs.Session.Entering.{entered_by, entering_words};
ghost use Rattle.syn_replay.specs.Session.Links.{AreListed};
ghost use Rattle.syn_replay.specs.Session.Promises.{Answers};
ghost use Rattle.syn_replay.specs.declared.report.Answer.TheVariants as answer;
ghost use Rattle.syn_replay.specs.declared.report.Misuse.TheVariants.{NoStream};
ghost use Rattle.syn_replay.specs.declared.report.Position.TheVariants as position;

use crate::command::Kind;
use crate::report::{Answer, Line, Misuse, Position};
use crate::session::rooms;
use crate::session::stream::{Stream, position_at};
use std::alloc::{AllocError, Global};
use syn_parse::{
    Braces, Brackets, Fault, Group, Parens, ParseBuffer, ParseStream, Paused, parse_braces,
    parse_brackets, parse_group, parse_parens,
};
use tok_core::{DelimSpan, Delimiter};

/// The numbered streams of a replay. Stream 0 reads the whole token stream.
///
/// Each stream stores the numbers of its groups' streams, so that closing a stream visits only
/// these. A command changes nothing if its stream does not exist, has ended, or is of the wrong
/// kind.
#[derive(Drop)]
pub struct Streams<'a> {
    list: Vec<Stream<'a>>,
    ghost rooted: { 0 < length list.items },
    ghost listed: { AreListed list.items },
}

// The functions that are out of line make lines: the loop over the commands clears, for each
// command, the locals of all that is inlined into it.
impl<'a> Streams<'a> {
    ghost use Rattle.std.specs.Prelude.{◌≡◌, ◌<◌, ◌∷◌, [], ◌++◌, length, Some, None, MatchOption, MatchResult, IfOk, OnOk, OnErr, true};
    ghost use Rattle.std.specs.Fn.{FnOnceReturnsAtMut};
    ghost use Rattle.syn_parse.specs.Pauses.{paused_state};
    ghost use Rattle.syn_replay.specs.Commands as commands;
    ghost use Rattle.syn_replay.specs.Session.State.{outermost, content_of, a_fork, gathered, parse_state, with_stream, stream_from, moved_as, stream_ended, is_inside, is_open_at, is_or_inside};
    ghost use Rattle.syn_replay.specs.Session.Step.{is_unknown};
    ghost use Rattle.syn_replay.specs.Commands.{StreamRead, on};
    ghost use Rattle.syn_replay.specs.Meanings.{kind_of};
    ghost use Rattle.syn_replay.specs.Session.Reading.{AreReads};
    ghost use Rattle.syn_replay.specs.Session.Promises.{IsLine, IsMissed, IsOpen, IsStream};
    ghost use Rattle.syn_replay.specs.Session.Stream.{stream_of};
    ghost use Rattle.syn_replay.specs.Session.Rooms.{streams_room};
    ghost use Rattle.syn_replay.specs.Session.Streams.{room_of, state_of};

    /// Creates the streams of a replay, with `whole` as stream 0. Reserves room for this many
    /// commands.
    pub fn new(alloc: Global, whole: Paused<'a>, commands: usize) -> Result<Self, AllocError>
        ensures state { IfOk result
            (λ s. state_of s ≡ stream_from (paused_state whole.entry) outermost true ∷ []) }
        ensures room { IfOk result (λ s. room_of s ≡ streams_room commands) }
    {
        let mut list = Vec::with_capacity(alloc, rooms::streams(commands))?;
        list.push_reserved(Stream::new(alloc, whole, None));
        Ok(Streams { list })
    }

    /// Returns stream `n`, or `None` if it does not exist.
    pub fn get(&self, n: usize) -> Option<&Stream<'a>>
        ensures { MatchOption result
            (is_unknown (state_of self.now) n ≡ true)
            (λ s. IsStream (state_of self.now) n (stream_of s.now)) }
    {
        if n < self.list.len() {
            Some(&self.list[n])
        } else {
            None
        }
    }

    // Returns stream `n` if it is open, and otherwise the line of a command on it.
    fn open(&self, n: usize) -> std::result::Result<&Stream<'a>, Line>
        ensures { MatchResult result
            (λ s. IsOpen (state_of self.now) n (stream_of s.now))
            (λ l. IsMissed l (state_of self.now) n) }
    {
        match self.get(n) {
            None => Err(no_stream()),
            Some(stream) if !stream.is_open => Err(stream.line(Answer::Misused(Misuse::Spent))),
            Some(stream) => Ok(stream),
        }
    }

    /// Parses a token of this kind from stream `n`.
    #[inline(never)]
    pub fn parse(&mut self, n: usize, kind: Kind) -> Result<Line, AllocError>
        ensures { IfOk result
            (λ l. IsLine l (state_of self.new) (state_of self.old)
            (on n (commands.read (commands.parse (kind_of kind))))) }
    {
        match self.open(n) {
            Ok(_) => self.list[n].parse(kind),
            Err(line) => Ok(line),
        }
    }

    /// Runs another read on stream `n`, and returns its line.
    #[inline(never)]
    pub fn read<F>(&mut self, n: usize, read: F) -> Result<Line, AllocError>
    where
        F: FnOnce(ParseStream<'_, 'a>) -> syn_parse::Result<Answer>,
        requires { F.IsAlwaysCallable read }
        ensures { (r : StreamRead) → AreReads r (FnOnceReturnsAtMut F.FnOnce read)
            → IfOk result
            (λ l. IsLine l (state_of self.new) (state_of self.old) (on n (commands.read r))) }
    {
        match self.open(n) {
            Ok(_) => self.list[n].read(read),
            Err(line) => Ok(line),
        }
    }

    // Moves stream `n` to another place.
    fn move_to(&mut self, n: usize, paused: Paused<'a>)
        requires { n < length (state_of self.old) }
        ensures { state_of self.new
            ≡ with_stream (state_of self.old) n (moved_as (paused_state paused.entry)) }
    {
        self.list[n].paused = paused;
    }

    // Moves stream `n` past a group, whose stream becomes the last one. If an allocation fails,
    // nothing changes.
    fn add_content(
        &mut self,
        n: usize,
        content: Paused<'a>,
        parent: Paused<'a>,
    ) -> Result<usize, AllocError>
        requires { n < length (state_of self.old) }
        ensures number { IfOk result (λ i. i ≡ length (state_of self.old)) }
        ensures ok { OnOk result
            (state_of self.new
            ≡ with_stream (state_of self.old) n (moved_as (paused_state parent.entry))
            ++ stream_from (paused_state content.entry) (content_of n) true ∷ []) }
        ensures err { OnErr result (state_of self.new ≡ state_of self.old) }
    {
        let number = self.list.len();
        let alloc = *self.list.allocator();
        self.list.reserve(1)?;
        let stream = &mut self.list[n];
        stream.contents.push(number)?;
        stream.paused = parent;
        self.list
            .push_reserved(Stream::new(alloc, content, Some(n)));
        Ok(number)
    }

    /// Enters the next group of stream `n` if the group has the delimiter `wanted`. If `wanted` is
    /// `None`, the group may have any delimiter.
    #[inline(never)]
    pub fn enter(&mut self, n: usize, wanted: Option<Delimiter>) -> Result<Line, AllocError>
        ensures { IfOk result
            (λ l. IsLine l (state_of self.new) (state_of self.old) (on n (commands.enter wanted))) }
    {
        let mut input = match self.open(n) {
            Ok(stream) => stream.paused.resume(),
            Err(line) => return Ok(line),
        };
        let entered = enter_group(&mut input, wanted);
        let position = position_at(input.cursor());
        match entered {
            Ok((delimiter, span, content)) => {
                let number = self.add_content(n, content.pause(), input.pause())?;
                Ok(Line {
                    answer: Answer::Entered(number, delimiter, span),
                    position,
                })
            }
            Err(fault) => {
                input.discard();
                Ok(Line {
                    answer: refused(fault)?,
                    position,
                })
            }
        }
    }

    // Appends a fork. If the allocation fails, nothing changes.
    fn add_fork(&mut self, fork: Paused<'a>) -> Result<usize, AllocError>
        ensures number { IfOk result (λ i. i ≡ length (state_of self.old)) }
        ensures ok { OnOk result
            (state_of self.new
            ≡ state_of self.old ++ stream_from (paused_state fork.entry) a_fork true ∷ []) }
        ensures err { OnErr result (state_of self.new ≡ state_of self.old) }
    {
        let number = self.list.len();
        let alloc = *self.list.allocator();
        self.list.push(Stream::fork(alloc, fork))?;
        Ok(number)
    }

    /// Creates a fork: a new stream at the position of stream `n`.
    #[inline(never)]
    pub fn fork(&mut self, n: usize) -> Result<Line, AllocError>
        ensures { IfOk result
            (λ l. IsLine l (state_of self.new) (state_of self.old) (on n commands.fork)) }
    {
        let input = match self.open(n) {
            Ok(stream) => stream.paused.resume(),
            Err(line) => return Ok(line),
        };
        let position = position_at(input.cursor());
        let fork = input.fork();
        input.discard();
        let number = self.add_fork(fork.pause())?;
        Ok(Line {
            answer: Answer::Forked(number),
            position,
        })
    }

    /// Returns stream `n` with the open groups inside it closed. The stored streams are unchanged.
    pub fn gathered(&self, n: usize) -> ParseBuffer<'a>
        requires { n < length (state_of self.now) }
        ensures { result ≡ parse_state (gathered (state_of self.now) n) }
    {
        let stream = &self.list[n];
        let mut input = stream.paused.resume();
        for index in 0..stream.contents.len() {
            let i = stream.contents[index];
            if self.list[i].is_open {
                input.close(self.gathered(i));
            }
        }
        input
    }

    // Ends a stream and the open groups inside it. What they leave unread is recorded nowhere. No
    // list is walked twice, since a stream ends once.
    fn end(&mut self, k: usize)
        requires { is_open_at (state_of self.old) k ≡ true }
        ensures { state_of self.new ≡ stream_ended k (state_of self.old) }
    {
        self.list[k].is_open = false;
        for index in 0..self.list[k].contents.len() {
            let i = self.list[k].contents[index];
            if self.list[i].is_open {
                self.end(i);
            }
        }
    }

    /// Ends fork `n` and the open groups inside it, without recording a leftover token.
    #[inline(never)]
    pub fn discard(&mut self, n: usize) -> Line
        ensures { IsLine result (state_of self.new) (state_of self.old) (on n commands.discard) }
    {
        let stream = match self.open(n) {
            Ok(stream) => stream,
            Err(line) => return line,
        };
        if !stream.is_fork() {
            return stream.line(Answer::Misused(Misuse::NoFork));
        }
        let line = stream.line(Answer::Done);
        self.end(n);
        line
    }

    /// Closes the group's stream `n`, and every open stream inside it. If a token is left over, the
    /// stream around the group records this token, unless it has already recorded one.
    #[inline(never)]
    pub fn close(&mut self, n: usize) -> Line
        ensures { IsLine result (state_of self.new) (state_of self.old) (on n commands.close) }
    {
        let stream = match self.open(n) {
            Ok(stream) => stream,
            Err(line) => return line,
        };
        let Some(parent) = stream.parent else {
            return stream.line(Answer::Misused(Misuse::NoContent));
        };
        let line = stream.line(Answer::Done);
        let content = self.gathered(n);
        let mut input = self.list[parent].paused.resume();
        input.close(content);
        self.move_to(parent, input.pause());
        self.end(n);
        line
    }

    /// Returns `true` if stream `inner` was entered inside stream `outer`, at any depth.
    pub fn is_inside(&self, outer: usize, inner: usize) -> bool
        requires { inner < length (state_of self.now) }
        ensures { result ≡ is_inside (state_of self.now) outer inner }
    {
        let mut next = self.list[inner].parent;
        while let Some(parent) = next {
            if parent == outer {
                return true;
            }
            next = self.list[parent].parent;
        }
        false
    }

    /// Moves stream `n` to the position of a fork in the same scope, and ends the fork. The open
    /// groups inside the fork are closed.
    #[inline(never)]
    pub fn advance(&mut self, n: usize, fork: usize) -> Line
        ensures { IsLine result (state_of self.new) (state_of self.old)
            (on n (commands.advance fork)) }
    {
        let (Some(stream), Some(other)) = (self.get(n), self.get(fork)) else {
            return no_stream();
        };
        if !stream.is_open || !other.is_open {
            return stream.line(Answer::Misused(Misuse::Spent));
        }
        if !other.is_fork() {
            return stream.line(Answer::Misused(Misuse::NoFork));
        }
        let mut input = stream.paused.resume();
        let other = self.gathered(fork);
        if input.cursor().same_scope(other.cursor()) && !self.is_or_inside(fork, n) {
            input.advance_to(other);
            let position = position_at(input.cursor());
            self.move_to(n, input.pause());
            self.end(fork);
            Line {
                answer: Answer::Done,
                position,
            }
        } else {
            input.discard();
            other.discard();
            stream.line(Answer::Misused(Misuse::OutOfScope))
        }
    }

    /// Returns `true` if stream `n` is stream `outer`, or was entered inside stream `outer`.
    pub fn is_or_inside(&self, outer: usize, n: usize) -> bool
        requires { n < length (state_of self.now) }
        ensures { result ≡ is_or_inside (state_of self.now) outer n }
    {
        n == outer || self.is_inside(outer, n)
    }
}

// Returns the line of a command that names a stream that does not exist.
fn no_stream() -> Line
    ensures answer { result.answer ≡ answer.Misused NoStream }
    ensures position { result.position ≡ position.Missing }
{
    Line {
        answer: Answer::Misused(Misuse::NoStream),
        position: Position::Missing,
    }
}

/// Converts the error of a parser to an answer. If the error is an allocation failure, returns this
/// failure instead.
pub fn refused(fault: Fault) -> Result<Answer, AllocError>
    ensures { Answers fault result }
{
    match fault {
        Fault::Refused(error) => Ok(Answer::Refused(error)),
        Fault::Memory(error) => Err(error),
    }
}

// Enters the next group if it has the wanted delimiter. Returns its delimiter, its span and its
// stream.
fn enter_group<'a>(
    input: ParseStream<'_, 'a>,
    wanted: Option<Delimiter>,
) -> syn_parse::Result<(Delimiter, DelimSpan, ParseBuffer<'a>)>
    ensures { Enters (λ p e. (p.0 ≡ e.delimiter) × AreParts p.1 p.2 e)
        (entered_by wanted input.old.place)
        (refused_at input.old (entering_words wanted)) input.old result input.new }
{
    match wanted {
        None => input.parse_any_delimiter(),
        Some(Delimiter::Parenthesis) => {
            let Parens { token, content } = parse_parens(input)?;
            Ok((Delimiter::Parenthesis, token.span, content))
        }
        Some(Delimiter::Brace) => {
            let Braces { token, content } = parse_braces(input)?;
            Ok((Delimiter::Brace, token.span, content))
        }
        Some(Delimiter::Bracket) => {
            let Brackets { token, content } = parse_brackets(input)?;
            Ok((Delimiter::Bracket, token.span, content))
        }
        Some(Delimiter::None) => {
            let Group { token, content } = parse_group(input)?;
            Ok((Delimiter::None, DelimSpan::new(token.span), content))
        }
    }
}
