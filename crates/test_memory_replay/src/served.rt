//! The program: its first run, a run of every command, and two texts.
use replay_program::{respond, respond_to, serve};
use std::alloc::Global;
use std::io::{self, Write};
use test_outcomes::memory::{Outcome, Stop, ended, worst};
use tok_buffer::TokenBuffer;

const FIRST: &str = "\
(a «b»)\n\
---\n\
enter 0 (\n\
parse 1 Ident\n\
parse 1 Ident\n\
empty 1\n\
close 1\n\
";

const FIRST_ANSWER: &str = "\
entered 1 ( 0..5 @6\n\
read a 1..2 @2\n\
read b 3..4 @5\n\
true @5\n\
done @5\n\
accepted\n\
";

const INPUT: &str = "\
fn 'a 1 += (b [c] «d») {e} _ x y, z\n\
---\n\
peek 0 fn\n\
peek2 0 Lifetime\n\
peek3 0 Literal\n\
lookahead 0 Ident Literal End\n\
parse 0 fn\n\
parse 0 Lifetime\n\
optional 0 Literal\n\
optional 0 ,\n\
parse 0 +=\n\
enter 0 (\n\
fork 1\n\
parse 2 Ident\n\
enter 2 [\n\
span 3\n\
cursor 3\n\
previous 3\n\
advance 1 2\n\
any 1\n\
parse 4 IdentAny\n\
empty 4\n\
lookahead 4 , End\n\
close 1\n\
fork 0\n\
enter 5 {\n\
discard 5\n\
tree 0\n\
fork 0\n\
parse 7 _\n\
advance 0 7\n\
fork 0\n\
separated 8 Ident ,\n\
terminated 8 Ident ,\n\
discard 8\n\
rest 0\n\
close 9\n\
close 0\n\
";

const ANSWER: &str = "\
true @0\n\
true @0\n\
true @0\n\
refused 0..2 expected identifier or literal @0\n\
read fn 0..2 @1\n\
read ' 3..4 a 4..5 @3\n\
read 1 6..7 @4\n\
none @4\n\
read + 8..9 = 9..10 @6\n\
entered 1 ( 11..20 @15\n\
forked 2 @7\n\
read b 12..13 @8\n\
entered 3 [ 14..17 @11\n\
span 15..16 @9\n\
span 15..16 @9\n\
span 14..17 @9\n\
done @11\n\
entered 4 « 18..19 @14\n\
read d 18..19 @13\n\
true @13\n\
found 1 @13\n\
done @14\n\
forked 5 @15\n\
entered 6 { 21..24 @18\n\
done @18\n\
trees {e} @18\n\
forked 7 @18\n\
read _ 25..26 @19\n\
done @19\n\
forked 8 @19\n\
list [x 27..28] @20\n\
list [y 29..30] [, 30..31] [z 32..33] @23\n\
done @23\n\
trees x y , z @empty\n\
refused C1 @-\n\
refused C4 @empty\n\
refused 15..16 unexpected token, expected `]`\n\
";

const TWO_TEXTS: &str = "\
(a b) 'c\n\
---\n\
(a «b») '«c»\n\
---\n\
enter 0 (\n\
parse 1 Ident\n\
close 1\n\
parse 0 Lifetime\n\
lookahead 0 Ident\n\
";

const TWO_ANSWERS: &str = "\
entered 1 ( 0..5 @4\n\
read a 1..2 @2\n\
done @2\n\
read ' 6..7 c 7..8 @6\n\
refused call unexpected end of input, expected identifier @6\n\
refused 3..4 unexpected token, expected `)`\n\
---\n\
entered 1 ( 0..5 @6\n\
read a 1..2 @2\n\
done @2\n\
read ' 6..7 c 7..8 @10\n\
refused call unexpected end of input, expected identifier @10\n\
refused 3..4 unexpected token\n\
---\n\
visible same\n\
filled yes\n\
clear no\n\
transparent yes\n\
agree yes\n\
";

const FIRST_LINE_BAD: &str = "\
a\n\
---\n\
no command\n\
empty 0\n\
";

const SIXTH_COMMAND_BAD: &str = "\
a\n\
---\n\
empty 0\n\
\n\
empty 0\n\
empty 0\n\
empty 0\n\
empty 0\n\
empty 0 0\n\
empty 0\n\
";

const NO_COMMANDS: &str = "\
a\n\
---\n\
\n\
   \n\
\n\
";

// Compares the output with two texts: keeps the rest of each, while it matches.
#[derive(Drop)]
struct Compared<'a> {
    answer: Option<&'a [u8]>,
    memory: Option<&'a [u8]>,
}

fn after<'a>(wanted: Option<&'a [u8]>, written: &[u8]) -> Option<&'a [u8]> {
    let wanted = wanted?;
    if wanted.starts_with(written) {
        wanted.get(written.len()..)
    } else {
        None
    }
}

impl Write for Compared<'_> {
    fn write(&mut self, buf: &[u8]) -> io::Result<usize> {
        self.answer = after(self.answer, buf);
        self.memory = after(self.memory, buf);
        Ok(buf.len())
    }

    fn flush(&mut self) -> io::Result<()> {
        Ok(())
    }
}

fn is_whole(left: Option<&[u8]>) -> bool {
    matches!(left, Some(rest) if rest.is_empty())
}

// Serves an input. All that it prints is written, with this status, or `memory` alone.
fn serves(alloc: Global, input: &str, answer: &str, status: u8) -> Outcome {
    let mut input = input.as_bytes();
    let mut output = Compared {
        answer: Some(answer.as_bytes()),
        memory: Some(b"memory\n"),
    };
    match serve(alloc, &mut input, &mut output) {
        3 if is_whole(output.memory) => Err(Stop::Refused),
        got if got == status && is_whole(output.answer) => Ok(()),
        _ => Err(Stop::Wrong("serve")),
    }
}

/// Serves the first run of the program, a run of every command, and two texts; then a list whose
/// first line is bad, one with a bad line after commands that moved, and lines without words.
pub fn calls(alloc: Global) -> Outcome {
    worst(&[
        serves(alloc, FIRST, FIRST_ANSWER, 0),
        serves(alloc, INPUT, ANSWER, 1),
        serves(alloc, TWO_TEXTS, TWO_ANSWERS, 1),
        serves(alloc, FIRST_LINE_BAD, "unreadable: command 1\n", 2),
        serves(alloc, SIXTH_COMMAND_BAD, "unreadable: command 7\n", 2),
        serves(alloc, NO_COMMANDS, "refused 0..1 unexpected token\n", 1),
        ended(respond(alloc, INPUT.as_bytes())),
        responds(alloc),
    ])
}

// The first input, of which the text is in a buffer.
fn responds(alloc: Global) -> Outcome {
    let commands = "enter 0 (\nparse 1 Ident\nclose 1\n";
    match TokenBuffer::from_marked(alloc, 0, 0, "(a «b»)") {
        Ok(buffer) => ended(respond_to(alloc, &buffer, commands.as_bytes())),
        Err(_) => Err(Stop::Refused),
    }
}
