//! The calls of `syn_replay`.
use std::alloc::{AllocError, Global};
use syn_replay::{
    Command, Kind, Look, replay, replay_both, replay_both_texts, replay_in, replay_onto,
};
use test_outcomes::memory::{Outcome, Stop, ended, made, worst};
use tok_buffer::TokenBuffer;
use tok_core::{Delimiter, lex_marked};

const TEXT: &str = "(a «b») 'c";

/// Makes each call.
pub fn calls(alloc: Global) -> Outcome {
    let commands = made(commands(alloc))?;
    worst(&[
        of_buffer(alloc, &commands),
        of_stream(alloc, &commands),
        of_both(alloc, &commands),
        text_of_buffer(alloc, &commands, ""),
        text_of_buffer(alloc, &commands, "before"),
        texts_of_both(alloc, &commands),
    ])
}

fn commands(alloc: Global) -> Result<Vec<Command>, AllocError> {
    let looks = vec![in alloc; Look::Kind(Kind::Ident)]?;
    let commands = vec![in alloc;
        Command::Enter(0, Delimiter::Parenthesis),
        Command::Parse(1, Kind::Ident),
        Command::Close(1),
        Command::Parse(0, Kind::Lifetime),
        Command::Lookahead(0, looks),
    ]?;
    Ok(commands)
}

fn of_buffer(alloc: Global, commands: &[Command]) -> Outcome {
    match TokenBuffer::from_marked(alloc, 0, 0, TEXT) {
        Ok(buffer) => ended(replay_in(alloc, &buffer, commands)),
        Err(_) => Err(Stop::Refused),
    }
}

fn of_stream(alloc: Global, commands: &[Command]) -> Outcome {
    let tokens = made(lex_marked(alloc, 0, TEXT))?;
    ended(replay(alloc, tokens, commands))
}

fn of_both(alloc: Global, commands: &[Command]) -> Outcome {
    let left = made(lex_marked(alloc, 0, "(a b) '«c»"))?;
    let right = made(lex_marked(alloc, 0, TEXT))?;
    ended(replay_both(alloc, left, right, commands))
}

// Appends to no text, and to one. If an allocation fails, the text is as before.
fn text_of_buffer(alloc: Global, commands: &[Command], before: &str) -> Outcome {
    let mut text = made(String::from_str(alloc, before))?;
    let Ok(buffer) = TokenBuffer::from_marked(alloc, 0, 0, TEXT) else {
        return Err(Stop::Refused);
    };
    match replay_onto(alloc, &buffer, commands, &mut text) {
        Ok(_) => Ok(()),
        Err(_) if text.as_str() == before => Err(Stop::Refused),
        Err(_) => Err(Stop::Wrong("replay_onto")),
    }
}

fn texts_of_both(alloc: Global, commands: &[Command]) -> Outcome {
    let left = made(lex_marked(alloc, 0, "(a b) '«c»"))?;
    let right = made(lex_marked(alloc, 0, TEXT))?;
    ended(replay_both_texts(alloc, left, right, commands))
}
