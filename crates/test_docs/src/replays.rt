//! Examples of `syn_replay`, and of the program in `syn_tokens`.
use replay_program::respond;
use std::alloc::{AllocError, AllocGlobal, Global};
use std::process::Abort;
use syn_replay::{
    Command, Kind, agree, is_self_contained, is_transparent, replay, replay_both,
    replay_both_texts, replay_onto,
};
use tok_buffer::TokenBuffer;
use tok_core::{LexFault, lex, lex_marked};

fn one(rt: &(impl Abort + AllocGlobal), alloc: Global) -> Result<(), LexFault> {
    let stream = lex(alloc, 0, "a b")?;
    let commands = [Command::Parse(0, Kind::Ident), Command::Rest(0)];
    let report = replay(alloc, stream, &commands)?;
    let text = format!(in alloc; "{report}")?;
    assert_eq!(rt; text.as_str(), "read a 0..1 @1\ntrees b @empty\naccepted\n");
    Ok(())
}

fn two(rt: &(impl Abort + AllocGlobal), alloc: Global) -> Result<(), LexFault> {
    let plain = lex(alloc, 0, "a b")?;
    let marked = lex_marked(alloc, 0, "«a» b")?;
    let commands = [Command::Parse(0, Kind::Ident), Command::Empty(0)];
    assert_eq!(rt; is_transparent(&commands[0]), true);
    let (left, right) = replay_both(alloc, plain, marked, &commands)?;
    assert_eq!(rt; agree(&left, &right), true);
    Ok(())
}

fn written(rt: &(impl Abort + AllocGlobal), alloc: Global) -> Result<(), LexFault> {
    let buffer = TokenBuffer::from_marked(alloc, 0, 0, "a b")?;
    let commands = [Command::Parse(0, Kind::Ident), Command::Rest(0)];
    let mut text = String::new(alloc);
    let _verdict = replay_onto(alloc, &buffer, &commands, &mut text)?;
    assert_eq!(rt; text.as_str(), "read a 0..1 @1\ntrees b @empty\naccepted\n");
    Ok(())
}

fn both_written(rt: &(impl Abort + AllocGlobal), alloc: Global) -> Result<(), LexFault> {
    let plain = lex(alloc, 0, "a b")?;
    let marked = lex_marked(alloc, 0, "«a» b")?;
    let commands = [Command::Parse(0, Kind::Ident)];
    let both = replay_both_texts(alloc, plain, marked, &commands)?;
    assert_eq!(rt; both.agree, true);
    Ok(())
}

fn contained(rt: &(impl Abort + AllocGlobal)) {
    let commands = [Command::Parse(0, Kind::Ident), Command::Empty(0)];
    assert_eq!(rt; is_self_contained(0, 1, &commands), true);
    assert_eq!(rt; is_self_contained(0, 1, &[Command::Discard(0)]), false);
}

fn program(rt: &(impl Abort + AllocGlobal), alloc: Global) -> Result<(), AllocError> {
    let (output, status) = respond(alloc, b"a\n---\nparse 0 Ident\n")?;
    assert_eq!(rt; output.as_str(), "read a 0..1 @1\naccepted\n");
    assert_eq!(rt; status, 0);
    Ok(())
}

#[test]
fn replays(rt: HostRuntime) {
    assert!(rt; one(&rt, rt.alloc()).is_ok());
    assert!(rt; two(&rt, rt.alloc()).is_ok());
    assert!(rt; written(&rt, rt.alloc()).is_ok());
    assert!(rt; both_written(&rt, rt.alloc()).is_ok());
    contained(&rt);
    assert!(rt; program(&rt, rt.alloc()).is_ok());
}
