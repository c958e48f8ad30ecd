//! Examples of the calls that read visible tokens alone.
use std::alloc::{AllocGlobal, Global};
use std::process::Abort;
use syn_parse::{Parse, Result};
use syn_replay::{Command, Kind, agree};
use tok_core::{Ident, LexFault, lex, lex_marked};
use tok_pruned::prune;
use visible_arguments::{visible_arguments, visible_arguments_both};
use visible_parse::{parse_visible, parse_visible_both, parse_visible_with};
use visible_replay::{visible_replay, visible_replay_both};

fn pruned(rt: &(impl Abort + AllocGlobal), alloc: Global) -> std::result::Result<(), LexFault> {
    let stream = prune(alloc, lex_marked(alloc, 0, "« » f(« » a)")?)?;
    assert_eq!(rt; stream.weight(), 4);
    Ok(())
}

fn of_type(rt: &(impl Abort + AllocGlobal), alloc: Global) -> Option<()> {
    let tokens = lex_marked(alloc, 0, "a« »").ok()?;
    let name: Ident = parse_visible(alloc, tokens).ok()?;
    assert_eq!(rt; name.as_str(), "a");
    Some(())
}

fn by_function(rt: &(impl Abort + AllocGlobal), alloc: Global) -> Option<()> {
    let tokens = lex_marked(alloc, 0, "« »a").ok()?;
    let name = parse_visible_with(alloc, tokens, Ident::parse).ok()?;
    assert_eq!(rt; name.as_str(), "a");
    Some(())
}

fn of_both(rt: &(impl Abort + AllocGlobal), alloc: Global) -> Option<()> {
    let plain = lex(alloc, 0, "a").ok()?;
    let marked = lex_marked(alloc, 0, "a« »").ok()?;
    let (left, right): (Result<Ident>, Result<Ident>) = parse_visible_both(alloc, plain, marked);
    assert_eq!(rt; left.ok()?.as_str(), "a");
    assert_eq!(rt; right.ok()?.as_str(), "a");
    Some(())
}

fn arguments(rt: &(impl Abort + AllocGlobal), alloc: Global) -> Option<()> {
    let tokens = lex_marked(alloc, 0, "a, b = 1, « »c(« »)").ok()?;
    let list = visible_arguments(alloc, tokens).ok()?;
    assert_eq!(rt; list.len(), 3);
    Some(())
}

fn arguments_of_both(rt: &(impl Abort + AllocGlobal), alloc: Global) -> Option<()> {
    let plain = lex(alloc, 0, "a").ok()?;
    let marked = lex_marked(alloc, 0, "a« »").ok()?;
    let (left, right) = visible_arguments_both(alloc, plain, marked).ok()?;
    assert_eq!(rt; left.is_ok() && right.is_ok(), true);
    Some(())
}

fn replayed(rt: &(impl Abort + AllocGlobal), alloc: Global) -> std::result::Result<(), LexFault> {
    let stream = lex_marked(alloc, 0, "a « »")?;
    let commands = [Command::Parse(0, Kind::Ident), Command::Empty(0)];
    let report = visible_replay(alloc, stream, &commands)?;
    let text = format!(in alloc; "{report}")?;
    assert_eq!(rt; text.as_str(), "read a 0..1 @1\ntrue @1\naccepted\n");
    Ok(())
}

fn replayed_both(
    rt: &(impl Abort + AllocGlobal),
    alloc: Global,
) -> std::result::Result<(), LexFault> {
    let plain = lex(alloc, 0, "a")?;
    let marked = lex_marked(alloc, 0, "a « »")?;
    let commands = [Command::Parse(0, Kind::Ident), Command::Empty(0)];
    let (left, right) = visible_replay_both(alloc, plain, marked, &commands)?;
    assert_eq!(rt; agree(&left, &right), true);
    Ok(())
}

#[test]
fn visible(rt: HostRuntime) {
    assert!(rt; pruned(&rt, rt.alloc()).is_ok());
    assert!(rt; of_type(&rt, rt.alloc()).is_some());
    assert!(rt; by_function(&rt, rt.alloc()).is_some());
    assert!(rt; of_both(&rt, rt.alloc()).is_some());
    assert!(rt; arguments(&rt, rt.alloc()).is_some());
    assert!(rt; arguments_of_both(&rt, rt.alloc()).is_some());
    assert!(rt; replayed(&rt, rt.alloc()).is_ok());
    assert!(rt; replayed_both(&rt, rt.alloc()).is_ok());
}
