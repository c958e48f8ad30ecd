//! Tests of a type that holds lists of itself, and of lists of lists.
use std::alloc::{AllocGlobal, Global};
use std::process::Abort;
use syn_punctuated::Punctuated;

#[cycle(arguments)]
#[derive(Drop, Debug, PartialEq, Eq)]
struct Argument {
    name: u32,
    value: Value,
}

#[cycle(arguments)]
#[derive(Drop, Debug, PartialEq, Eq)]
enum Value {
    Flag,
    List(Punctuated<Argument, char>),
}

// Returns `true` if the argument or one inside it has the name.
fn has(argument: &Argument, name: u32) -> bool {
    if argument.name == name {
        return true;
    }
    match &argument.value {
        Value::Flag => false,
        Value::List(list) => {
            for item in list {
                if has(item, name) {
                    return true;
                }
            }
            false
        }
    }
}

fn flag(name: u32) -> Argument {
    Argument {
        name,
        value: Value::Flag,
    }
}

// Returns an argument of this name, with arguments inside it.
fn nested(alloc: Global, name: u32, inside: &[u32]) -> Option<Argument> {
    let mut list = Punctuated::new(alloc);
    for name in inside {
        list.push(flag(*name)).ok()?;
    }
    Some(Argument {
        name,
        value: Value::List(list),
    })
}

fn is_found(alloc: Global, name: u32) -> Option<bool> {
    let argument = nested(alloc, 1, &[2, 3])?;
    Some(has(&argument, name))
}

fn all_found(rt: &(impl Abort + AllocGlobal), rows: &[(u32, bool)]) {
    for (name, wanted) in rows {
        assert_eq!(rt; is_found(rt.alloc(), *name), Some(*wanted), "at {name}");
    }
}

#[test]
fn finds_what_lies_within(rt: HostRuntime) {
    all_found(&rt, &[(1, true), (3, true), (4, false)]);
}

// Returns whether the argument is equal to one with these arguments inside, and to a flag.
fn compared(alloc: Global, inside: &[u32]) -> Option<[bool; 2]> {
    let argument = nested(alloc, 1, &[2, 3])?;
    let other = nested(alloc, 1, inside)?;
    Some([argument == other, argument != flag(1)])
}

fn all_compared(rt: &(impl Abort + AllocGlobal), rows: &[(&[u32], bool)]) {
    for (inside, wanted) in rows {
        let found = compared(rt.alloc(), inside);
        assert_eq!(rt; found, Some([*wanted, true]), "at {inside:?}");
    }
}

#[test]
fn compares_what_lies_within(rt: HostRuntime) {
    all_compared(&rt, &[(&[2, 3], true), (&[2, 4], false), (&[2], false)]);
}

fn is_debugged(alloc: Global, name: u32, wanted: &str) -> Option<bool> {
    let text = format!(in alloc; "{:?}", flag(name)).ok()?;
    Some(text.as_str() == wanted)
}

fn all_debugged(rt: &(impl Abort + AllocGlobal), rows: &[(u32, &str)]) {
    for (name, wanted) in rows {
        assert_eq!(rt;
            is_debugged(rt.alloc(), *name, wanted),
            Some(true),
            "not {wanted}"
        );
    }
}

#[test]
fn shows_for_debugging(rt: HostRuntime) {
    all_debugged(&rt, &[(1, "Argument { name: 1, value: Flag }")]);
}

type Lists = Punctuated<Punctuated<u32, char>, char>;

fn push_list(alloc: Global, lists: &mut Lists, count: u32) -> Option<()> {
    let list = Punctuated::from_values(alloc, 0..count).ok()?;
    lists.push(list).ok()
}

// Returns lists of one, two and three values.
fn lists(alloc: Global) -> Option<Lists> {
    let mut lists = Punctuated::new(alloc);
    for count in 1..4 {
        push_list(alloc, &mut lists, count)?;
    }
    Some(lists)
}

// Removes the lists of this length. Returns the length of the last one, and how many are left.
fn without(alloc: Global, len: usize) -> Option<(Option<usize>, usize)> {
    let mut lists = lists(alloc)?;
    lists.retain(|list| list.len() != len);
    Some((lists.last().map(|list| list.len()), lists.len()))
}

fn all_without(rt: &(impl Abort + AllocGlobal), rows: &[(usize, usize, usize)]) {
    for (len, last, count) in rows {
        let wanted = Some((Some(*last), *count));
        assert_eq!(rt; without(rt.alloc(), *len), wanted, "without {len}");
    }
}

#[test]
fn holds_lists(rt: HostRuntime) {
    all_without(&rt, &[(2, 3, 2), (3, 2, 2), (4, 3, 3)]);
}
