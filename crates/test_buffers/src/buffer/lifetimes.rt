//! Makes, moves, compares and prints lifetimes.
use std::alloc::{AllocGlobal, Global};
use std::cmp::Ordering;
use std::hash::{BuildHasher, BuildHasherDefault, FoldHasher};
use std::process::Abort;
use tok_buffer::{Lifetime, LifetimeFault, laws};
use tok_core::{Span, ToTokens};

fn made(alloc: Global, text: &str) -> Result<Lifetime, LifetimeFault> {
    Lifetime::new(alloc, text, Span::source(0, 1, 3))
}

fn all_refused(rt: &(impl Abort + AllocGlobal), rows: &[(&str, LifetimeFault)]) {
    for (text, wanted) in rows {
        assert_eq!(rt; made(rt.alloc(), text).err(), Some(*wanted), "at {text}");
    }
}

#[test]
fn refuses_lifetimes(rt: HostRuntime) {
    all_refused(
        &rt,
        &[
            ("a", LifetimeFault::NoApostrophe),
            ("", LifetimeFault::NoApostrophe),
            ("'", LifetimeFault::Empty),
            ("'r#", LifetimeFault::Empty),
            ("'1", LifetimeFault::NotIdentifier),
            ("'r#1", LifetimeFault::NotIdentifier),
            ("'a b", LifetimeFault::NotIdentifier),
            ("'r#self", LifetimeFault::NoRaw),
            ("'r#_", LifetimeFault::NoRaw),
        ],
    );
}

// Moves this lifetime to 2..6.
fn moved(lifetime: Lifetime) -> Lifetime {
    let mut moved = lifetime;
    moved.set_span(Span::source(0, 5, 6));
    moved.apostrophe = Span::source(0, 2, 3);
    moved
}

// Returns the spans of a lifetime and of its copy that is moved.
fn spans(alloc: Global, text: &str) -> Option<(Span, Span)> {
    let lifetime = made(alloc, text).ok()?;
    let copy = moved(lifetime.clone().ok()?);
    Some((lifetime.span(), copy.span()))
}

fn all_spans(rt: &(impl Abort + AllocGlobal), rows: &[&str]) {
    let wanted = (Span::source(0, 1, 3), Span::source(0, 2, 6));
    for text in rows {
        assert_eq!(rt; spans(rt.alloc(), text), Some(wanted), "at {text}");
    }
}

#[test]
fn moves_lifetimes(rt: HostRuntime) {
    all_spans(&rt, &["'a", "'r#fn"]);
}

// Returns whether two lifetimes are equal, their order, and whether their hashes are equal.
fn compared_to(alloc: Global, left: &Lifetime, right: &str) -> Option<(bool, Ordering, bool)> {
    let right = moved(made(alloc, right).ok()?);
    let hasher = BuildHasherDefault::<FoldHasher>::default();
    let (equal, order) = laws::lifetimes_in_order(left, &right);
    let is_lawful = (*left == right) == equal && left.partial_cmp(&right) == Some(order);
    let alike = hasher.hash_one(left) == hasher.hash_one(&right);
    is_lawful.then_some((equal, order, alike))
}

fn compared(alloc: Global, left: &str, right: &str) -> Option<(bool, Ordering, bool)> {
    let left = made(alloc, left).ok()?;
    compared_to(alloc, &left, right)
}

fn all_compared(rt: &(impl Abort + AllocGlobal), rows: &[(&str, &str, Ordering)]) {
    for (left, right, order) in rows {
        let equal = order.is_eq();
        let found = compared(rt.alloc(), left, right);
        assert_eq!(rt; found, Some((equal, *order, equal)), "at {left}");
    }
}

#[test]
fn compares_lifetimes(rt: HostRuntime) {
    all_compared(
        &rt,
        &[
            ("'a", "'a", Ordering::Equal),
            ("'a", "'r#fn", Ordering::Less),
            ("'r#fn", "'a", Ordering::Greater),
        ],
    );
}

fn is_printed(alloc: Global, text: &str) -> Option<bool> {
    let lifetime = made(alloc, text).ok()?;
    Some(lifetime.to_string(alloc).ok()?.as_str() == text)
}

fn is_written(alloc: Global, text: &str) -> Option<bool> {
    let tokens = made(alloc, text).ok()?.into_token_stream(alloc).ok()?;
    Some(tokens.to_string(alloc).ok()?.as_str() == text)
}

fn all_printed(rt: &(impl Abort + AllocGlobal), rows: &[&str]) {
    for text in rows {
        assert_eq!(rt; is_printed(rt.alloc(), text), Some(true), "at {text}");
        assert_eq!(rt; is_written(rt.alloc(), text), Some(true), "at {text}");
    }
}

#[test]
fn prints_lifetimes(rt: HostRuntime) {
    all_printed(&rt, &["'a", "'r#fn"]);
}
