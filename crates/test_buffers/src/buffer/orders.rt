//! Compares cursors of one buffer and of two.
use super::{At, laid, place};
use std::alloc::{AllocGlobal, Global};
use std::cmp::Ordering;
use std::process::Abort;
use tok_buffer::{Cursor, laws};

// Whether two cursors are equal, their order, and whether they have one scope and one buffer.
type Comparison = (bool, Option<Ordering>, bool, bool);

const LESS: Option<Ordering> = Some(Ordering::Less);

const EQUAL: Option<Ordering> = Some(Ordering::Equal);

const GREATER: Option<Ordering> = Some(Ordering::Greater);

fn compared(left: Cursor<'_>, right: Cursor<'_>) -> Option<Comparison> {
    let equal = left == right;
    let order = left.partial_cmp(&right);
    let less = order == Some(Ordering::Less);
    let is_lawful = laws::equal_in_order(left, right) == (equal, order);
    (is_lawful && (left < right) == less && (left != right) != equal).then_some((
        equal,
        order,
        left.same_scope(right),
        left.same_buffer(right),
    ))
}

// Compares a place in a text with a place in the same buffer.
fn compared_within(alloc: Global, text: &str, left: &At, right: &At) -> Option<Comparison> {
    let buffer = laid(alloc, 1, text)?;
    compared(place(&buffer, left), place(&buffer, right))
}

fn compared_to(alloc: Global, text: &str, left: Cursor<'_>, right: &At) -> Option<Comparison> {
    let buffer = laid(alloc, 2, text)?;
    compared(left, place(&buffer, right))
}

// Compares a place in a text with a place in another buffer of the text.
fn compared_across(alloc: Global, text: &str, left: &At, right: &At) -> Option<Comparison> {
    let buffer = laid(alloc, 1, text)?;
    compared_to(alloc, text, place(&buffer, left), right)
}

fn all_within(rt: &(impl Abort + AllocGlobal), text: &str, rows: &[(At, At, Comparison)]) {
    for (left, right, wanted) in rows {
        assert_eq!(rt;
            compared_within(rt.alloc(), text, left, right),
            Some(*wanted)
        );
    }
}

fn all_across(rt: &(impl Abort + AllocGlobal), text: &str, rows: &[(At, At, Comparison)]) {
    for (left, right, wanted) in rows {
        assert_eq!(rt;
            compared_across(rt.alloc(), text, left, right),
            Some(*wanted)
        );
    }
}

#[test]
fn compares_cursors(rt: HostRuntime) {
    all_within(
        &rt,
        "a (b)",
        &[
            (At::Nowhere, At::Nowhere, (true, EQUAL, true, true)),
            (At::Nowhere, At::Front(0), (false, None, false, false)),
            (At::Front(0), At::Nowhere, (false, None, false, false)),
            (At::Front(0), At::Front(0), (true, EQUAL, true, true)),
            (At::Front(0), At::Front(1), (false, LESS, true, true)),
            (At::Front(1), At::Front(0), (false, GREATER, true, true)),
            (At::Front(0), At::Within(1, 0), (false, LESS, false, true)),
            (At::Front(1), At::Within(1, 0), (false, LESS, false, true)),
        ],
    );
}

#[test]
fn compares_cursors_of_two_buffers(rt: HostRuntime) {
    all_across(
        &rt,
        "a (b)",
        &[
            (At::Front(0), At::Front(0), (false, None, false, false)),
            (At::Nowhere, At::Front(0), (false, None, false, false)),
            (At::Front(1), At::Within(1, 0), (false, None, false, false)),
        ],
    );
}
