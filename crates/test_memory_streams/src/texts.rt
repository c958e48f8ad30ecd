//! Texts longer than a `Text` stores in one allocation, and their clones. `tests/refuse_memory`
//! counts the allocations: a clone shares the string and makes none, and one whose string has much
//! unused room makes two, for a string and its owners.
use std::alloc::{AllocError, Global};
use test_outcomes::memory::{Outcome, Stop, ended, expect, made, worst};
use tok_core::{Literal, Text};

// Of 52 bytes: a string with room for 106 has more than as much again unused.
const NAME: &str = "abcdefghijklmnopqrstuvwxyzabcdefghijklmnopqrstuvwxyz";

/// Makes texts whose strings have at most as much unused room as bytes.
pub fn exact(alloc: Global) -> Outcome {
    let _texts = three(alloc)?;
    let _literal = made(Literal::string(alloc, NAME))?;
    Ok(())
}

/// Makes the same texts, and clones each.
pub fn shared(alloc: Global) -> Outcome {
    let (exact, half, most) = three(alloc)?;
    let literal = made(Literal::string(alloc, NAME))?;
    worst(&[
        cloned(&exact),
        cloned(&half),
        cloned(&most),
        ended::<_, AllocError>(literal.clone()),
    ])
}

/// Makes texts whose strings have more unused room than that.
pub fn roomy(alloc: Global) -> Outcome {
    let _texts = two(alloc)?;
    Ok(())
}

/// Makes the same texts, and clones each.
pub fn copied(alloc: Global) -> Outcome {
    let (least, much) = two(alloc)?;
    worst(&[cloned(&least), cloned(&much)])
}

fn three(alloc: Global) -> Result<(Text, Text, Text), Stop> {
    let exact = text(alloc, 52)?;
    let half = text(alloc, 104)?;
    Ok((exact, half, text(alloc, 105)?))
}

fn two(alloc: Global) -> Result<(Text, Text), Stop> {
    let least = text(alloc, 106)?;
    Ok((least, text(alloc, 1_000)?))
}

// Returns the name in a string with room for so many bytes.
fn text(alloc: Global, room: usize) -> Result<Text, Stop> {
    let mut words = made(String::with_capacity(alloc, room))?;
    made(words.push_str(NAME))?;
    made(Text::from_string(alloc, words))
}

fn cloned(text: &Text) -> Outcome {
    let copy = made::<_, AllocError>(text.clone())?;
    expect(copy.as_str() == NAME, "Text::clone")
}
