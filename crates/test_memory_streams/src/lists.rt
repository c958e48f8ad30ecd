//! The calls of `syn_punctuated`.
ghost use Rattle.std.specs.Prelude.{◌≡◌};

use std::alloc::{AllocError, Global};
use std::marker::Model;
use syn_punctuated::{Pair, Punctuated};
use test_outcomes::memory::{Outcome, Stop, ended, expect, made, worst};
use tok_core::{Punct, Spacing, ToTokens, TokenStream};

// A separator; the default one is `d`.
#[derive(Clone, Copy, PartialEq, Eq)]
struct Mark(char);

impl Default for Mark {
    fn default() -> Mark {
        Mark('d')
    }
}

type Letters = Punctuated<char, Mark>;

// A letter on the heap, so that a copy of it allocates.
#[derive(Drop)]
struct Boxed {
    letter: Box<char>,
}

impl Model for Boxed {
    ghost use Rattle.std.specs.Prelude.{ℕ};

    ghost Value = { ℕ };

    ghost view = { λ boxed. boxed.letter.value };
}

impl Boxed {
    fn new(alloc: Global, letter: char) -> Result<Boxed, AllocError> {
        Ok(Boxed {
            letter: Box::new(alloc, letter)?,
        })
    }
}

impl Clone for Boxed {
    ghost is_clone = { λ source copy. copy ≡ source };

    fn clone(&self) -> Result<Boxed, AllocError> {
        Ok(Boxed {
            letter: self.letter.clone()?,
        })
    }
}

/// Makes each call.
pub fn calls(alloc: Global) -> Outcome {
    worst(&[
        pushes(alloc),
        inserts(alloc),
        values(alloc),
        extends(alloc),
        ended(Letters::from_values(alloc, ['a', 'b'])),
        ended(two_letters(alloc)),
        clones(alloc),
        clones_of_rest(alloc),
        pairs(alloc),
        trees(alloc),
    ])
}

/// Makes three lists, and does nothing with them.
pub fn listed(alloc: Global) -> Outcome {
    let _lists = three(alloc)?;
    Ok(())
}

/// Makes the same lists, and takes values out of them by calls that don't allocate.
pub fn emptied(alloc: Global) -> Outcome {
    let (mut retained, mut popped, mut cleared) = three(alloc)?;
    retained.retain(|letter| *letter == 'a');
    cleared.clear();
    let last = popped.pop();
    let pair = popped.pop_pair();
    let right = [
        retained.first() == Some(&'a') && retained.len() == 1,
        last == Some('b'),
        pair == Some(Pair::Punctuated('a', Mark(';'))),
        popped.is_empty(),
        cleared.is_empty(),
    ];
    expect(right == [true; 5], "retain, pop, pop_pair, clear")
}

// Returns three lists `a;b`.
fn three(alloc: Global) -> Result<(Letters, Letters, Letters), Stop> {
    let first = two_letters(alloc)?;
    let second = two_letters(alloc)?;
    Ok((first, second, two_letters(alloc)?))
}

// Returns the list `a;b`, of a pair and a bare value.
fn two_letters(alloc: Global) -> Result<Letters, Stop> {
    made(Letters::from_pairs(alloc, [Pair::Punctuated('a', Mark(';')), Pair::End('b')]))
}

fn pushes(alloc: Global) -> Outcome {
    let mut list = Letters::new(alloc);
    list.push_value('a')?;
    list.push_punct(Mark(';'))?;
    ended(list.pop_punct())
}

fn inserts(alloc: Global) -> Outcome {
    let mut list = Letters::new(alloc);
    list.push('a')?;
    ended(list.insert(0, 'b'))
}

fn values(alloc: Global) -> Outcome {
    let mut list = Letters::new(alloc);
    ended(list.extend_values(['a', 'b', 'c', 'd', 'e', 'f']))
}

fn extends(alloc: Global) -> Outcome {
    let mut list = Letters::new(alloc);
    list.push_value('a')?;
    ended(list.extend_pairs([Pair::Punctuated('b', Mark(';')), Pair::End('c')]))
}

fn clones(alloc: Global) -> Outcome {
    let list = two_letters(alloc)?;
    ended::<_, AllocError>(list.clone())
}

// Copies the pairs and the values that are left of a list.
fn clones_of_rest(alloc: Global) -> Outcome {
    let pairs = two_letters(alloc)?.into_pairs();
    let values = two_letters(alloc)?.into_iter();
    worst(&[
        ended::<_, AllocError>(pairs.clone()),
        ended::<_, AllocError>(values.clone()),
    ])
}

fn pairs(alloc: Global) -> Outcome {
    let value = made(Boxed::new(alloc, 'a'))?;
    let separator = made(Boxed::new(alloc, ';'))?;
    let cloned = ended(Pair::Punctuated(&value, &separator).cloned());
    let pair = Pair::Punctuated(value, separator);
    worst(&[cloned, ended::<_, AllocError>(pair.clone())])
}

fn plus() -> Result<Punct, Stop> {
    Punct::new('+', Spacing::Alone).ok_or(Stop::Wrong("Punct::new"))
}

// Writes a list of three trees, and a pair of two, which find no room.
fn trees(alloc: Global) -> Outcome {
    let punct = plus()?;
    let pairs = [Pair::Punctuated(punct, punct), Pair::End(punct)];
    let list = made(Punctuated::from_pairs(alloc, pairs))?;
    let mut tokens = TokenStream::new(alloc);
    worst(&[
        ended(list.to_tokens(&mut tokens)),
        ended(Pair::Punctuated(punct, punct).to_tokens(&mut tokens)),
    ])
}
