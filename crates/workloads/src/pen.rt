//! A text that is being written, and the words that it is written with.
use crate::random::Random;
use std::alloc::{AllocError, Global};
use tok_types::accept_as_ident;

/// A piece that stands for a name.
pub const NAME: &str = "$";

/// A piece that stands for a string literal.
pub const STRING: &str = "@";

/// A piece that stands for a number.
pub const NUMBER: &str = "%";

// How many of 1,000 names have at most so many letters. One in 28 has more than 14.
static LENGTHS: [usize; 15] = [
    0, 40, 100, 190, 310, 420, 530, 630, 720, 790, 850, 894, 928, 950, 964,
];

/// A text, with the generator and the words that it is written with.
#[derive(Drop)]
pub struct Pen {
    pub alloc: Global,
    pub text: String,
    pub random: Random,
    names: Vec<String>,
    strings: Vec<String>,
    sentences: Vec<String>,
    numbers: Vec<String>,
    /// Lines of code, made once and written again and again.
    pub lines: Vec<String>,
    /// What opens a block of code.
    pub blocks: Vec<String>,
    /// Rows of tables of numbers.
    pub rows: Vec<String>,
    /// Items with attributes.
    pub items: Vec<String>,
}

// Returns how many letters the next name has.
fn length(random: &mut Random) -> usize {
    let chance = random.below(1_000);
    let mut length = 1usize;
    for most in &LENGTHS[1..] {
        if chance < *most {
            return length;
        }
        length = length.saturating_add(1);
    }
    random.below(16).saturating_add(15)
}

const LETTERS: [&str; 30] = [
    "a", "b", "c", "d", "e", "f", "g", "h", "i", "j", "k", "l", "m", "n", "o", "p", "q", "r", "s",
    "t", "u", "v", "w", "x", "y", "z", "e", "t", "s", "r",
];

const OTHER_LETTERS: [&str; 6] = ["ä", "é", "ж", "日", "ß", "ω"];

// Writes a name.
fn name(alloc: Global, random: &mut Random, is_ascii: bool) -> Result<String, AllocError> {
    let length = length(random);
    let mut name = String::new(alloc);
    for i in 0..length {
        if i > 1 && length.saturating_sub(i) > 1 && random.chance(12) {
            name.push('_')?;
        } else if !is_ascii && random.chance(30) {
            name.push_str(random.pick(&OTHER_LETTERS, "é"))?;
        } else {
            name.push_str(random.pick(&LETTERS, "a"))?;
        }
    }
    // No reserved word.
    if !accept_as_ident(name.as_str()) {
        name.push('x')?;
    }
    Ok(name)
}

// Writes a sentence of about so many bytes.
fn sentence(
    alloc: Global,
    random: &mut Random,
    bytes: usize,
    is_ascii: bool,
) -> Result<String, AllocError> {
    let mut text = String::new(alloc);
    for i in 0..bytes {
        if text.len() >= bytes {
            break;
        }
        if i > 0 {
            text.push(' ')?;
        }
        let word = name(alloc, random, is_ascii)?;
        if random.chance(6) {
            text.push('`')?;
            text.push_str(word.as_str())?;
            text.push_str("`,")?;
        } else {
            text.push_str(word.as_str())?;
        }
    }
    text.push('.')?;
    Ok(text)
}

// Writes a string literal. A quarter of them has more than 14 bytes.
fn string(alloc: Global, random: &mut Random, is_ascii: bool) -> Result<String, AllocError> {
    let bytes = if random.chance(25) {
        random.below(50).saturating_add(12)
    } else {
        random.below(8)
    };
    let inside = sentence(alloc, random, bytes, is_ascii)?;
    let mut text = String::new(alloc);
    text.push('"')?;
    text.push_str(inside.as_str())?;
    if random.chance(12) {
        text.push_str(random.pick(&["\\n", "\\\"", "\\u{e9}", "\\t", "\\\\"], "\\n"))?;
    }
    text.push('"')?;
    Ok(text)
}

/// Returns one of these texts.
pub fn one_of<'a>(those: &'a [String], random: &mut Random) -> &'a str {
    let at = random.below(those.len());
    match those.get(at) {
        Some(one) => one.as_str(),
        None => "",
    }
}

impl Pen {
    /// Creates the pen of a seed. Its names are ASCII, or else a few of them.
    pub fn new(alloc: Global, seed: u64, is_ascii: bool) -> Result<Pen, AllocError> {
        let mut random = Random::new(seed);
        let mut names = Vec::new(alloc);
        for _ in 0..700u32 {
            names.push(name(alloc, &mut random, is_ascii)?)?;
        }
        let mut strings = Vec::new(alloc);
        for _ in 0..300u32 {
            strings.push(string(alloc, &mut random, is_ascii)?)?;
        }
        let mut sentences = Vec::new(alloc);
        for _ in 0..300u32 {
            let bytes = random.below(70).saturating_add(10);
            sentences.push(sentence(alloc, &mut random, bytes, is_ascii)?)?;
        }
        let mut numbers = Vec::new(alloc);
        for _ in 0..300u32 {
            let number = random.next();
            let number = number >> (40 + number % 24);
            numbers.push(format!(in alloc; "{number}")?)?;
        }
        let mut pen = Pen {
            alloc,
            text: String::new(alloc),
            random,
            names,
            strings,
            sentences,
            numbers,
            lines: Vec::new(alloc),
            blocks: Vec::new(alloc),
            rows: Vec::new(alloc),
            items: Vec::new(alloc),
        };
        pen.make_code()?;
        pen.make_items()?;
        Ok(pen)
    }

    /// Writes a text.
    pub fn put(&mut self, text: &str) -> Result<(), AllocError> {
        self.text.push_str(text)
    }

    /// Writes a name.
    pub fn name(&mut self) -> Result<(), AllocError> {
        self.text.push_str(one_of(&self.names, &mut self.random))
    }

    /// Writes a string literal.
    pub fn string(&mut self) -> Result<(), AllocError> {
        self.text.push_str(one_of(&self.strings, &mut self.random))
    }

    /// Writes a sentence.
    pub fn sentence(&mut self) -> Result<(), AllocError> {
        self.text
            .push_str(one_of(&self.sentences, &mut self.random))
    }

    /// Writes an integer.
    pub fn number(&mut self) -> Result<(), AllocError> {
        self.text.push_str(one_of(&self.numbers, &mut self.random))
    }

    /// Writes pieces, with a name, a string or a number for those that stand for one.
    pub fn put_all(&mut self, pieces: &[&str]) -> Result<(), AllocError> {
        for piece in pieces {
            match *piece {
                NAME => self.name()?,
                STRING => self.string()?,
                NUMBER => self.number()?,
                other => self.text.push_str(other)?,
            }
        }
        Ok(())
    }

    /// Writes four spaces for each level.
    pub fn indent(&mut self, levels: usize) -> Result<(), AllocError> {
        for _ in 0..levels {
            self.text.push_str("    ")?;
        }
        Ok(())
    }

    /// Takes what was written, and begins anew.
    pub fn take(&mut self) -> String {
        std::mem::replace(&mut self.text, String::new(self.alloc))
    }
}
