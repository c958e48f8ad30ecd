//! Texts that look like Rust source files.
use crate::pen::{NAME, NUMBER, Pen, STRING, one_of};
use std::alloc::AllocError;

/// What a file mostly holds.
#[derive(Clone, Copy)]
pub enum Shape {
    /// Items and statements, with this many doc comments among 100 lines.
    Code(usize),
    /// Tables of numbers.
    Numbers,
    /// Empty groups side by side.
    Pairs,
    /// Groups in groups, up to the deepest.
    Deep,
}

// What opens a block.
static BLOCKS: [&[&str]; 10] = [
    &["if ", NAME, ".", NAME, "(", NAME, ") {"],
    &["for ", NAME, " in ", NAME, ".iter() {"],
    &["match ", NAME, ".", NAME, " {"],
    &["while let Some(", NAME, ") = ", NAME, ".", NAME, "() {"],
    &["impl<'a> ", NAME, " for ", NAME, "<'a> {"],
    &[
        "fn ",
        NAME,
        "(&self, ",
        NAME,
        ": &str) -> Result<",
        NAME,
        ", ",
        NAME,
        "> {",
    ],
    &[
        "pub fn ",
        NAME,
        "<'a, T: ",
        NAME,
        ">(",
        NAME,
        ": &'a [T]) -> Option<&'a T> {",
    ],
    &["#[derive(Clone, Copy, Debug)]\npub struct ", NAME, " {"],
    &["pub enum ", NAME, "<T> {"],
    &["let ", NAME, " = move |", NAME, ": ", NAME, "| {"],
];

// What stands on a line of its own.
static LINES: [&[&str]; 27] = [
    &[
        "let ", NAME, " = ", NAME, ".", NAME, "(", NAME, ", &mut ", NAME, ")?;",
    ],
    &["let mut ", NAME, " = ", NAME, "::", NAME, "(", NAME, ");"],
    &[NAME, ".", NAME, "(", STRING, ");"],
    &[NAME, ".", NAME, " = ", NAME, ".", NAME, "()?;"],
    &["pub ", NAME, ": ", NAME, "<", NAME, ">,"],
    &["pub ", NAME, ": Vec<", NAME, ">,"],
    &[
        NAME, "(", NAME, ") | ", NAME, "(_) => ", NAME, " += ", NUMBER, ",",
    ],
    &[
        NAME,
        "::",
        NAME,
        " { ",
        NAME,
        ", .. } => ",
        NAME,
        "(",
        NAME,
        "),",
    ],
    &["return Err(", NAME, "::", NAME, "(", STRING, "));"],
    &["assert_eq!(", NAME, "[", NUMBER, "], ", NUMBER, ");"],
    &[
        "assert!(", NAME, ".", NAME, "(&[", STRING, ", ", STRING, "]));",
    ],
    &["#[", NAME, "(", NAME, " = ", STRING, ")]"],
    &["#[cfg(feature = ", STRING, ")]"],
    &["#[inline]"],
    &[
        "use ", NAME, "::", NAME, "::{", NAME, ", ", NAME, ", ", NAME, "};",
    ],
    &["use crate::", NAME, "::", NAME, ";"],
    &[
        "const ", NAME, ": [u8; ", NUMBER, "] = [", NUMBER, ", ", NUMBER, ", ", NUMBER, "];",
    ],
    &["type ", NAME, "<'a> = &'a mut ", NAME, "<", NAME, ">;"],
    &[
        NAME, "!(", STRING, ", ", NAME, ", ", NAME, ".", NAME, "());",
    ],
    &[
        "if ",
        NAME,
        " == '",
        "x",
        "' || ",
        NAME,
        " != b'\\n' && !",
        NAME,
        " {}",
    ],
    &[
        "let ",
        NAME,
        " = (",
        NAME,
        " << ",
        NUMBER,
        ") & 0xFF_u32 | 0b1010;",
    ],
    &[
        "let ", NAME, " = r#\"", NAME, " \"", NAME, "\" ", NAME, "\"#;",
    ],
    &["let ", NAME, " = ", NUMBER, ".5e3 * ", NAME, " as f64;"],
    &["/* ", NAME, " ", NAME, " ", NAME, " */"],
    &["// ", NAME, " ", NAME, " ", NAME, " ", NAME, " ", NAME],
    &[
        NAME, "::<", NAME, ">(|", NAME, "| ", NAME, ".", NAME, ", ", NUMBER, "..=", NUMBER, ");",
    ],
    &["..", NAME, "::default()"],
];

// A row of a table of numbers.
static ROWS: [&[&str]; 1] = [&[
    "    (", NUMBER, ", 0x1F", NUMBER, "), (", NUMBER, "u64, 1_", NUMBER, "),\n",
]];

impl Pen {
    /// Writes pieces of one of these rows.
    pub fn row(&mut self, rows: &[&[&str]]) -> Result<(), AllocError> {
        let at = self.random.below(rows.len());
        match rows.get(at) {
            Some(row) => self.put_all(row),
            None => Ok(()),
        }
    }

    /// Makes the lines that code is written with.
    pub fn make_code(&mut self) -> Result<(), AllocError> {
        for _ in 0..2_000u32 {
            self.row(&LINES)?;
            let line = self.take();
            self.lines.push(line)?;
        }
        for _ in 0..400u32 {
            self.row(&BLOCKS)?;
            let block = self.take();
            self.blocks.push(block)?;
        }
        for _ in 0..300u32 {
            self.row(&ROWS)?;
            let row = self.take();
            self.rows.push(row)?;
        }
        Ok(())
    }

    // Writes the lines of a doc comment.
    fn docs(&mut self, depth: usize, end: &str) -> Result<(), AllocError> {
        let mark = self
            .random
            .pick(&["/// ", "/// ", "/// ", "/// ", "//! "], "/// ");
        let lines = self.random.below(4).saturating_add(1);
        for _ in 0..lines {
            self.indent(depth)?;
            self.put(mark)?;
            self.sentence()?;
            self.put(end)?;
        }
        Ok(())
    }

    /// Writes a file of this shape, of about so many bytes, with these ends of lines.
    pub fn file(&mut self, shape: Shape, bytes: usize, end: &str) -> Result<(), AllocError> {
        match shape {
            Shape::Code(docs) => self.code(docs, bytes, end),
            Shape::Numbers => self.numbers(bytes),
            Shape::Pairs => self.pairs(bytes),
            Shape::Deep => self.deep(bytes),
        }
    }

    // Writes lines of code, blocks up to 5 deep.
    fn code(&mut self, docs: usize, bytes: usize, end: &str) -> Result<(), AllocError> {
        let mut depth = 0usize;
        for _ in 0..bytes {
            if self.text.len() >= bytes {
                break;
            }
            if self.random.chance(docs) {
                self.docs(depth, end)?;
            }
            if depth > 0 && self.random.chance(18) {
                depth -= 1;
                self.indent(depth)?;
                self.put("}")?;
            } else if depth < 5 && self.random.chance(if depth < 2 { 50 } else { 18 }) {
                self.indent(depth)?;
                self.text.push_str(one_of(&self.blocks, &mut self.random))?;
                depth += 1;
            } else {
                self.indent(depth)?;
                self.text.push_str(one_of(&self.lines, &mut self.random))?;
            }
            self.put(end)?;
            if depth < 2 && self.random.chance(30) {
                self.put(end)?;
            }
        }
        for _ in 0..depth {
            self.put("}")?;
            self.put(end)?;
        }
        Ok(())
    }

    // Writes rows of a table of numbers.
    fn numbers(&mut self, bytes: usize) -> Result<(), AllocError> {
        self.put("pub static TABLE: &[(u32, u32)] = &[\n")?;
        for _ in 0..bytes {
            if self.text.len() >= bytes {
                break;
            }
            self.text.push_str(one_of(&self.rows, &mut self.random))?;
        }
        self.put("];\n")
    }

    // Writes empty groups.
    fn pairs(&mut self, bytes: usize) -> Result<(), AllocError> {
        for _ in 0..bytes {
            if self.text.len() >= bytes {
                break;
            }
            let pair = self
                .random
                .pick(&["()", "[]", "{}", "() ", "(,)", "[;]"], "()");
            self.put(pair)?;
        }
        Ok(())
    }

    // Writes groups 200 to 256 deep, side by side.
    fn deep(&mut self, bytes: usize) -> Result<(), AllocError> {
        for _ in 0..bytes {
            if self.text.len() >= bytes {
                break;
            }
            let levels = self.random.below(57).saturating_add(200);
            for _ in 0..levels {
                self.put("(")?;
                if self.random.chance(20) {
                    self.name()?;
                }
            }
            for _ in 0..levels {
                self.put(")")?;
            }
        }
        Ok(())
    }
}
