//! Items as a derive reads them: attributes, a name and a type.
use crate::pen::{NAME, NUMBER, Pen, STRING, one_of};
use std::alloc::AllocError;

// What stands between the parentheses of an attribute, before a comma.
static ARGUMENTS: [&[&str]; 8] = [
    &[NAME],
    &[NAME, " = ", STRING],
    &[NAME, " = ", STRING],
    &[NAME, " = ", NUMBER],
    &[NAME, "(", NAME, ", ", NAME, ")"],
    &[NAME, "(", NAME, " = ", STRING, ")"],
    &[STRING],
    &[NUMBER],
];

static TYPES: [&[&str]; 9] = [
    &["Vec<", NAME, ">"],
    &["Vec<", NAME, ">"],
    &[NAME],
    &[NAME, "::", NAME],
    &["&'a ", NAME],
    &["&'static mut ", NAME, "::", NAME],
    &["Option<", NAME, "<", NAME, ", ", NAME, ">>"],
    &["(", NAME, ", ", NAME, ", [", NAME, "; ", NUMBER, "])"],
    &["[", NAME, "; ", NUMBER, "]"],
];

impl Pen {
    // Writes an attribute.
    fn attribute(&mut self) -> Result<(), AllocError> {
        self.put("#[")?;
        self.name()?;
        match self.random.below(8) {
            0 => {}
            1 => {
                self.put(" = ")?;
                self.string()?;
            }
            _ => {
                self.put("(")?;
                let count = self.random.below(4).saturating_add(1);
                for i in 0..count {
                    if i > 0 {
                        self.put(", ")?;
                    }
                    self.row(&ARGUMENTS)?;
                }
                self.put(")")?;
            }
        }
        self.put("]\n")
    }

    /// Makes the items that texts are written with.
    pub fn make_items(&mut self) -> Result<(), AllocError> {
        for _ in 0..1_500u32 {
            self.new_item()?;
            let item = self.take();
            self.items.push(item)?;
        }
        Ok(())
    }

    /// Writes an item.
    pub fn item(&mut self) -> Result<(), AllocError> {
        self.text.push_str(one_of(&self.items, &mut self.random))
    }

    // Writes a new item: attributes, a name and a type, and a comma.
    fn new_item(&mut self) -> Result<(), AllocError> {
        let count = self.random.below(3);
        for _ in 0..count {
            self.attribute()?;
        }
        let visibility = self.random.pick(&["pub ", "pub ", "", "pub(crate) "], "");
        self.put(visibility)?;
        self.name()?;
        self.put(": ")?;
        self.row(&TYPES)?;
        self.put(",\n")
    }
}
