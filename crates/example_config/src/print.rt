//! A type that displays settings as text. `specs/Printed.antt` defines this text.
ghost use Rattle.std.specs.Prelude.{Some, [], if◌then◌else◌, codes, map};
ghost use Rattle.std.specs.Fmt.{WritesOnOk};
ghost use Rattle.std.specs.Str.{chars};
ghost use Rattle.syn_punctuated.specs.Lists.{values_of};
ghost use Rattle.tok_leaves.specs.Quoting.{escaped, in_quotes};
ghost use Rattle.example_config.specs.Forms.{forms, setting_form, setting_forms, value_form};
ghost use Rattle.example_config.specs.Printed.{in_braces, in_brackets, setting_text, setting_texts, settings_text, value_text, value_texts};

use crate::value::{Config, Setting, Value};
use std::fmt;
use std::fmt::{Display, Formatter, Write};
use syn_punctuated::Punctuated;
use tok_types::token;

/// A wrapper that displays settings as a text, with one setting on each line.
///
/// A string is written in the same way as by `Literal::string`, a number is decimal, and a list or
/// a map is on one line. The text contains no spans, and no comma after the last value of a list or
/// a map.
///
/// If `parse_config` returned the settings, then parsing the displayed text returns the same
/// settings, except for spans and trailing commas (see `laws::settings_are_read_back`).
#[derive(Clone, Copy)]
pub struct Shown<'a>(pub &'a Config);

/// Writes each setting on its own line, with a comma after the setting.
impl Display for Shown<'_> {
    ghost output = { λ shown. Some (settings_text (map setting_form (values_of shown.0.now))) };

    fn fmt<W: Write>(&self, f: &mut Formatter<W>) -> fmt::Result {
        for setting in self.0 {
            write_setting(f, setting)?;
            f.write_str(",\n")?;
        }
        Ok(())
    }
}

// Writes a key and its value.
#[cycle(printing)]
fn write_setting<W: Write>(f: &mut Formatter<W>, setting: &Setting) -> fmt::Result
    ensures { WritesOnOk W.write_str_gives f.old result (setting_text (setting_form setting.now))
        f.new }
{
    f.write_str(setting.key.as_str())?;
    f.write_str(": ")?;
    write_value(f, &setting.value)
}

// Writes a value on one line.
#[cycle(printing)]
fn write_value<W: Write>(f: &mut Formatter<W>, value: &Value) -> fmt::Result
    ensures { WritesOnOk W.write_str_gives f.old result (value_text (value_form value.now)) f.new }
{
    match value {
        Value::Text(_, text) => write_text(f, text.as_str()),
        Value::Number(_, number) => write!(f, "{number}"),
        Value::Truth(_, truth) => write!(f, "{truth}"),
        Value::List(_, values) => write_list(f, values),
        Value::Map(_, settings) => write_map(f, settings),
    }
}

// Writes values in brackets.
#[cycle(printing)]
fn write_list<W: Write>(
    f: &mut Formatter<W>,
    values: &Punctuated<Value, token::Comma>,
) -> fmt::Result
    ensures { WritesOnOk W.write_str_gives f.old result
        (in_brackets (value_texts (forms (map value_form (values_of values.now))))) f.new }
{
    f.write_str("[")?;
    let mut is_first = true;
    for item in values {
        write_between(f, is_first)?;
        write_value(f, item)?;
        is_first = false;
    }
    f.write_str("]")
}

// Writes settings in braces.
#[cycle(printing)]
fn write_map<W: Write>(f: &mut Formatter<W>, settings: &Config) -> fmt::Result
    ensures { WritesOnOk W.write_str_gives f.old result
        (in_braces (setting_texts (setting_forms (map setting_form (values_of settings.now)))))
        f.new }
{
    f.write_str("{")?;
    let mut is_first = true;
    for setting in settings {
        write_between(f, is_first)?;
        write_setting(f, setting)?;
        is_first = false;
    }
    f.write_str("}")
}

// Writes a comma and a space, unless the value after them is the first.
fn write_between<W: Write>(f: &mut Formatter<W>, is_first: bool) -> fmt::Result
    ensures { WritesOnOk W.write_str_gives f.old result (if is_first then [] else codes ", ")
        f.new }
{
    if is_first { Ok(()) } else { f.write_str(", ") }
}

// Writes a text in quotes, with escapes.
fn write_text<W: Write>(f: &mut Formatter<W>, text: &str) -> fmt::Result
    ensures { WritesOnOk W.write_str_gives f.old result (in_quotes (chars text.now)) f.new }
{
    f.write_str("\"")?;
    for c in text.chars() {
        write_escaped(f, c)?;
    }
    f.write_str("\"")
}

// Writes a character, or the escape that stands for it. `Literal::string` appends the same to a
// `String`, whose errors are those of memory.
fn write_escaped<W: Write>(f: &mut Formatter<W>, c: char) -> fmt::Result
    ensures { WritesOnOk W.write_str_gives f.old result (escaped c) f.new }
{
    match c {
        '"' => f.write_str("\\\""),
        '\\' => f.write_str("\\\\"),
        '\n' => f.write_str("\\n"),
        '\r' => f.write_str("\\r"),
        '\t' => f.write_str("\\t"),
        '\0' => f.write_str("\\0"),
        _ => f.write_char(c),
    }
}
