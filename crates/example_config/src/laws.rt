//! Laws about settings. Each law is the contract of a function that does nothing.
ghost use Rattle.std.specs.Prelude.{◌≡◌, ◌↔◌, None};
ghost use Rattle.tok_core.specs.Forest.{Forest};
ghost use Rattle.syn_parse.specs.Takes.{found};
ghost use Rattle.syn_parse.specs.TreesAhead.{all_taken};
ghost use Rattle.example_config.specs.Grammar.{AreForms, ListForm};
ghost use Rattle.example_config.specs.ReadBack.{AreReadBack, AreReadFromTexts};
ghost use Rattle.example_config.specs.Reading.{take_settings};

use tok_values::laws::{strings_are_read, strings_keep_text, values_are_functions};

/// The parser reads a list of settings from visible token trees, and leaves no tree unread, if and
/// only if the grammar assigns this list to these trees.
pub fn grammar_is_read()
    ensures { (trees : Forest) (form : ListForm)
        → (take_settings (record { trees = trees; unread = None }) ≡ found form all_taken)
        ↔ AreForms trees form }
{}

/// The grammar is unambiguous: it assigns at most one list of settings, including its spans, to a
/// sequence of token trees.
pub fn settings_once()
    ensures { (trees : Forest) (left right : ListForm) → AreForms trees left
        → AreForms trees right → left ≡ right }
{}

/// Settings can be written as a text by `Shown` and parsed again. The result equals the original
/// settings, unless an allocation fails.
///
/// Each key must be a plain or raw identifier that a text can have as a key: neither a reserved word
/// nor `include`. Each number must be below 2^64, and lists and maps must be nested at most 256
/// deep. Settings that were parsed from a text always meet these conditions. Spans, and commas after
/// a last value, may differ.
pub fn settings_are_read_back()
    ensures of_text { AreReadFromTexts }
    ensures read_back { AreReadBack }
{
    strings_keep_text();
    strings_are_read();
    values_are_functions();
}
