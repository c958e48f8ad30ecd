//! An example of a whole language, which consists of settings with nested lists and maps:
//!
//!     name: "main", ports: [80, 0x50], tls: { cert: "a.pem", strict: true }
//!
//! `parse_config` parses a text as settings, and `Shown` prints settings as a text. If the settings
//! were parsed from a text, then parsing the printed text returns the same settings, except for spans
//! and trailing commas. A value is a string, an integer, `true`, `false`, a list or a map. Literals
//! have the same values as in Rust. The keyword `include` can't be a key.
#![tactic(auto)]

pub mod laws;
mod print;
mod read;
mod value;

pub use print::Shown;
pub use read::parse_config;
pub use value::{Config, False, Include, Setting, True, Value};
