//! Formats errors in the same form as rustc, with the affected line of the text and carets under
//! it.
//!
//!     error: expected `,`
//!      --> config:1:16
//!       |
//!     1 | server { a: [1 2] }
//!       |                ^
//!
//! Control characters are kept in the line, whereas rustc replaces them with visible characters.
//!
//! `Source` is a text with a name, and its methods format an `Error`, a `LexError` or a message at
//! a span. `IndexedSource` formats many errors that are about one text. The contracts specify which
//! line and which carets are in the result (`specs/Shown.antt`).
#![tactic(auto)]

mod counts;
mod index;
mod indexed;
pub mod laws;
mod line;
mod source;

pub use index::LineIndex;
pub use indexed::IndexedSource;
pub use line::{LineColumn, line_column};
pub use source::Source;
