//! A function that finds the lines and columns of bytes in a text.
ghost use Rattle.syn_tokens_c.specs.Places.{ArePlaced};

use simdutf8::basic::from_utf8;
use std::alloc::{AllocError, Global};
use tok_carets::{LineColumn, LineIndex};

const READ: u8 = 0;

const NOT_UTF8: u8 = 2;

const NO_MEMORY: u8 = 3;

const NO_ROOM: u8 = 4;

/// Writes the line and the column of each offset in `bytes` to the start of `places`.
///
/// `bytes` contains byte offsets in `text`. Lines and columns are counted from 1, and a column is a
/// number of characters. Both numbers are 0 for an offset within a character or after the end of
/// the text.
///
/// Returns 0 if the call succeeds. Otherwise, the call writes nothing and returns one of the
/// following numbers:
///
/// - 2 if `text` is not UTF-8.
/// - 3 if an allocation failed.
/// - 4 if `places` has fewer elements than `bytes`.
#[unsafe(no_mangle)]
pub extern "C" fn syn_tokens_lines(
    alloc: Global,
    text: &[u8],
    bytes: &[usize],
    places: &mut [LineColumn],
) -> u8
    ensures { ArePlaced text.now bytes.now result places.old places.new }
{
    if places.len() < bytes.len() {
        return NO_ROOM;
    }
    match from_utf8(text) {
        Ok(text) => match LineIndex::new(alloc, text) {
            Ok(index) => {
                index.line_columns(bytes, places);
                READ
            }
            Err(AllocError) => NO_MEMORY,
        },
        Err(_) => NOT_UTF8,
    }
}
