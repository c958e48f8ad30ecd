//! The room that a builder makes for a text: before it reads the text, and after it.
ghost use Rattle.std.specs.Prelude.{◌≡◌, ◌<◌, ◌≤◌, ◌/◌, ◌^◌, IfOk, IsOk, length, min};
ghost use Rattle.std.specs.Vec.{vec_capacity};

use std::alloc::AllocError;

// A text of fewer bytes counts as none: its few items fit into what a vector grows to.
const FEWEST_BYTES: usize = 1 << 8;

/// The most bytes of a text for which a builder makes room before it reads the text.
///
/// A long text may consist of a single comment, for which the room of all its bytes would be lost.
pub const MOST_BYTES: usize = 1 << 18;

// A vector of trees or entries that grows from nothing has room for so many at first. Later it uses
// more than half of its room, unless items leave it.
const FIRST_CAPACITY: usize = 4;

/// Returns for how many of a text's bytes a builder makes room before it reads the text.
///
/// Returns 0 if the text has fewer than 256 bytes. Otherwise, returns the length of the text in
/// bytes, but at most `MOST_BYTES`.
pub fn counted_bytes(bytes: usize) -> usize
    ensures few { bytes < 2 ^ 8 → result ≡ 0 }
    ensures many { 2 ^ 8 ≤ bytes → result ≡ min bytes (2 ^ 18) }
{
    if bytes < FEWEST_BYTES {
        0
    } else {
        bytes.min(MOST_BYTES)
    }
}

/// Returns the items in a vector that is at most twice as large as they need.
///
/// If the vector has room for more than four items, and less than half of the room is used, the
/// items move to a vector with exactly enough room. If this allocation fails, returns an error and
/// drops the items.
//
// `Vec::shrink_to_fit` would not tell that an allocation has failed.
pub fn fitted<T: Drop>(items: Vec<T>) -> Result<Vec<T>, AllocError>
    ensures kept { IfOk result (λ fitted. fitted.items ≡ items.items) }
    ensures succeeds { vec_capacity items / 2 ≤ length items.items → IsOk result }
{
    let mut fitted = items;
    let room = fitted.capacity();
    if room > FIRST_CAPACITY && room / 2 > fitted.len() {
        fitted = fitted.split_off(0)?;
    }
    Ok(fitted)
}
