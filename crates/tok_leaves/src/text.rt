//! Immutable strings. Contracts describe a string as its bytes, and a clone therefore equals the
//! original.
ghost use Rattle.std.specs.Fmt.{debug_str};
ghost use Rattle.std.specs.Prelude.{◌≡◌, ◌<◌, ◌≤◌, ◌++◌, ℕ, List, length, nat_eq, take, string_bytes, IfOk, SomeIff, Some};
ghost use Rattle.std.specs.Str.{chars};
ghost use Rattle.std.specs.Cmp as compared;
ghost use Rattle.std.specs.Cmp.Lexicographic.{pointwise, slice_cmp, nat_list_eq_equiv, nat_list_cmp_total, texts_ties, texts_po};
ghost use Rattle.std.specs.Hash as fed;
ghost use Rattle.std.specs.Ordering.{nat_cmp};
ghost use Rattle.std.proofs.Common.{rules};
ghost use Rattle.tok_leaves.specs.Leaves.{most_short};
ghost use Rattle.tok_leaves.specs.Private.Kept.{most_medium};

use std::alloc::{AllocError, Global};
use std::cmp::Ordering;
use std::fmt::{self, Debug, Display, Formatter, Write};
use std::hash::{Hash, Hasher};
use std::marker::Model;
use std::str::from_utf8_unchecked;
use std::sync::Arc;

// The most bytes of a text that is stored in place. With their number and the node's kind, so many
// take 16 bytes.
const MOST_SHORT: usize = 14;

// The most bytes of a text in a block. With their number and that of the texts that share them, so
// many take 56 bytes.
const MOST_MEDIUM: usize = 47;

// The bytes of a text on the heap that no `String` holds, and how many it has.
#[derive(Drop)]
struct Block {
    len: u8,
    bytes: [u8; MOST_MEDIUM],
}

// A short text is stored in place, a longer one on the heap, where its clones share it.
#[derive(Drop)]
enum Node {
    Short(u8, [u8; MOST_SHORT]),
    Medium(Arc<Block>),
    Long(Arc<String>),
}

/// An immutable string. The struct itself has 16 bytes.
///
/// A string of at most 14 bytes is stored in the struct. A longer string is stored in an
/// allocation, which its clones share.
pub struct Text {
    node: Node,
    alloc: Global,
}

// Not derived: so a caller's proof sees a drop as one call, and not the cases of a node.
impl Drop for Text {
    fn drop(self) {
        let Text { node, alloc: _ } = self;
        drop(node);
    }
}

impl Model for Text {
    ghost use Rattle.std.specs.Prelude.{List, ℕ};

    ghost Value = { List ℕ };

    ghost use Rattle.tok_leaves.specs.Private.Kept.{bytes_of, IsKept};

    ghost view = { λ t. bytes_of t.node };

    ghost invariant = { λ t. IsKept t.node };
}

impl Text {
    /// Creates a text that is a copy of `text`.
    ///
    /// Returns an error if the allocation fails.
    pub fn from_str(alloc: Global, text: &str) -> Result<Text, AllocError>
        ensures { IfOk result (λ t. t ≡ text.now) }
    {
        if text.len() <= MOST_SHORT {
            return Ok(Text::short(alloc, text));
        }
        if text.len() <= MOST_MEDIUM {
            return Text::medium(alloc, text);
        }
        Text::long(alloc, String::from_str(alloc, text)?)
    }

    /// Creates a text that is a copy of `piece`, which is the beginning of `text`.
    ///
    /// Returns an error if the allocation fails.
    ///
    /// # Requires
    ///
    /// `text` must begin with `piece`.
    //
    // Fourteen bytes, whatever they are, are copied by a few moves. To copy as many as a piece has
    // takes a call, whose branches are often mispredicted.
    #[inline(always)]
    pub fn from_front(alloc: Global, piece: &str, text: &str) -> Result<Text, AllocError>
        requires { (rest : List ℕ) × (chars text.now ≡ chars piece.now ++ rest) }
        ensures { IfOk result (λ t. t ≡ piece.now) }
    {
        match text.as_bytes().split_first_chunk::<MOST_SHORT>() {
            Some((bytes, _)) if piece.len() <= MOST_SHORT => Ok(Text::front(alloc, piece, bytes)),
            _ => Text::from_str(alloc, piece),
        }
    }

    // Stores a piece with what follows it, as many bytes as fit.
    #[inline(always)]
    fn front(alloc: Global, piece: &str, bytes: &[u8; MOST_SHORT]) -> Text
        requires short { length piece.now ≤ most_short }
        requires front { take (length piece.now) bytes.now ≡ piece.now }
        ensures { result ≡ piece.now }
    {
        Text {
            node: Node::Short(piece.len() as u8, *bytes),
            alloc,
        }
    }

    /// Converts a string into a text.
    ///
    /// The call moves a string of more than 47 bytes, and copies a shorter one. If the allocation
    /// fails, the call returns an error and drops the string.
    pub fn from_string(alloc: Global, text: String) -> Result<Text, AllocError>
        ensures { IfOk result (λ t. t ≡ string_bytes text) }
    {
        if text.len() <= MOST_SHORT {
            return Ok(Text::short(alloc, text.as_str()));
        }
        if text.len() <= MOST_MEDIUM {
            return Text::medium(alloc, text.as_str());
        }
        Text::long(alloc, text)
    }

    fn short(alloc: Global, text: &str) -> Text
        requires { length text.now ≤ most_short }
        ensures { result ≡ text.now }
    {
        let mut bytes = [0u8; MOST_SHORT];
        let len = text.len();
        bytes[..len].copy_from_slice(text.as_bytes());
        Text {
            node: Node::Short(len as u8, bytes),
            alloc,
        }
    }

    // Kept out of line, as `long`.
    #[inline(never)]
    fn medium(alloc: Global, text: &str) -> Result<Text, AllocError>
        requires long { most_short < length text.now }
        requires short { length text.now ≤ most_medium }
        ensures { IfOk result (λ t. t ≡ text.now) }
    {
        let mut bytes = [0u8; MOST_MEDIUM];
        let len = text.len();
        bytes[..len].copy_from_slice(text.as_bytes());
        let block = Block {
            len: len as u8,
            bytes,
        };
        let node = Node::Medium(Arc::new(alloc, block)?);
        Ok(Text { node, alloc })
    }

    // Kept out of line: long texts are rare, and inlining their allocation makes callers save more
    // registers.
    #[inline(never)]
    fn long(alloc: Global, text: String) -> Result<Text, AllocError>
        requires { most_short < length (string_bytes text) }
        ensures { IfOk result (λ t. t ≡ string_bytes text) }
    {
        let node = Node::Long(Arc::new(alloc, text)?);
        Ok(Text { node, alloc })
    }

    // Copies a text of at most 14 bytes, which takes no memory. Returns `None` for a longer one.
    //
    // A caller that puts the copy in its place at once, apart from that of a longer text, spares it
    // the way through memory that two kinds of copies share. In profiles by time, that way took three
    // fifths of the clone of a stream.
    #[inline(always)]
    pub(crate) fn copied_if_short(&self) -> Option<Text>
        ensures { SomeIff result (length self.now ≤ most_short) self.now }
    {
        match &self.node {
            Node::Short(len, kept) => Some(Text {
                node: Node::Short(*len, *kept),
                alloc: self.alloc,
            }),
            _ => None,
        }
    }

    /// Returns the text as a string slice.
    pub fn as_str(&self) -> &str
        ensures { result.now ≡ self.now }
    {
        match &self.node {
            Node::Short(len, bytes) => {
                let kept = &bytes[..*len as usize];
                // They came from a text, so nothing is tested again.
                unsafe { from_utf8_unchecked(kept) }
            }
            Node::Medium(block) => {
                let block: &Block = block;
                let front = &block.bytes[..block.len as usize];
                // As above.
                unsafe { from_utf8_unchecked(front) }
            }
            Node::Long(text) => text.as_str(),
        }
    }
}

/// Copies the text.
///
/// A copy of at most 14 bytes does not allocate. The copies of a longer text share one allocation,
/// unless the string inside has much unused capacity.
impl Clone for Text {
    ghost is_clone = { λ t u. u ≡ t };

    // Inlined: nearly all texts are short, and are copied as they lie.
    #[inline(always)]
    fn clone(&self) -> Result<Text, AllocError> {
        if let Some(short) = self.copied_if_short() {
            return Ok(short);
        }
        match &self.node {
            Node::Short(_, _) => unreachable!(),
            Node::Medium(block) => Ok(Text {
                node: Node::Medium(block.clone()?),
                alloc: self.alloc,
            }),
            // A string with much unused room is copied: a clone would keep that room in use.
            Node::Long(text) if text.capacity() / 2 > text.len() => {
                Text::from_str(self.alloc, text.as_str())
            }
            Node::Long(text) => Ok(Text {
                node: Node::Long(text.clone()?),
                alloc: self.alloc,
            }),
        }
    }
}

/// Writes the text without quotes.
impl Display for Text {
    ghost output = { λ t. Some t };

    fn fmt<W: Write>(&self, f: &mut Formatter<W>) -> fmt::Result {
        f.write_str(self.as_str())
    }
}

/// Writes the text in quotes.
impl Debug for Text {
    ghost debug_output = { λ t. debug_str t };

    fn fmt<W: Write>(&self, f: &mut Formatter<W>) -> fmt::Result {
        write!(f, "{:?}", self.as_str())
    }
}

impl PartialEq for Text {
    ghost eq = { pointwise nat_eq };

    ghost laws = { compared.partial_equiv_from_equiv nat_list_eq_equiv };

    fn eq(&self, other: &Text) -> bool {
        self.as_str() == other.as_str()
    }
}

impl Eq for Text {
    ghost laws = { nat_list_eq_equiv };
}

impl PartialOrd for Text {
    ghost partial_cmp = { λ x y. Some (slice_cmp nat_cmp x y) };

    ghost laws = { texts_po };

    fn partial_cmp(&self, other: &Text) -> Option<Ordering> {
        Some(self.cmp(other))
    }
}

impl Ord for Text {
    ghost cmp = { slice_cmp nat_cmp };

    ghost total = { nat_list_cmp_total };

    ghost matches_partial_cmp = { Prim.search rules };

    ghost matches_eq = { texts_ties };

    fn cmp(&self, other: &Text) -> Ordering {
        self.as_str().cmp(other.as_str())
    }
}

impl Hash for Text {
    ghost hash_input = { fed.str };

    ghost respects_eq = { Prim.search rules };

    fn hash<H: Hasher>(&self, state: &mut H) {
        self.as_str().hash(state);
    }
}
