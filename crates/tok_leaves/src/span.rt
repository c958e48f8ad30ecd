//! The locations of tokens in sources.
ghost use Rattle.std.specs.Prelude.{◌≡◌, ◌≤◌};
ghost use Rattle.tok_leaves.specs.Spans as spec;

use tok_lexical::Delimiter;

#[derive(Clone, Copy, PartialEq, Eq, Debug)]
enum Origin {
    CallSite,
    // The number of a source, and a range of bytes in it.
    Source(u32, usize, usize),
}

/// The location of a token: a range of bytes in a numbered source, or the call site.
///
/// If a token was not read from a source, its span is the call site.
///
/// # Examples
///
/// ```rust
/// let span = Span::source(0, 2, 5);
/// assert_eq!(rt; span.as_range(), Some((0, 2, 5)));
/// let later = Span::source(0, 7, 9);
/// assert_eq!(rt; span.join(later), Some(Span::source(0, 2, 9)));
/// assert_eq!(rt; Span::call_site().as_range(), None);
/// ```
#[derive(Clone, Copy, PartialEq, Eq, Debug)]
pub struct Span {
    origin: Origin,
}

/// The delimiter and the span of a group, packed into one value.
///
/// A `Bounds` has 24 bytes, like a `Span` alone.
#[derive(Clone, Copy)]
pub enum Bounds {
    CallSite(Delimiter),
    Source(Delimiter, u32, usize, usize),
}

/// The span of a group.
///
/// The methods `open` and `close` compute the spans of the two delimiters from the span of the
/// whole group.
#[derive(Clone, Copy, PartialEq, Eq, Debug)]
pub struct DelimSpan {
    join: Span,
}

impl Span {
    /// Returns the call site, which is the span of tokens that were not read from a source.
    pub fn call_site() -> Span
        ensures { result ≡ spec.call_site }
    {
        Span {
            origin: Origin::CallSite,
        }
    }

    /// Creates a span that consists of the bytes `start..end` of source `number`.
    ///
    /// # Requires
    ///
    /// `start` must be at most `end`.
    pub fn source(number: u32, start: usize, end: usize) -> Span
        requires { start ≤ end }
        ensures { result ≡ spec.source number start end }
    {
        Span {
            origin: Origin::Source(number, start, end),
        }
    }

    /// Returns the number of the source, and the start and the end of the byte range.
    ///
    /// Returns `None` for the call site.
    pub fn as_range(&self) -> Option<(u32, usize, usize)>
        ensures { result ≡ spec.range self.now }
    {
        match self.origin {
            Origin::CallSite => None,
            Origin::Source(number, start, end) => Some((number, start, end)),
        }
    }

    /// Returns the smallest span that covers `self` and `other`.
    ///
    /// Returns `None` if `self` and `other` are not in the same source.
    pub fn join(self, other: Span) -> Option<Span>
        ensures { result ≡ spec.join self other }
    {
        match (self.origin, other.origin) {
            (Origin::Source(left, a, b), Origin::Source(right, c, d)) => {
                if left == right {
                    Some(Span {
                        origin: Origin::Source(left, a.min(c), b.max(d)),
                    })
                } else {
                    None
                }
            }
            _ => None,
        }
    }
}

impl Bounds {
    /// Packs a delimiter and a span into one value.
    pub fn new(delimiter: Delimiter, span: Span) -> Bounds
        ensures delimiter { spec.bounds_delimiter result ≡ delimiter }
        ensures span { spec.bounds_span result ≡ span }
    {
        match span.origin {
            Origin::CallSite => Bounds::CallSite(delimiter),
            Origin::Source(number, start, end) => Bounds::Source(delimiter, number, start, end),
        }
    }

    /// Returns the delimiter of the group.
    pub fn delimiter(self) -> Delimiter
        ensures { result ≡ spec.bounds_delimiter self }
    {
        match self {
            Bounds::CallSite(delimiter) => delimiter,
            Bounds::Source(delimiter, ..) => delimiter,
        }
    }

    /// Returns the span of the group.
    pub fn span(self) -> Span
        ensures { result ≡ spec.bounds_span self }
    {
        let origin = match self {
            Bounds::CallSite(_) => Origin::CallSite,
            Bounds::Source(_, number, start, end) => Origin::Source(number, start, end),
        };
        Span { origin }
    }
}

impl DelimSpan {
    /// Creates a `DelimSpan` for a group. `span` is the span of the whole group, including its
    /// delimiters.
    pub fn new(span: Span) -> DelimSpan
        ensures { spec.whole_span result ≡ span }
    {
        DelimSpan { join: span }
    }

    /// Returns the span of the whole group, including its delimiters.
    pub fn join(self) -> Span
        ensures { result ≡ spec.whole_span self }
    {
        self.join
    }

    /// Returns the span of the opening delimiter, which is the first byte of the group.
    ///
    /// Returns the span of the whole group if that span is an empty range or the call site.
    pub fn open(self) -> Span
        ensures { result ≡ spec.opening_span (spec.whole_span self) }
    {
        match self.join.origin {
            Origin::Source(number, start, end) if start < end => Span {
                origin: Origin::Source(number, start, start + 1),
            },
            _ => self.join,
        }
    }

    /// Returns the span of the closing delimiter, which is the last byte of the group.
    ///
    /// Returns the span of the whole group if that span is an empty range or the call site.
    pub fn close(self) -> Span
        ensures { result ≡ spec.closing_span (spec.whole_span self) }
    {
        match self.join.origin {
            Origin::Source(number, start, end) if start < end => Span {
                origin: Origin::Source(number, end - 1, end),
            },
            _ => self.join,
        }
    }
}
