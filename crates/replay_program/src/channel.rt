//! Traits for the readers and writers of the program.
//!
//! The contracts of `std` say how a read or a write changes the known bytes of a reader or a
//! writer, but not which result the call returns. The traits in this module therefore declare a
//! relation between the reader or writer, the result of a call, and the bytes that the call moved.
//!
//! With these relations, the contract of `serve` states that the sink receives the output for the
//! bytes of the source. It also states that a call failed if the status is 2 and the output is
//! incomplete.
ghost use Rattle.std.specs.Prelude.{List, ℕ, Option, Result};
ghost use Rattle.std.specs.Io.{ReadsAtMost, WritesAtMost};
ghost use Rattle.std.specs.Io.KnownBytes.{Keeps, ReadConsumes, WriteAppends};
ghost use Rattle.std.specs.declared.io.Error.{Error};
ghost use Rattle.replay_program.specs.Failures.{bytes_moved};

use std::io;
use std::io::{Read, Write};

/// A source of bytes. Every type that implements `Read` also implements this trait.
pub trait Source {
    // The bytes that are left, if they are known.
    ghost remaining: { Self → Option (List ℕ) };

    // Relates a source before a read, the read's result, the bytes that it gave, and the source
    // after it.
    ghost reads: { Self → Result ℕ Error → List ℕ → Self → Type 0 };

    /// Reads some bytes into `chunk`, and returns how many, in the same way as `Read::read`.
    fn read_some(&mut self, chunk: &mut [u8]) -> io::Result<usize>
        ensures bound { ReadsAtMost result chunk.new }
        ensures bytes { ReadConsumes (remaining self.old) (remaining self.new) result chunk.new }
        ensures call { reads self.old result (bytes_moved result chunk.new) self.new };
}

impl<R: Read> Source for R {
    ghost remaining = { R.remaining };

    ghost reads = { λ _ _ _ _. Unit {0} };

    fn read_some(&mut self, chunk: &mut [u8]) -> io::Result<usize> {
        self.read(chunk)
    }
}

/// A sink for bytes. Every type that implements `Write` also implements this trait.
pub trait Sink {
    // The bytes that were written, if they are known.
    ghost contents: { Self → Option (List ℕ) };

    // Relates a sink before a write, the write's result, the bytes that it took, and the sink after
    // it.
    ghost writes: { Self → Result ℕ Error → List ℕ → Self → Type 0 };

    // Relates a sink before a flush, the flush's result, and the sink after it.
    ghost flushes: { Self → Result (Unit {0}) Error → Self → Type 0 };

    /// Writes some of the bytes in `bytes`, and returns how many, in the same way as
    /// `Write::write`.
    fn write_some(&mut self, bytes: &[u8]) -> io::Result<usize>
        ensures bound { WritesAtMost result bytes.now }
        ensures bytes { WriteAppends (contents self.old) (contents self.new) result bytes.now }
        ensures call { writes self.old result (bytes_moved result bytes.now) self.new };

    /// Flushes the sink, in the same way as `Write::flush`.
    fn flush_all(&mut self) -> io::Result<()>
        ensures bytes { Keeps (contents self.old) (contents self.new) }
        ensures call { flushes self.old result self.new };
}

impl<W: Write> Sink for W {
    ghost contents = { W.contents };

    ghost writes = { λ _ _ _ _. Unit {0} };

    ghost flushes = { λ _ _ _. Unit {0} };

    fn write_some(&mut self, bytes: &[u8]) -> io::Result<usize> {
        self.write(bytes)
    }

    fn flush_all(&mut self) -> io::Result<()> {
        self.flush()
    }
}
