//! Errors for inputs of the program that have no report.
ghost use Rattle.std.specs.Prelude.{◌≡◌, Some};
ghost use Rattle.replay_program.specs.Faults.{fault_of, right_fault_of, unreadable_text};

use std::alloc::{AllocError, AllocFailed};
use std::fmt;
use std::fmt::{Formatter, Write};
use tok_core::{LexError, LexFault};

/// The reason why an input is not a text with commands.
#[derive(Clone, Copy)]
pub enum Unreadable {
    /// The input is not UTF-8.
    Utf8,
    /// No line of the input is `---`, or more than two lines are `---`.
    Parts,
    /// The lexer rejects the first text with this error.
    Text(LexError),
    /// The lexer rejects the second text with this error.
    Right(LexError),
    /// A line is not a command. The field is the number of the first such line, counted from 1.
    Command(usize),
}

impl fmt::Display for Unreadable {
    ghost output = { λ why. Some (unreadable_text why) };

    fn fmt<W: Write>(&self, f: &mut Formatter<W>) -> fmt::Result {
        match self {
            Unreadable::Utf8 => f.write_str("unreadable: utf8"),
            Unreadable::Parts => f.write_str("unreadable: parts"),
            Unreadable::Text(error) => {
                write!(f, "unreadable: L{} at {}", error.number(), error.at())
            }
            Unreadable::Right(error) => {
                write!(f, "unreadable: right L{} at {}", error.number(), error.at())
            }
            Unreadable::Command(number) => write!(f, "unreadable: command {number}"),
        }
    }
}

/// The reason why the program has no report for an input.
#[derive(Clone, Copy)]
pub enum Fault {
    /// The input is not a text with commands, for this reason.
    Unreadable(Unreadable),
    /// An allocation failed.
    Memory,
}

impl Fault {
    /// Converts the error of lexing the second text to a `Fault`.
    pub fn of_right(fault: LexFault) -> Fault
        ensures { result ≡ right_fault_of fault }
    {
        match fault {
            LexFault::Refused(error) => Fault::Unreadable(Unreadable::Right(error)),
            LexFault::Memory => Fault::Memory,
        }
    }
}

impl From<LexFault> for Fault {
    ghost from_gives = { λ fault result. result ≡ fault_of fault };

    fn from(fault: LexFault) -> Fault {
        match fault {
            LexFault::Refused(error) => Fault::Unreadable(Unreadable::Text(error)),
            LexFault::Memory => Fault::Memory,
        }
    }
}

impl From<AllocError> for Fault {
    ghost use Rattle.replay_program.specs.declared.fault.Fault.TheVariants.{Memory};

    ghost from_gives = { λ _ fault. fault ≡ Memory };

    fn from(_: AllocError) -> Fault {
        Fault::Memory
    }
}

impl<T: Drop> From<AllocFailed<T>> for Fault {
    ghost use Rattle.replay_program.specs.declared.fault.Fault.TheVariants.{Memory};

    ghost from_gives = { λ _ fault. fault ≡ Memory };

    fn from(_: AllocFailed<T>) -> Fault {
        Fault::Memory
    }
}
