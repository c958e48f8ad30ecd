//! How calls that allocate end. What a call returns, and what it leaves if an allocation fails, its
//! contract says.
use std::alloc::{AllocError, Global};
use std::process::ExitCode;
use std::result::Result;
use syn_parse::Fault;

/// `Ok` if every allocation succeeded and all is right, or why the calls stop.
pub type Outcome = Result<(), Stop>;

/// An allocation failed; or something is wrong after this call.
#[derive(Clone, Copy)]
pub enum Stop {
    Refused,
    Wrong(&'static str),
}

impl From<AllocError> for Stop {
    fn from(_: AllocError) -> Self {
        Stop::Refused
    }
}

/// Returns how a call ends that succeeds unless an allocation fails.
pub fn ended<T: Drop, E: Drop>(returned: Result<T, E>) -> Outcome {
    match returned {
        Ok(_) => Ok(()),
        Err(_) => Err(Stop::Refused),
    }
}

/// Returns the value of such a call.
pub fn made<T: Drop, E: Drop>(returned: Result<T, E>) -> Result<T, Stop> {
    match returned {
        Ok(value) => Ok(value),
        Err(_) => Err(Stop::Refused),
    }
}

/// Returns how a parser ends that rejects its input.
pub fn rejected<T: Drop>(returned: syn_parse::Result<T>, call: &'static str) -> Outcome {
    match returned {
        Ok(_) => Err(Stop::Wrong(call)),
        Err(fault) => told(fault),
    }
}

/// Returns how a call ends that makes an error.
pub fn told(fault: Fault) -> Outcome {
    match fault {
        Fault::Memory(_) => Err(Stop::Refused),
        Fault::Refused(_) => Ok(()),
    }
}

/// Stops if something is wrong after this call.
pub fn expect(is_right: bool, call: &'static str) -> Outcome {
    if is_right {
        Ok(())
    } else {
        Err(Stop::Wrong(call))
    }
}

/// Returns a wrong outcome if there is one, or else a failed allocation, or else `Ok`.
pub fn worst(outcomes: &[Outcome]) -> Outcome {
    let mut worst = Ok(());
    for outcome in outcomes {
        match outcome {
            Ok(()) => {}
            Err(Stop::Refused) => worst = Err(Stop::Refused),
            Err(Stop::Wrong(call)) => return Err(Stop::Wrong(*call)),
        }
    }
    worst
}

/// Makes this many allocations.
pub fn spend(alloc: Global, count: usize) -> Result<(), AllocError> {
    for _ in 0..count {
        let _spent = Vec::<u8>::with_capacity(alloc, 1)?;
    }
    Ok(())
}

/// Returns the exit status of an outcome, and the call that is wrong.
pub fn status(outcome: Outcome) -> (ExitCode, &'static str) {
    match outcome {
        Ok(()) => (ExitCode::SUCCESS, ""),
        Err(Stop::Refused) => (ExitCode::from(3), ""),
        Err(Stop::Wrong(call)) => (ExitCode::FAILURE, call),
    }
}
