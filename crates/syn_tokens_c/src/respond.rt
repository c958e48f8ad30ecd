//! A function that runs the program over an input in memory.
ghost use Rattle.syn_tokens_c.specs.Outcomes.{Responds};

use replay_program::respond;
use std::alloc::{AllocError, Global};

/// Runs the program over `input`, and returns the program's exit status.
///
/// `input` contains one or two texts and a list of commands. The call sets `size` to the number of
/// bytes that the program prints.
///
/// If these bytes fit into `printed`, the call writes them to the start of `printed`. Otherwise,
/// the call writes nothing to `printed`, and the caller can repeat the call with a longer slice.
///
/// If an allocation fails, the status is 3 and `size` is 0.
#[unsafe(no_mangle)]
pub extern "C" fn syn_tokens_respond(
    alloc: Global,
    input: &[u8],
    printed: &mut [u8],
    size: &mut usize,
) -> u8
    ensures { Responds input.now result size.new printed.old printed.new }
{
    match respond(alloc, input) {
        Ok((text, status)) => {
            let bytes = text.as_bytes();
            *size = bytes.len();
            if bytes.len() <= printed.len() {
                printed[..bytes.len()].copy_from_slice(bytes);
            }
            status
        }
        Err(AllocError) => {
            *size = 0;
            3
        }
    }
}
