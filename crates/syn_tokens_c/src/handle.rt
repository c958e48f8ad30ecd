//! Handles to memory that the library keeps for a caller.
ghost use Rattle.std.specs.Prelude.{◌≡◌, Option, None, Some, MatchOption};
ghost use Rattle.syn_tokens_c.specs.declared.kept.Kept.{Kept as Held};
ghost use Rattle.syn_tokens_c.specs.Handed.{coded_held, holds};

use crate::kept::Kept;
use crate::loose::Loose;
use std::alloc::Global;
use std::marker::Model;
use std::mem::replace;
use std::ptr::null_mut;

/// A handle to memory that the library keeps for a caller.
///
/// A handle that holds no memory is null.
#[repr(C)]
pub struct Handle {
    at: *mut u8,
    pub ghost value: { Option Held } by { coded_held },
}

impl Model for Handle {
    ghost also_owns = { λ h. holds h.at h.value };
}

impl Handle {
    // Makes a handle of nothing.
    fn none() -> Handle
        ensures { result.value ≡ None }
    {
        Handle { at: null_mut() }
    }

    // Hands a box out.
    fn of(loose: Loose<Kept, Global>) -> Handle
        ensures { result.value ≡ Some loose.value }
    {
        let Loose { at, alloc: _ } = loose;
        Handle { at: at as *mut u8 }
    }

    // Takes a box back.
    fn into_loose(self, alloc: Global) -> Option<Loose<Kept, Global>>
        ensures { MatchOption result (self.value ≡ None) (λ loose. self.value ≡ Some loose.value) }
    {
        let Handle { at } = self;
        if at.is_null() {
            None
        } else {
            let at = at as *mut Kept;
            Some(Loose { at, alloc })
        }
    }

    // Holds this in place of what it held, which is freed.
    pub(crate) fn put(&mut self, alloc: Global, kept: Box<Kept>)
        ensures { self.new.value ≡ Some kept.value }
    {
        let old = replace(self, Handle::of(Loose::of(kept)));
        if let Some(loose) = old.into_loose(alloc) {
            drop(loose.into_box());
        }
    }

    // Frees what it holds, and holds nothing.
    pub(crate) fn clear(&mut self, alloc: Global)
        ensures { self.new.value ≡ None }
    {
        let old = replace(self, Handle::none());
        if let Some(loose) = old.into_loose(alloc) {
            drop(loose.into_box());
        }
    }
}

/// Frees the memory that `handle` holds.
///
/// After the call, `handle` holds no memory, and may be closed again.
#[unsafe(no_mangle)]
pub extern "C" fn syn_tokens_close(alloc: Global, handle: &mut Handle)
    ensures { handle.new.value ≡ None }
{
    handle.clear(alloc);
}

// The box is reached through the handle alone.
unsafe impl Send for Handle {}
