//! A handle that C keeps.

ghost use Rattle.std.specs.Prelude.{◌≡◌, IfErr, IsOk, Option, Some, None, IsSome, option_map};
ghost use Rattle.fast_kept.specs.declared.kept.Kept.{Kept as KeptOf};
ghost use Rattle.fast_kept.specs.Keeping.{flag, kept_coded, kept_owns};

use crate::kept::Kept;
use crate::parts::Parts;
use std::alloc::{AllocError, Global};
use std::marker::{Model, Send};
use std::mem;

/// What C has of something that is kept: where it lies, and whether there is something.
///
/// A struct of zeros is one that has nothing.
#[repr(C)]
pub struct Handle {
    at: *mut u8,
    there: u32,
    alloc: Global,
    pub ghost value: { Option KeptOf } by { kept_coded },
}

impl Model for Handle {
    ghost also_owns = { λ h. kept_owns h.alloc h.at h.there h.value };
}

// It may go to another thread, since what is behind it may.
unsafe impl Send for Handle {}

impl Handle {
    /// Puts something behind the handle, in place of what it has.
    ///
    /// # Errors
    ///
    /// Where memory is refused.
    pub fn keep(&mut self, alloc: Global, kept: Kept) -> Result<(), AllocError>
        ensures ok { IsOk result → self.new.value ≡ Some kept }
        ensures refused { IfErr result (λ _. self.new.value ≡ self.old.value) }
    {
        let kept = Box::new(alloc, kept)?;
        self.put(alloc, Some(kept));
        Ok(())
    }

    /// Takes out what is behind the handle.
    pub fn take(&mut self, alloc: Global) -> Option<Box<Kept>>
        ensures taken { option_map (λ b. b.value) result ≡ self.old.value }
        ensures empty { self.new.value ≡ None }
    {
        mem::replace(self, Handle::none(alloc)).into_box()
    }

    /// Puts this behind the handle, in place of what it has, which is let go.
    pub fn put(&mut self, alloc: Global, kept: Option<Box<Kept>>)
        ensures { self.new.value ≡ option_map (λ b. b.value) kept }
    {
        let next = match kept {
            Some(kept) => Handle::of(kept),
            None => Handle::none(alloc),
        };
        mem::replace(self, next).end();
    }

    /// The handle of a box.
    fn of(kept: Box<Kept>) -> Handle
        ensures { result.value ≡ Some kept.value }
    {
        Handle::of_parts(Parts::of(kept))
    }

    fn of_parts(parts: Parts<Kept, Global>) -> Handle
        ensures { result.value ≡ Some parts.value }
    {
        let Parts { ptr, alloc } = parts;
        Handle {
            at: ptr.cast::<u8>(),
            there: 1,
            alloc,
        }
    }

    /// A handle that has nothing.
    fn none(alloc: Global) -> Handle
        ensures { result.value ≡ None }
    {
        Handle {
            at: std::ptr::null_mut(),
            there: 0,
            alloc,
        }
    }

    /// Lets go of what is behind the handle.
    fn end(self) {
        match self.into_box() {
            None => {}
            Some(kept) => drop(kept),
        }
    }

    /// The box that is behind the handle.
    fn into_box(self) -> Option<Box<Kept>>
        ensures { option_map (λ b. b.value) result ≡ self.value }
    {
        let (there, whole) = self.split();
        if there == 0 {
            whole.forget();
            None
        } else {
            Some(whole.into_parts().into_box())
        }
    }

    /// Lets go of a handle that has nothing.
    fn forget(self) {
        let Handle {
            at: _,
            there: _,
            alloc: _,
        } = self;
    }

    /// Whether the handle has something, and the same handle again.
    fn split(self) -> (u32, Handle)
        ensures there { result.0 ≡ flag self.value }
        ensures same { result.1.value ≡ self.value }
    {
        let Handle { at, there, alloc } = self;
        (there, Handle { at, there, alloc })
    }

    /// The box that is behind the handle, taken apart.
    fn into_parts(self) -> Parts<Kept, Global>
        requires { IsSome self.value }
        ensures { Some result.value ≡ self.value }
    {
        let Handle {
            at,
            there: _,
            alloc,
        } = self;
        Parts {
            ptr: at.cast::<Kept>(),
            alloc,
        }
    }
}
