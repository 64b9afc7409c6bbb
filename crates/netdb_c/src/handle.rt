//! `Handle`: what a caller in C holds.
ghost use Rattle.std.specs.Prelude.{◌≡◌, Option, None, Some, option_map};
ghost use Rattle.netdb_calls.specs.declared.opened.Opened.{Opened};
ghost use Rattle.netdb_c.specs.Held.{held_coded};

use crate::unboxed::Unboxed;
use netdb_calls::Opened;
use std::alloc::Global;
use std::marker::Model;
use std::ptr::null_mut;

/// A handle. It owns what was opened, or nothing. All zero bytes are a handle that owns nothing.
#[repr(C)]
pub struct Handle {
    is_open: bool,
    at: *mut u8,
    pub ghost held: { Option Opened } by { held_coded },
}

impl Model for Handle {
    ghost use Rattle.netdb_c.specs.Owned.{owned};

    ghost also_owns = { λ h. owned h.is_open h.at h.held };
}

impl Handle {
    /// The handle that owns this box.
    fn of(opened: Unboxed<Opened, Global>) -> Handle
        ensures { result.held ≡ Some opened.value }
    {
        let Unboxed { at, alloc: _ } = opened;
        Handle {
            is_open: true,
            at: at as *mut u8,
        }
    }

    /// The handle that owns nothing.
    pub fn nothing() -> Handle
        ensures { result.held ≡ None }
    {
        Handle {
            is_open: false,
            at: null_mut(),
        }
    }

    /// What the handle owns.
    fn into_unboxed(self, alloc: Global) -> Option<Unboxed<Opened, Global>>
        ensures { option_map (λ u. u.value) result ≡ self.held }
    {
        let Handle { is_open, at } = self;
        if is_open {
            Some(Unboxed {
                at: at as *mut Opened,
                alloc,
            })
        } else {
            None
        }
    }

    /// The handle that owns what was opened.
    pub fn over(opened: Box<Opened>) -> Handle
        ensures { result.held ≡ Some opened.value }
    {
        Handle::of(Unboxed::of(opened))
    }

    /// What the handle owns.
    pub fn into_box(self, alloc: Global) -> Option<Box<Opened>>
        ensures { option_map (λ b. b.value) result ≡ self.held }
    {
        match self.into_unboxed(alloc) {
            Some(unboxed) => Some(unboxed.into_box()),
            None => None,
        }
    }
}
