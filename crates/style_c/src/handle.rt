//! What C holds of a session: a pointer that it cannot look behind.

ghost use Rattle.std.specs.Prelude.{◌≡◌, None, Option, Some, option_map};
ghost use Rattle.session_model.specs.Standing.{Standing};
ghost use Rattle.style_c.specs.Handle.{session_code};
ghost use Rattle.style_c.specs.Boxes.{box_value, loose_value};

use crate::loose::Loose;
use std::alloc::Global;
use std::marker::Model;
use std::ptr::null_mut;
use style_session::Session;

/// What C sees behind the pointer: nothing.
#[repr(C)]
pub struct Opaque {
    _hidden: u8,
}

/// A session of C's, or none where the pointer is null. C sets it to null before the first call.
#[repr(C)]
pub struct Handle {
    at: *mut Opaque,
    pub ghost session: { Option Standing } by { session_code },
}

impl Model for Handle {
    ghost use Rattle.style_c.specs.Handle.{held};

    ghost also_owns = { λ h. held h.at h.session };
}

unsafe impl Send for Handle {}

/// A value of this type may go to another thread.
fn may_be_handed<T: Send>() {}

/// Asks it of a handle. Nothing calls this: that the crate is proved says that a handle may.
fn handles_may_be_handed() {
    may_be_handed::<Handle>();
}

impl Handle {
    fn none() -> Handle
        ensures { result.session ≡ None }
    {
        Handle { at: null_mut() }
    }

    fn of_loose(loose: Loose<Session, Global>) -> Handle
        ensures { result.session ≡ Some loose.value }
    {
        let Loose { at, alloc: _ } = loose;
        Handle {
            at: at as *mut Opaque,
        }
    }

    fn into_loose(self, alloc: Global) -> Option<Loose<Session, Global>>
        ensures { option_map loose_value result ≡ self.session }
    {
        let Handle { at } = self;
        if at.is_null() {
            None
        } else {
            Some(Loose {
                at: at as *mut Session,
                alloc,
            })
        }
    }

    fn of(session: Box<Session>) -> Handle
        ensures { result.session ≡ Some session.value }
    {
        Handle::of_loose(Loose::of(session))
    }

    fn into_box(self, alloc: Global) -> Option<Box<Session>>
        ensures { option_map box_value result ≡ self.session }
    {
        match self.into_loose(alloc) {
            Some(loose) => Some(loose.into_box()),
            None => None,
        }
    }
}

/// Puts a session into the handle. What it held before is closed.
pub(crate) fn put(alloc: Global, handle: &mut Handle, session: Box<Session>)
    ensures { handle.new.session ≡ Some session.value }
{
    let before = std::mem::replace(handle, Handle::of(session));
    drop(before.into_box(alloc));
}

/// Takes the session out of the handle, which then holds none.
pub(crate) fn take(alloc: Global, handle: &mut Handle) -> Option<Box<Session>>
    ensures taken { option_map box_value result ≡ handle.old.session }
    ensures empty { handle.new.session ≡ None }
{
    std::mem::replace(handle, Handle::none()).into_box(alloc)
}
