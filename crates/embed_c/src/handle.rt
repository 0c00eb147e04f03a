// A store on the heap, as C holds it.
ghost use Rattle.std.specs.Prelude.{◌≡◌, true, false, Option, None, Some, IfNone, IfSome};
ghost use Rattle.std.specs.Option.{is_some};
ghost use Rattle.embed_c.specs.Owned.{owned_at};
ghost use Rattle.embed_c.specs.declared.session.Session.{Session};

use crate::session::Session;
use loose_box::Loose;
use std::alloc::Global;
use std::marker::Model;
use std::mem;

/// The pointer of a box with a session, which C keeps.
#[repr(C)]
#[derive(Drop)]
pub struct Handle {
    at: *mut u8,
    ghost session: { Option Session },
}

impl Model for Handle {
    ghost also_owns = { λ h. owned_at h.session h.at };
}

impl Handle {
    fn empty() -> Handle
        ensures { result.session ≡ None }
    {
        Handle {
            at: std::ptr::null_mut(),
        }
    }

    fn of(loose: Loose<Session, Global>) -> Handle
        ensures { result.session ≡ Some loose.value }
    {
        let Loose { at, alloc } = loose;
        Handle { at: at as *mut u8 }
    }

    fn into_loose(self, alloc: Global) -> Loose<Session, Global>
        requires { is_some self.session ≡ true }
        ensures { self.session ≡ Some result.value }
    {
        let Handle { at } = self;
        Loose {
            at: at as *mut Session,
            alloc,
        }
    }
}

/// What C holds of a store.
#[repr(C)]
#[derive(Drop)]
pub struct Redo {
    opened: bool,
    inside: Handle,
    ghost same: { is_some inside.session ≡ opened },
}

impl Redo {
    fn closed() -> Redo
        ensures { result.inside.session ≡ None }
    {
        Redo {
            opened: false,
            inside: Handle::empty(),
        }
    }

    /// Whether a session is behind it.
    pub fn is_open(&self) -> bool
        ensures { is_some self.now.inside.session ≡ result }
    {
        self.opened
    }

    /// Takes the session from behind it, and leaves it closed.
    pub fn take(&mut self, alloc: Global) -> Option<Box<Session>>
        ensures none { IfNone result (self.old.inside.session ≡ None) }
        ensures some { IfSome result (λ session. self.old.inside.session ≡ Some session.value) }
        ensures left { self.new.inside.session ≡ None }
    {
        if !self.opened {
            return None;
        }
        let Redo { opened: _, inside } = mem::replace(self, Redo::closed());
        Some(inside.into_loose(alloc).into_box())
    }

    /// Puts a session behind it.
    pub fn put_back(&mut self, session: Box<Session>)
        ensures { self.new.inside.session ≡ Some session.value }
    {
        *self = Redo {
            opened: true,
            inside: Handle::of(Loose::of(session)),
        };
    }
}
