// The files of a backup on the heap, as C holds them.
ghost use Rattle.std.specs.Prelude.{◌≡◌, true, false, Option, None, Some, IfNone, IfSome};
ghost use Rattle.std.specs.Option.{is_some};
ghost use Rattle.embed_c.specs.OwnedTarget.{owned_at};
ghost use Rattle.embed_c.specs.declared.target.Target.{Target};

use crate::target::Target;
use loose_box::Loose;
use std::alloc::Global;
use std::marker::Model;
use std::mem;

/// The pointer of a box with the files of a backup, which C keeps.
#[repr(C)]
#[derive(Drop)]
pub struct TargetHandle {
    at: *mut u8,
    ghost target: { Option Target },
}

impl Model for TargetHandle {
    ghost also_owns = { λ h. owned_at h.target h.at };
}

impl TargetHandle {
    fn empty() -> TargetHandle
        ensures { result.target ≡ None }
    {
        TargetHandle {
            at: std::ptr::null_mut(),
        }
    }

    fn of(loose: Loose<Target, Global>) -> TargetHandle
        ensures { result.target ≡ Some loose.value }
    {
        let Loose { at, alloc } = loose;
        TargetHandle { at: at as *mut u8 }
    }

    fn into_loose(self, alloc: Global) -> Loose<Target, Global>
        requires { is_some self.target ≡ true }
        ensures { self.target ≡ Some result.value }
    {
        let TargetHandle { at } = self;
        Loose {
            at: at as *mut Target,
            alloc,
        }
    }
}

/// What C holds of the files of a backup.
#[repr(C)]
#[derive(Drop)]
pub struct RedoTarget {
    opened: bool,
    inside: TargetHandle,
    ghost same: { is_some inside.target ≡ opened },
}

impl RedoTarget {
    fn closed() -> RedoTarget
        ensures { result.inside.target ≡ None }
    {
        RedoTarget {
            opened: false,
            inside: TargetHandle::empty(),
        }
    }

    /// Whether a target is behind it.
    pub fn is_open(&self) -> bool
        ensures { is_some self.now.inside.target ≡ result }
    {
        self.opened
    }

    /// Takes the target from behind it, and leaves it closed.
    pub fn take(&mut self, alloc: Global) -> Option<Box<Target>>
        ensures none { IfNone result (self.old.inside.target ≡ None) }
        ensures some { IfSome result (λ target. self.old.inside.target ≡ Some target.value) }
        ensures left { self.new.inside.target ≡ None }
    {
        if !self.opened {
            return None;
        }
        let RedoTarget { opened: _, inside } = mem::replace(self, RedoTarget::closed());
        Some(inside.into_loose(alloc).into_box())
    }

    /// Puts a target behind it.
    pub fn put_back(&mut self, target: Box<Target>)
        ensures { self.new.inside.target ≡ Some target.value }
    {
        *self = RedoTarget {
            opened: true,
            inside: TargetHandle::of(Loose::of(target)),
        };
    }
}
