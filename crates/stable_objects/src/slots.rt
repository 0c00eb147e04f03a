ghost use Rattle.std.specs.Prelude.{◌≡◌, ◌<◌, ◌≤◌, ◌+◌, ◌*◌, ◌&&◌, ℕ, IfSome, IfNone, nat_lt, nat_le, position};
ghost use Rattle.formats.specs.Objects.{bounds_of};
ghost use Rattle.stable_objects.specs.Layouts.{IsLayout};
ghost use Rattle.stable_objects.specs.SlotsView.{lsn_in, holder_in, layout_of, length_in, place_of, IsLate};

use crate::layout::gate_place;
use formats::{Layout, Params};
use oper_core::Bounds;
use std::marker::Model;

/// The slots of a store whose objects file is whole.
///
/// Each object has two. The open one with the greater LSN holds its value; with none open the object is empty and
/// has the LSN 0.
#[derive(Drop)]
pub struct Slots {
    pub(crate) params: Params,
    /// The place of the first slot.
    pub(crate) first: u64,
    /// The LSN in each slot, two for each object, 0 where the slot is closed.
    pub(crate) heads: Vec<u64>,
    /// How long the value of each object is.
    pub(crate) lengths: Vec<u32>,
}

impl Model for Slots {
    ghost use Rattle.stable_objects.specs.SlotsView.{SlotsView, AreHeads};

    ghost Value = { SlotsView };

    ghost view = { λ s. record { params = s.params; first = s.first; heads = s.heads.items; lengths = s.lengths.items } };

    ghost invariant = { λ s. AreHeads (record { params = s.params; first = s.first }) s.heads.items s.lengths.items };
}

// Which of these LSNs is the first that is not 0, and is `next` or more.
fn first_late(heads: &[u64], next: u64) -> Option<usize>
    ensures { result ≡ position (λ lsn. nat_lt 0 lsn && nat_le next lsn) heads.now }
{
    heads.iter().position(|lsn| *lsn > 0 && *lsn >= next)
}

impl Slots {
    /// The numbers of the store.
    pub fn params(&self) -> Params
        ensures { result ≡ self.now.params }
    {
        self.params
    }

    /// Where the slots stand.
    pub(crate) fn layout(&self) -> Layout
        ensures is { result ≡ layout_of self.now }
        ensures known { IsLayout result }
    {
        Layout {
            params: self.params,
            first: self.first,
        }
    }

    /// How many objects the store has, how many bytes each may hold, and which operations it admits.
    pub fn bounds(&self) -> Bounds
        ensures { result ≡ bounds_of self.now.params }
    {
        Bounds {
            objects: self.params.objects,
            cap: self.params.cap,
            more: self.params.more,
        }
    }

    /// The LSN of an object: that of the record whose value its slot holds, 0 where none is open.
    pub fn lsn(&self, object: u32) -> u64
        requires { object < self.now.params.objects }
        ensures { result ≡ lsn_in self.now object }
    {
        self.heads[self.holder(object)]
    }

    /// How many bytes the value of an object has, 0 where no slot is open.
    pub fn length(&self, object: u32) -> u32
        requires { object < self.now.params.objects }
        ensures { result ≡ length_in self.now object }
    {
        self.lengths[object as usize]
    }

    /// Which of all slots holds an object: of its two the one with the greater LSN, the first where both are
    /// closed.
    pub(crate) fn holder(&self, object: u32) -> usize
        requires { object < self.now.params.objects }
        ensures { result ≡ 2 * object + holder_in self.now object }
    {
        let first = 2 * object as usize;
        if self.heads[first] < self.heads[first + 1] {
            first + 1
        } else {
            first
        }
    }

    /// The place of the first LSN, in the order of the file, of an open slot that is `next` or more; none exactly
    /// where there is none.
    pub fn first_at(&self, next: u64) -> Option<u64>
        ensures some { IfSome result (λ place. (x : ℕ) × (s : ℕ) × IsLate self.now next x s × (place ≡ place_of self.now x s + 1)
            × ((y t : ℕ) → IsLate self.now next y t → 2 * x + s ≤ 2 * y + t)) }
        ensures none { IfNone result ((x s : ℕ) → IsLate self.now next x s → ⊥) }
    {
        let slot = first_late(&self.heads, next)?;
        Some(gate_place(self.layout(), slot as u32) + 1)
    }
}
