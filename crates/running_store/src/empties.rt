// The objects whose values are empty.
ghost use Rattle.std.specs.Prelude.{◌≡◌, ◌==◌, ◌<◌, length, slice_set, IfOk};
ghost use Rattle.stable_objects.specs.SlotsView.{length_in};
ghost use Rattle.running_store.specs.Laid.Lengths.{AreEmpties, IsNextEmpty, length_at};

use crate::objects::Objects;
use crate::store::Store;
use number_lists::NumberTree;
use oper_core::{Memory, Oper};
use stable_objects::Slots;
use std::alloc::Global;

/// The objects whose slots say that their values are empty.
pub fn empty_objects(alloc: Global, slots: &Slots) -> Result<NumberTree, Memory>
    ensures { IfOk result (λ empties. AreEmpties slots.now.params.objects (length_in slots.now) empties.marks) }
{
    let mut empties = NumberTree::new(alloc);
    for object in 0..slots.params().objects {
        empties.make_room(1)?;
        empties.add_number();
        empties.set(object, slots.length(object) == 0);
    }
    Ok(empties)
}

/// Notes whether the value of an object is empty now.
pub fn note_value(empties: &mut NumberTree, object: u32, value: &[u8])
    requires { object < length empties.old.marks }
    ensures { empties.new.marks ≡ slice_set empties.old.marks object (length value.now == 0) }
{
    empties.set(object, value.is_empty());
}

impl Objects {
    /// Whether an object's value is empty. The lengths of all values are known, so no file is read.
    pub fn is_empty(&self, object: u32) -> bool
        requires { object < self.now.slots.params.objects }
        ensures { result ≡ (length_at self.now object == 0) }
    {
        self.empties.contains(object)
    }

    /// The least object at or above a number whose value is empty; none exactly where there is none.
    pub fn next_empty(&self, from: u32) -> Option<u32>
        ensures { IsNextEmpty self.now.slots.params.objects (length_at self.now) from result }
    {
        self.empties.next(from)
    }
}

impl<O: Oper> Store<O> {
    /// Whether an object's value is empty. The lengths of all values are known, so no file is read.
    pub fn is_empty(&self, object: u32) -> bool
        requires { object < self.now.parts.volatile.objects.slots.params.objects }
        ensures { result ≡ (length_at self.now.parts.volatile.objects object == 0) }
    {
        self.objects.is_empty(object)
    }

    /// The least object at or above a number whose value is empty; none exactly where there is none.
    pub fn next_empty(&self, from: u32) -> Option<u32>
        ensures { IsNextEmpty self.now.parts.volatile.objects.slots.params.objects (length_at self.now.parts.volatile.objects) from result }
    {
        self.objects.next_empty(from)
    }
}
