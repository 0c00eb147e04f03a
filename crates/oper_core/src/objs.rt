ghost use Rattle.std.specs.Prelude.{◌≡◌, ◌<◌, ◌≤◌, ◌++◌, [], ◌∷◌, List, ℕ, length};

use arrayvec::ArrayVec;
use std::marker::Model;

/// A list of at most four object numbers.
#[derive(Drop)]
pub struct Objs {
    items: ArrayVec<u32, 4>,
}

impl Model for Objs {
    ghost Value = { List ℕ };

    ghost view = { λ s. s.items.items };
}

impl Objs {
    /// No objects.
    pub fn new() -> Self
        ensures { result ≡ [] }
    {
        Objs {
            items: ArrayVec::new(),
        }
    }

    /// One object.
    pub fn one(object: u32) -> Self
        ensures { result ≡ object ∷ [] }
    {
        let mut objects = Objs::new();
        objects.push(object);
        objects
    }

    /// Adds an object at the end.
    pub fn push(&mut self, object: u32)
        requires { length self.old < 4 }
        ensures { self.new ≡ self.old ++ object ∷ [] }
    {
        self.items.push(object);
    }

    /// The objects, in their order.
    pub fn as_slice(&self) -> &[u32]
        ensures value { result.now ≡ self.now }
        ensures few { length self.now ≤ 4 }
    {
        self.items.as_slice()
    }
}
