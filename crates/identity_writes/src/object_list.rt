ghost use Rattle.std.specs.Prelude.{◌≡◌, List, ℕ};

use std::marker::Model;

/// A list of object numbers, which contracts see as that list.
#[derive(Drop)]
pub struct ObjectList {
    objects: Vec<u32>,
}

impl Model for ObjectList {
    ghost Value = { List ℕ };

    ghost view = { λ s. s.objects.items };
}

impl ObjectList {
    /// The same objects, moved in.
    pub fn new(objects: Vec<u32>) -> Self
        ensures { result ≡ objects.items }
    {
        ObjectList { objects }
    }

    /// The objects.
    pub fn as_slice(&self) -> &[u32]
        ensures { result.now ≡ self.now }
    {
        self.objects.as_slice()
    }

    /// The objects, moved out.
    pub fn into_vec(self) -> Vec<u32>
        ensures { result.items ≡ self }
    {
        self.objects
    }
}
