ghost use Rattle.std.specs.Prelude.{◌≡◌, [], List, ℕ};

use std::alloc::Global;
use std::default::MadeWith;
use std::marker::Model;

/// A list of bytes, which contracts see as that list.
#[derive(Drop)]
pub struct ByteList {
    bytes: Vec<u8>,
}

impl Model for ByteList {
    ghost Value = { List ℕ };

    ghost view = { λ s. s.bytes.items };
}

impl MadeWith<Global> for ByteList {
    ghost is_made_with = { λ s. s ≡ [] };

    fn made_with(alloc: Global) -> ByteList {
        ByteList::new(Vec::new(alloc))
    }
}

impl ByteList {
    /// The same bytes, moved in.
    pub fn new(bytes: Vec<u8>) -> Self
        ensures { result ≡ bytes.items }
    {
        ByteList { bytes }
    }

    /// The bytes.
    pub fn as_slice(&self) -> &[u8]
        ensures { result.now ≡ self.now }
    {
        self.bytes.as_slice()
    }

    /// The bytes, moved out.
    pub fn into_vec(self) -> Vec<u8>
        ensures { result.items ≡ self }
    {
        self.bytes
    }
}
