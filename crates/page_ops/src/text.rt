ghost use Rattle.std.specs.Prelude.{◌≡◌, ◌+◌, ◌<◌, ◌^◌, IfOk, IfSome, IsTrue, is_some, length, nat_lt};
ghost use Rattle.page_ops.specs.Formats.{text as text_format};

use oper_core::Memory;
use std::alloc::Global;
use std::marker::Model;

/// A text has fewer bytes than this, since its length has two in a code.
const TEXT_END: usize = 65_536;

/// A key or a value of an operation: at most 65,535 bytes, which contracts see as that list.
#[derive(Drop)]
pub struct Text {
    bytes: Vec<u8>,
}

impl Model for Text {
    ghost use Rattle.std.specs.Prelude.{◌<◌, ◌^◌, List, ℕ, length};

    ghost Value = { List ℕ };

    ghost view = { λ s. s.bytes.items };

    ghost invariant = { λ s. length s.bytes.items < 2 ^ 16 };
}

impl Text {
    /// The same bytes, where they are not too many.
    pub fn new(bytes: Vec<u8>) -> Option<Self>
        ensures there { is_some result ≡ nat_lt (length bytes.items) 65536 }
        ensures value { IfSome result (λ text. text ≡ bytes.items) }
    {
        if bytes.len() >= TEXT_END {
            return None;
        }
        Some(Text { bytes })
    }

    /// A copy of the bytes.
    pub(crate) fn copied(alloc: Global, bytes: &[u8]) -> Result<Self, Memory>
        requires { length bytes.now < 2 ^ 16 }
        ensures { IfOk result (λ text. text ≡ bytes.now) }
    {
        let bytes = bytes.to_vec(alloc)?;
        Ok(Text { bytes })
    }

    /// The bytes.
    pub fn as_slice(&self) -> &[u8]
        ensures value { result.now ≡ self.now }
        ensures few { length self.now < 2 ^ 16 }
    {
        self.bytes.as_slice()
    }

    /// How many bytes it has in a code, where its length stands before it.
    pub(crate) fn code_len(&self) -> usize
        ensures value { result ≡ length (text_format.code self.now) }
        ensures few { result < 2 ^ 17 }
    {
        2 + self.bytes.len()
    }

    /// That it fits a code, for proofs. It does nothing.
    pub(crate) fn known_as_short(&self)
        ensures { IsTrue (text_format.fits self.now) }
    {
        let _length = self.as_slice().len();
    }
}
