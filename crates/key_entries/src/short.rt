ghost use Rattle.std.specs.Prelude.{◌≡◌, ◌≤◌, ◌∷◌, [], length, nat_eq, if◌then◌else◌, None, Some, IsTrue, refl};
ghost use Rattle.std.proofs.Common.{nat_cmp};
ghost use Rattle.std.specs.Cmp;
ghost use Rattle.std.specs.Cmp.Lexicographic.{pointwise, slice_cmp, nat_list_eq_equiv, nat_list_cmp_total, texts_ties, texts_po};
ghost use Rattle.key_entries.specs.Short.{is_short};

use crate::entry_field::EntryField;
use crate::standing::order_of;
use oper_core::Memory;
use std::cmp::Ordering;
use std::marker::Model;

/// The most bytes that it holds.
pub(crate) const MOST: usize = 32;

/// A key of a node, or the value beside one: 1 to 32 bytes, which contracts see as that list.
/// It takes no memory, so the check of a command, which has no allocator, reads a node by it.
#[derive(Clone, Copy)]
pub struct Short {
    bytes: [u8; 32],
    len: usize,
}

impl Model for Short {
    ghost use Rattle.std.specs.Prelude.{List, ℕ};

    ghost Value = { List ℕ };

    ghost use Rattle.key_entries.specs.Padding.{IsPadded, bytes_of, padded, padded-bytes_of};

    ghost view = { bytes_of };

    ghost invariant = { IsPadded };

    ghost inverse = { padded };

    ghost inverse_ok = { padded-bytes_of };
}

impl Default for Short {
    ghost is_default = { λ s. s ≡ 0 ∷ [] };

    /// The least of them, one zero.
    fn default() -> Self {
        Short {
            bytes: [0; 32],
            len: 1,
        }
    }
}

impl PartialEq for Short {
    ghost eq = { pointwise nat_eq };

    ghost laws = { Cmp.partial_equiv_from_equiv nat_list_eq_equiv };

    fn eq(&self, other: &Self) -> bool {
        self.as_slice() == other.as_slice()
    }
}

impl Eq for Short {
    ghost laws = { nat_list_eq_equiv };
}

impl PartialOrd for Short {
    ghost partial_cmp = { λ x y. Some (slice_cmp nat_cmp x y) };

    ghost laws = { texts_po };

    fn partial_cmp(&self, other: &Self) -> Option<Ordering> {
        Some(self.cmp(other))
    }
}

/// In the order of the bytes: the first that differ decide, else the shorter is less.
impl Ord for Short {
    ghost cmp = { slice_cmp nat_cmp };

    ghost total = { nat_list_cmp_total };

    ghost matches_partial_cmp = { λ x y. refl };

    ghost matches_eq = { texts_ties };

    fn cmp(&self, other: &Self) -> Ordering {
        order_of(self.as_slice(), other.as_slice())
    }
}

impl Short {
    /// These bytes, exactly where they are 1 to 32.
    pub fn new(bytes: &[u8]) -> Option<Self>
        ensures { result ≡ (if is_short bytes.now then Some bytes.now else None) }
    {
        let len = bytes.len();
        if len == 0 || len > MOST {
            return None;
        }
        let mut all = [0; 32];
        all[..len].copy_from_slice(bytes);
        Some(Short { bytes: all, len })
    }

    /// The bytes.
    pub fn as_slice(&self) -> &[u8]
        ensures value { result.now ≡ self.now }
        ensures some { 1 ≤ length self.now }
        ensures few { length self.now ≤ 32 }
    {
        &self.bytes[..self.len]
    }

    /// That it has 1 to 32 bytes, for proofs. It does nothing.
    pub fn known_as_short(&self)
        ensures { IsTrue (is_short self.now) }
    {
        let _bytes = self.as_slice();
    }
}

impl EntryField for Short {
    ghost use Rattle.key_entries.specs.Entries.{short_field};

    ghost field = { short_field };

    fn read(bytes: &[u8]) -> Option<Self> {
        let len = *bytes.first()? as usize;
        Short::new(bytes[1..].get(..len)?)
    }

    fn code_len(&self) -> usize {
        1 + self.as_slice().len()
    }

    fn write(&self, out: &mut Vec<u8>) -> Result<(), Memory> {
        let bytes = self.as_slice();
        out.push(bytes.len() as u8)?;
        out.extend_from_slice(bytes)?;
        Ok(())
    }
}
