ghost use Rattle.std.specs.Prelude.{◌≡◌, ◌≤◌, IfSome, None, Some, is_some, nat_le, if◌then◌else◌};
ghost use Rattle.oper_core.specs.State.{State};
ghost use Rattle.page_ops.specs.Reading.{under};
ghost use Rattle.page_map.specs.Map as maps;
ghost use Rattle.page_map.specs.Walk as walks;

use byteorder::{ByteOrder, LittleEndian};
use page_ops::Page;
use std::marker::Model;

/// The bytes of a leaf without cells.
const EMPTY_LEAF: &[u8] = &[5, 0, 0, 0];

/// A range of objects for an ordered map. Its first object is the root.
#[derive(Drop)]
pub struct Map {
    lo: u32,
    hi: u32,
}

impl Model for Map {
    ghost use Rattle.std.specs.Prelude.{◌≤◌};
    ghost use Rattle.page_map.specs.Map.{Range};

    ghost Value = { Range };

    ghost view = { λ m. record { lo = m.lo; hi = m.hi } };

    ghost invariant = { λ m. m.lo ≤ m.hi };
}

impl Map {
    /// The range from `lo` to `hi`, both in it. There is none exactly where `hi` is below `lo`.
    pub fn new(lo: u32, hi: u32) -> Option<Self>
        ensures { result ≡ (if nat_le lo hi then Some (record { lo = lo; hi = hi }) else None) }
    {
        if lo <= hi { Some(Map { lo, hi }) } else { None }
    }

    /// The first object, the root.
    pub fn root(&self) -> u32
        ensures { result ≡ self.now.lo }
    {
        self.lo
    }

    /// The last object.
    pub fn last(&self) -> u32
        ensures value { result ≡ self.now.hi }
        ensures order { self.now.lo ≤ result }
    {
        self.hi
    }

    /// The bytes of an object of this value: an empty root is a leaf without cells.
    pub fn bytes<'a>(&self, object: u32, value: &'a [u8]) -> &'a [u8]
        ensures { (s : State) → s object ≡ value.now → result.now ≡ maps.bytes_at self.now.lo s object }
    {
        if object == self.lo && value.is_empty() {
            return EMPTY_LEAF;
        }
        value
    }

    /// The child of a cell, where the cell names an object of the range that is not the root.
    pub fn child(&self, page: &Page, i: usize) -> Option<u32>
        ensures { result ≡ walks.child_in self.now.lo self.now.hi page.now i }
    {
        let (_key, beside) = page.cell(i)?;
        if beside.len() < 4 {
            return None;
        }
        let child = LittleEndian::read_u32(beside);
        if child <= self.lo || child > self.hi {
            return None;
        }
        Some(child)
    }

    /// The child under which a key stands. None where the page does not name one in the range.
    pub fn child_for(&self, page: &Page, key: &[u8]) -> Option<u32>
        ensures { result ≡ walks.child_for self.now.lo self.now.hi page.now (under page.now key.now) }
    {
        let place = page.under(key)?;
        self.child(page, place)
    }
}

/// The page of these bytes, where it is one of this level.
pub fn page_on<'a>(level: u8, bytes: &'a [u8]) -> Option<Page<'a>>
    ensures there { is_some result ≡ walks.is_on level bytes.now }
    ensures page { IfSome result (λ page. page ≡ bytes.now) }
{
    let page = Page::open(bytes)?;
    if page.level() != level {
        return None;
    }
    Some(page)
}
