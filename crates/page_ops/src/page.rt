ghost use Rattle.std.specs.Prelude.{◌≡◌, ◌+◌, ◌<◌, ◌≤◌, ◌^◌, IfSome, is_some, length};
ghost use Rattle.std.specs.Ordering.{is_eq};
ghost use Rattle.key_entries.specs.Entries.{byte_order};
ghost use Rattle.page_ops.specs.Reading as reading;
ghost use Rattle.page_ops.specs.Reading.{beside_in, beside_of, between, count_in, ends_before, goes_in, has_cell, has_key, key_in, key_of, level_in, opens, place_of, stands_at, stands_below};
ghost use Rattle.page_ops.specs.Layout.{part_of};
ghost use Rattle.page_ops.specs.Seen.{cells_seen};

use crate::layout::Cells;
use byteorder::{ByteOrder, LittleEndian};
use key_entries::is_below;
use std::cmp::Ordering;
use std::marker::Model;

/// The first byte of a page.
pub(crate) const KIND: u8 = 5;

/// How many bytes stand before the cells.
pub(crate) const HEAD_BYTES: usize = 4;

/// A page has fewer bytes than this, so that a place has two.
pub(crate) const MOST_BYTES: usize = 65_536;

/// The bytes of a page, of which nothing but the head has been looked at.
#[derive(Drop)]
pub struct Page<'a> {
    bytes: &'a [u8],
}

impl<'a> Model for Page<'a> {
    ghost use Rattle.std.specs.Prelude.{List, ℕ, IsTrue};
    ghost use Rattle.page_ops.specs.Reading.{opens};

    ghost Value = { List ℕ };

    ghost view = { λ s. s.bytes.now };

    ghost invariant = { λ s. IsTrue (opens s.bytes.now) };
}

impl<'a> Page<'a> {
    /// The page that the bytes are, by their head.
    pub fn open(bytes: &'a [u8]) -> Option<Self>
        ensures opens { is_some result ≡ opens bytes.now }
        ensures page { IfSome result (λ page. page ≡ bytes.now) }
    {
        if bytes.len() < HEAD_BYTES || bytes.len() >= MOST_BYTES || bytes[0] != KIND {
            return None;
        }
        let count = count_of(bytes);
        if bytes.len() < HEAD_BYTES + 2 * count || place_in(bytes, count, 0) != HEAD_BYTES {
            return None;
        }
        Some(Page { bytes })
    }

    /// Its level: 0 of a leaf; of an inner page that of its children and 1.
    pub fn level(&self) -> u8
        ensures { result ≡ level_in self.now }
    {
        self.bytes[1]
    }

    /// How many cells it has.
    pub fn count(&self) -> usize
        ensures value { result ≡ count_in self.now }
        ensures fits { result < 2 ^ 16 }
    {
        count_of(self.bytes)
    }

    /// Where a cell begins; of a place behind the last one, where the cells end.
    fn place(&self, i: usize) -> usize
        ensures { result ≡ place_of self.now i }
    {
        place_in(self.bytes, self.count(), i)
    }

    /// The key of a cell and what is beside it, where there is such a cell and its key fits.
    pub fn cell(&self, i: usize) -> Option<(&'a [u8], &'a [u8])>
        ensures there { is_some result ≡ has_cell self.now i }
        ensures key { IfSome result (λ cell. cell.0.now ≡ key_of self.now i) }
        ensures beside { IfSome result (λ cell. cell.1.now ≡ beside_of self.now i) }
    {
        let count = self.count();
        if i >= count {
            return None;
        }
        let (from, to) = (self.place(i), self.place(i + 1));
        if from < HEAD_BYTES || to > self.bytes.len() - 2 * count {
            return None;
        }
        parts_of(cut(self.bytes, from, to))
    }

    /// The key of a cell, where there is such a cell and its key fits.
    pub fn key(&self, i: usize) -> Option<&'a [u8]>
        ensures there { is_some result ≡ has_cell self.now i }
        ensures key { IfSome result (λ key. key.now ≡ key_of self.now i) }
    {
        let (key, _beside) = self.cell(i)?;
        Some(key)
    }

    /// The place of a key: that of the first cell whose key is not below it. None where a cell that is asked does not fit.
    pub fn seek(&self, key: &[u8]) -> Option<usize>
        ensures { result ≡ reading.seek self.now key.now }
    {
        let (mut low, mut high) = (0, self.count());
        while low < high {
            let middle = (low + high) / 2;
            if is_below(self.key(middle)?, key) {
                low = middle + 1;
            } else {
                high = middle;
            }
        }
        Some(low)
    }

    /// Whether a cell has this key.
    pub fn stands_at(&self, i: usize, key: &[u8]) -> bool
        ensures { result ≡ stands_at self.now i key.now }
    {
        match self.key(i) {
            Some(there) => is_same(there, key),
            None => false,
        }
    }

    /// The last cell whose key is not above a key. None where there is none, or a cell that is asked does not fit.
    pub fn under(&self, key: &[u8]) -> Option<usize>
        ensures { result ≡ reading.under self.now key.now }
    {
        let place = self.seek(key)?;
        if self.stands_at(place, key) {
            return Some(place);
        }
        if place == 0 {
            return None;
        }
        Some(place - 1)
    }

    /// Whether the key of a cell is below another.
    pub fn stands_below(&self, i: usize, key: &[u8]) -> bool
        ensures { result ≡ stands_below self.now i key.now }
    {
        match self.key(i) {
            Some(there) => is_below(there, key),
            None => false,
        }
    }

    /// Whether a key is below that of a cell, or no cell is behind.
    pub fn ends_before(&self, i: usize, key: &[u8]) -> bool
        ensures { result ≡ ends_before self.now i key.now }
    {
        if self.count() == i {
            return true;
        }
        match self.key(i) {
            Some(there) => is_below(key, there),
            None => false,
        }
    }

    /// Whether a key may stand before a cell.
    pub fn goes_in(&self, i: usize, key: &[u8]) -> bool
        ensures { result ≡ goes_in self.now i key.now }
    {
        (i == 0 || self.stands_below(i - 1, key)) && self.ends_before(i, key)
    }

    /// Cells as they stand, from one up to another.
    pub(crate) fn part(&self, from: usize, to: usize) -> Cells<'a>
        requires from { from < 2 ^ 17 }
        requires to { to < 2 ^ 17 }
        ensures { cells_seen result ≡ part_of self.now from to }
    {
        let start = self.place(from);
        let places = &self.bytes[self.bytes.len() - 2 * self.count()..];
        Cells {
            bytes: cut(self.bytes, start, self.place(to)),
            from: start,
            places: cut(places, 2 * from, 2 * to),
        }
    }
}

// How many cells the bytes say that there are.
fn count_of(bytes: &[u8]) -> usize
    requires { 4 ≤ length bytes.now }
    ensures value { result ≡ count_in bytes.now }
    ensures fits { result < 2 ^ 16 }
{
    LittleEndian::read_u16(&bytes[2..]) as usize
}

// Where a cell begins, among so many.
fn place_in(bytes: &[u8], count: usize, i: usize) -> usize
    requires count { count ≡ count_in bytes.now }
    requires room { 4 + count + count ≤ length bytes.now }
    ensures { result ≡ place_of bytes.now i }
{
    let places = bytes.len() - 2 * count;
    if i >= count {
        return places;
    }
    LittleEndian::read_u16(&bytes[places + 2 * i..]) as usize
}

// The bytes from one place up to another, as far as they go.
fn cut(bytes: &[u8], from: usize, to: usize) -> &[u8]
    ensures { result.now ≡ between from to bytes.now }
{
    let to = to.min(bytes.len());
    if from >= to {
        return &[];
    }
    &bytes[from..to]
}

// The key in the bytes of a cell, where it is there, and what is behind it.
fn parts_of(cell: &[u8]) -> Option<(&[u8], &[u8])>
    ensures there { is_some result ≡ has_key cell.now }
    ensures key { IfSome result (λ parts. parts.0.now ≡ key_in cell.now) }
    ensures beside { IfSome result (λ parts. parts.1.now ≡ beside_in cell.now) }
{
    if cell.len() < 2 {
        return None;
    }
    let length = LittleEndian::read_u16(cell) as usize;
    if cell.len() < 2 + length {
        return None;
    }
    Some((&cell[2..2 + length], &cell[2 + length..]))
}

/// Whether a key is another.
pub fn is_same(key: &[u8], other: &[u8]) -> bool
    ensures { result ≡ is_eq (byte_order key.now other.now) }
{
    match key.cmp(other) {
        Ordering::Equal => true,
        Ordering::Less | Ordering::Greater => false,
    }
}
