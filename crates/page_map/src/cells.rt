// The cells of a page, as a list.
ghost use Rattle.std.specs.Ordering.{is_eq};
ghost use Rattle.std.specs.Prelude.{◌≡◌, ◌<◌, ◌≤◌, ◌^◌, ◌&&◌, [], IfSome, is_some, length, nat_lt, slice_index_or, take};
ghost use Rattle.key_entries.specs.Entries.{byte_order};
ghost use Rattle.page_ops.specs.OnCells.{beside_at, key_at};
ghost use Rattle.page_ops.specs.Search.{last_under, place_for};
ghost use Rattle.page_map.specs.Steps.{one_before};
ghost use Rattle.page_map.specs.Splits.{all_there, cell_size, cells_read, front_of};

use key_entries::is_below;
use page_ops::{Page, Text, is_same};
use std::marker::Model;

/// The first cells of a page that has all of its cells.
#[derive(Drop)]
pub(crate) struct Cells<'p, 'a> {
    page: &'p Page<'a>,
    count: usize,
}

impl<'p, 'a> Model for Cells<'p, 'a> {
    ghost use Rattle.std.specs.Prelude.{◌≤◌, ◌<◌, ◌^◌, List, IsTrue, length, take};
    ghost use Rattle.page_ops.specs.Page.{Cell};
    ghost use Rattle.page_ops.specs.Reading.{count_in};
    ghost use Rattle.page_map.specs.Splits.{all_there, cells_read};

    ghost Value = { List Cell };

    ghost view = { λ c. take c.count (cells_read c.page.now) };

    ghost invariant = { λ c. IsTrue (all_there c.page.now) × (c.count ≤ count_in c.page.now) × (count_in c.page.now < 2 ^ 16) × (length c.page.now < 2 ^ 16) };
}

impl<'p, 'a> Cells<'p, 'a> {
    /// All cells of a page, where each is there.
    pub(crate) fn open(page: &'p Page<'a>) -> Option<Self>
        requires { length page.now < 2 ^ 16 }
        ensures there { is_some result ≡ all_there page.now }
        ensures cells { IfSome result (λ cells. cells ≡ cells_read page.now) }
    {
        let count = page.count();
        for i in 0..count {
            page.cell(i)?;
        }
        Some(Cells { page, count })
    }

    /// How many there are.
    pub(crate) fn count(&self) -> usize
        ensures value { result ≡ length self.now }
        ensures fits { result < 2 ^ 16 }
    {
        self.count
    }

    /// The key of a cell, and no bytes behind the last one.
    pub(crate) fn key(&self, i: usize) -> &'a [u8]
        ensures { result.now ≡ key_at self.now i }
    {
        if i >= self.count {
            return &[];
        }
        match self.page.key(i) {
            Some(key) => key,
            None => &[],
        }
    }

    /// What is beside the key of a cell, and no bytes behind the last one.
    pub(crate) fn beside(&self, i: usize) -> &'a [u8]
        ensures { result.now ≡ beside_at self.now i }
    {
        if i >= self.count {
            return &[];
        }
        match self.page.cell(i) {
            Some((_key, beside)) => beside,
            None => &[],
        }
    }

    /// How many bytes a cell has, with those of its place.
    pub(crate) fn size(&self, i: usize) -> u64
        ensures value { result ≡ cell_size (slice_index_or self.now i ([], [])) }
        ensures few { result < 2 ^ 18 }
    {
        if i >= self.count {
            return 4;
        }
        match self.page.cell(i) {
            Some((key, beside)) => 4 + key.len() as u64 + beside.len() as u64,
            None => 4,
        }
    }

    /// How many cells from the front have keys below a key.
    pub(crate) fn place_for(&self, key: &[u8]) -> usize
        ensures { result ≡ place_for key.now self.now }
    {
        let count = self.count();
        for i in 0..count {
            if !is_below(self.key(i), key) {
                return i;
            }
        }
        count
    }

    /// The last cell, from the front on, whose key is not above a key.
    pub(crate) fn under(&self, key: &[u8]) -> Option<usize>
        ensures { result ≡ last_under key.now self.now }
    {
        let count = self.count();
        for i in 0..count {
            if is_below(key, self.key(i)) {
                return before(i);
            }
        }
        before(count)
    }

    /// Whether the cell of a place is there and has a key.
    pub(crate) fn stands_at(&self, place: usize, key: &[u8]) -> bool
        ensures { result ≡ (nat_lt place (length self.now) && is_eq (byte_order key.now (key_at self.now place))) }
    {
        place < self.count() && is_same(key, self.key(place))
    }

    /// How many from the front have keys below the end of a span.
    fn ending(&self, end: &Option<Text>) -> usize
        ensures front { take result self.now ≡ front_of end.now self.now }
        ensures within { result ≤ length self.now }
    {
        match end {
            Some(end) => self.place_for(end.as_slice()),
            None => self.count(),
        }
    }

    /// Those from the front whose keys are below the end of a span.
    pub(crate) fn within(&self, end: &Option<Text>) -> Self
        ensures { result ≡ front_of end.now self.now }
    {
        let count = self.ending(end);
        Cells {
            page: self.page,
            count,
        }
    }
}

/// The one before a place, if there is one.
fn before(i: usize) -> Option<usize>
    ensures { result ≡ one_before i }
{
    if i == 0 { None } else { Some(i - 1) }
}
