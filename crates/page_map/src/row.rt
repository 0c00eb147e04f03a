// The cells of a leaf, with a pair among them.
ghost use Rattle.std.specs.Prelude.{◌≡◌, ◌<◌, ◌≤◌, ◌^◌, [], length, slice_index_or};
ghost use Rattle.std.specs.FinMap.Entries.{put};
ghost use Rattle.key_entries.specs.Entries.{byte_order};
ghost use Rattle.page_ops.specs.OnCells.{key_at};
ghost use Rattle.page_map.specs.Rows.{old_at};
ghost use Rattle.page_map.specs.Splits.{cell_size, middle, size_of};

use crate::cells::Cells;
use crate::pair::Pair;
use page_ops::Text;
use std::marker::Model;

/// The cells of a page, into which a pair may have been put.
#[derive(Drop)]
pub(crate) struct Row<'c, 'p, 'a> {
    cells: &'c Cells<'p, 'a>,
    pair: Option<Pair<'c>>,
}

impl<'c, 'p, 'a> Model for Row<'c, 'p, 'a> {
    ghost use Rattle.std.specs.Prelude.{List};
    ghost use Rattle.page_ops.specs.Page.{Cell};
    ghost use Rattle.page_map.specs.Rows.{KnowsPlace, row_of};

    ghost Value = { List Cell };

    ghost view = { λ r. row_of r.cells.now r.pair };

    ghost invariant = { λ r. KnowsPlace r.cells.now r.pair };
}

impl<'c, 'p, 'a> Row<'c, 'p, 'a> {
    /// The cells alone.
    pub(crate) fn of(cells: &'c Cells<'p, 'a>) -> Self
        ensures { result ≡ cells.now }
    {
        Row { cells, pair: None }
    }

    /// The cells with a pair.
    pub(crate) fn with(cells: &'c Cells<'p, 'a>, key: &'c Text, value: &'c Text) -> Self
        ensures { result ≡ put byte_order key.now value.now cells.now }
    {
        let place = cells.place_for(key.as_slice());
        let there = cells.stands_at(place, key.as_slice());
        Row {
            cells,
            pair: Some(Pair {
                key,
                value,
                place,
                there,
            }),
        }
    }

    /// How many there are.
    pub(crate) fn count(&self) -> usize
        ensures value { result ≡ length self.now }
        ensures fits { result < 2 ^ 17 }
    {
        match self.pair {
            Some(pair) => {
                if pair.there {
                    self.cells.count()
                } else {
                    self.cells.count() + 1
                }
            }
            None => self.cells.count(),
        }
    }

    /// The key of a cell, and no bytes behind the last one.
    pub(crate) fn key(&self, i: usize) -> &[u8]
        ensures { result.now ≡ key_at self.now i }
    {
        match self.pair {
            Some(pair) => {
                if i == pair.place {
                    return pair.key.as_slice();
                }
                self.cells.key(old_place(&pair, i))
            }
            None => self.cells.key(i),
        }
    }

    /// How many bytes a cell has, with those of its place.
    pub(crate) fn size(&self, i: usize) -> u64
        ensures value { result ≡ cell_size (slice_index_or self.now i ([], [])) }
        ensures few { result < 2 ^ 18 }
    {
        match self.pair {
            Some(pair) => {
                if i == pair.place {
                    return 4
                        + pair.key.as_slice().len() as u64
                        + pair.value.as_slice().len() as u64;
                }
                self.cells.size(old_place(&pair, i))
            }
            None => self.cells.size(i),
        }
    }

    /// How many bytes they have, with those of their places.
    pub(crate) fn total(&self) -> u64
        ensures value { result ≡ size_of self.now }
        ensures few { result < 2 ^ 40 }
    {
        let count = self.count();
        let mut total = 0;
        for i in 0..count {
            total += self.size(i);
        }
        total
    }

    /// Where they are cut in two of about one size.
    pub(crate) fn middle(&self) -> usize
        ensures value { result ≡ middle self.now }
        ensures within { result ≤ length self.now }
    {
        let all = self.total();
        let count = self.count();
        let mut front = 0;
        for i in 0..count {
            let size = self.size(i);
            if all <= 2 * front + size {
                return i;
            }
            front += size;
        }
        count
    }
}

/// The place of another cell before the pair was put in.
fn old_place(pair: &Pair, i: usize) -> usize
    ensures { result ≡ old_at pair.now.there pair.now.place i }
{
    if pair.there || i < pair.place {
        i
    } else {
        i.saturating_sub(1)
    }
}
