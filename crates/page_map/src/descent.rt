// The search for the page that is cut.
ghost use Rattle.std.specs.Prelude.{◌≡◌, ◌<◌, ◌^◌, ℕ, List, IfOk, length, true};
ghost use Rattle.oper_core.specs.State.{State};
ghost use Rattle.oper_core.specs.declared.bounds.Bounds.{Bounds};
ghost use Rattle.page_ops.specs.Reading.{level_in};
ghost use Rattle.page_map.specs.Cutting as cutting;
ghost use Rattle.page_map.specs.Cutting.{GoesOn, due_on, due_seen};
ghost use Rattle.page_map.specs.Map.{bytes_at};
ghost use Rattle.page_map.specs.Sets.{due_in, room_of};
ghost use Rattle.page_map.specs.Splits.{cells_read, due_in_leaf, reads_on};

use crate::above::Above;
use crate::cells::Cells;
use crate::cutting::{answered, end_of, inner_cut, leaf_due};
use crate::due::Due;
use crate::further::Further;
use crate::map::{Map, page_on};
use oper_core::Memory;
use page_ops::{Page, Text};
use std::alloc::Global;

/// How far the search for the page that is to be cut has come, from the root downwards: the page that it looks at next, where the
/// span of that page ends, and the page above it.
#[derive(Drop)]
pub struct Descent {
    pub object: u32,
    pub level: u8,
    pub(crate) end: Option<Text>,
    pub(crate) above: Option<Above>,
}

impl Descent {
    /// The search begins at the root, whose level its bytes tell.
    pub fn new(root: u32, level: u8) -> Self
        ensures object { result.object ≡ root }
        ensures level { result.level ≡ level }
        ensures due { (b : Bounds) (hi : ℕ) (s : State) (key value : List ℕ) → level ≡ level_in (bytes_at root s root) → due_on (room_of b.cap) root hi s key value result ≡ due_in b root hi key value s }
    {
        Descent {
            object: root,
            level,
            end: None,
            above: None,
        }
    }

    /// Looks at the page of the object, of which these are the bytes: it is bad, or the search goes on at a child, or it tells what is
    /// due.
    pub fn step(
        self,
        alloc: Global,
        map: &Map,
        room: usize,
        bytes: &[u8],
        key: &Text,
        value: &Text,
    ) -> Result<Further, Memory>
        ensures { (s : State) → bytes.now ≡ bytes_at map.now.lo s self.object → IfOk result (λ further. GoesOn room map.now.lo map.now.hi s key.now value.now self further) }
    {
        let Some(page) = page_on(self.level, bytes) else {
            return Ok(Further::Bad);
        };
        let Some(cells) = Cells::open(&page) else {
            return Ok(Further::Bad);
        };
        if self.level == 0 {
            let due = self.found(alloc, room, &cells, key, value)?;
            return Ok(Further::Found(due));
        }
        self.down(alloc, map, room, &page, bytes.len(), &cells, key)
    }

    /// What is due, where the page is a leaf.
    fn found(
        self,
        alloc: Global,
        room: usize,
        cells: &Cells,
        key: &Text,
        value: &Text,
    ) -> Result<Due, Memory>
        ensures { IfOk result (λ due. due_seen due ≡ cutting.answered room self.above (due_in_leaf room self.object key.now value.now self.end cells.now)) }
    {
        let due = leaf_due(alloc, room, self.object, cells, &self.end, key, value)?;
        Ok(answered(room, self.above, due))
    }

    /// Goes on at the child under which the key stands.
    fn down(
        self,
        alloc: Global,
        map: &Map,
        room: usize,
        page: &Page,
        size: usize,
        cells: &Cells,
        key: &Text,
    ) -> Result<Further, Memory>
        requires inner { 0 < self.level }
        requires cells { cells.now ≡ cells_read page.now }
        requires size { size ≡ length page.now }
        requires short { size < 2 ^ 16 }
        ensures { (s : State) (value : List ℕ) → page.now ≡ bytes_at map.now.lo s self.object → reads_on self.level page.now ≡ true →
            IfOk result (λ further. GoesOn room map.now.lo map.now.hi s key.now value self further) }
    {
        let Some(place) = cells.under(key.as_slice()) else {
            return Ok(Further::Bad);
        };
        let Some(child) = map.child(page, place) else {
            return Ok(Further::Bad);
        };
        let front = cells.within(&self.end);
        let cut = inner_cut(alloc, self.object, self.level, cells.count(), &front)?;
        let end = end_of(alloc, &front, place, self.end)?;
        Ok(Further::On(Descent {
            object: child,
            level: self.level - 1,
            end,
            above: Some(Above {
                page: self.object,
                place: place as u16,
                size: size as u16,
                due: answered(room, self.above, Due::Asks(cut)),
            }),
        }))
    }
}
