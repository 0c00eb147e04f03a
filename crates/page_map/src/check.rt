ghost use Rattle.std.specs.Prelude.{◌≡◌, ◌≤◌, ◌-◌, [], suc, true, IfOk, IfSome, IsNone, IsTrue, length};
ghost use Rattle.page_map.specs.Checks.{before, begun, is_met, is_new, stand, taken};
ghost use Rattle.page_map.specs.Splits.{cells_read, front_of};

use crate::awaited::Awaited;
use crate::cells::Cells;
use crate::cutting::copied;
use crate::fitting::{begin_from, begin_with, push_children, rise};
use crate::map::{Map, page_on};
use crate::reached::Reached;
use oper_core::Memory;
use page_ops::a_search_finds_the_place;
use std::alloc::Global;
use std::marker::Model;

/// How far a check has come that goes through the pages of a range: what is awaited, the next one last, and what was met.
#[derive(Drop)]
pub struct Check<'m> {
    reached: Reached<'m>,
    waiting: Vec<Awaited>,
    keys: u64,
    past: u64,
}

impl<'m> Model for Check<'m> {
    ghost use Rattle.std.specs.Prelude.{◌≤◌, ◌*◌, length, reverse};
    ghost use Rattle.page_map.specs.Checks.{Checking};

    ghost Value = { Checking };

    ghost view = { λ c. record { range = c.reached.range; waiting = reverse c.waiting.items; met = record { objects = c.reached.objects; keys = c.keys; past = c.past } } };

    ghost invariant = { λ c. (c.keys ≤ 65535 * length c.reached.objects) × (c.past ≤ 65535 * length c.reached.objects) };
}

impl<'m> Check<'m> {
    /// The root is awaited, on the level that its bytes tell.
    pub fn new(alloc: Global, map: &'m Map, level: u8) -> Result<Self, Memory>
        ensures { IfOk result (λ check. check ≡ begun map.now level) }
    {
        let mut waiting = Vec::new(alloc);
        waiting.push(Awaited {
            object: map.root(),
            level,
            from: copied(alloc, &[])?,
            to: None,
        })?;
        Ok(Check {
            reached: Reached::new(alloc, map)?,
            waiting,
            keys: 0,
            past: 0,
        })
    }

    /// How many pages were met.
    pub fn pages(&self) -> usize
        ensures { result ≡ length self.now.met.objects }
    {
        let _keys = self.keys;
        self.reached.count()
    }

    /// How many pairs their leaves have.
    pub fn keys(&self) -> u64
        ensures { result ≡ self.now.met.keys }
    {
        self.keys
    }

    /// How many cells of theirs stand past their spans.
    pub fn past(&self) -> u64
        ensures { result ≡ self.now.met.past }
    {
        self.past
    }

    /// Whether an object is one of the range that was not met.
    pub fn is_new(&self, object: u32) -> bool
        ensures { result ≡ is_new self.now.range self.now.met.objects object }
    {
        let _keys = self.keys;
        self.reached.is_new(object)
    }

    /// Takes out the page that comes next.
    pub fn next(&mut self) -> Option<Awaited>
        ensures some { IfSome result (λ page. self.old ≡ before page self.new) }
        ensures none { IsNone result → (self.old.waiting ≡ []) × (self.new ≡ self.old) }
    {
        self.waiting.pop()
    }

    /// Meets a page, of which these are the bytes: whether it is a page of the map. Then what is below it comes next.
    pub fn meet(&mut self, alloc: Global, page: Awaited, bytes: &[u8]) -> Result<bool, Memory>
        ensures fits { IfOk result (λ is. is ≡ is_met page bytes.now self.old) }
        ensures next { IfOk result (λ is. IsTrue is → self.new ≡ taken page (cells_read bytes.now) self.old) }
        ensures few { IfOk result (λ is. IsTrue is → length self.new.met.objects ≤ suc (self.new.range.hi - self.new.range.lo)) }
    {
        a_search_finds_the_place();
        if !self.reached.is_new(page.object) {
            return Ok(false);
        }
        let Some(read) = page_on(page.level, bytes) else {
            return Ok(false);
        };
        let Some(cells) = Cells::open(&read) else {
            return Ok(false);
        };
        if !rise(&cells) {
            return Ok(false);
        }
        self.take(alloc, page, &cells)
    }

    /// Meets a page with these cells, which may not be those of a map.
    fn take(&mut self, alloc: Global, page: Awaited, cells: &Cells) -> Result<bool, Memory>
        requires new { is_new self.old.range self.old.met.objects page.object ≡ true }
        ensures stand { IfOk result (λ is. is ≡ stand self.old.range page.level page.from (front_of page.to cells.now)) }
        ensures next { IfOk result (λ is. IsTrue is → self.new ≡ taken page cells.now self.old) }
        ensures few { IfOk result (λ is. IsTrue is → length self.new.met.objects ≤ suc (self.new.range.hi - self.new.range.lo)) }
    {
        let front = cells.within(&page.to);
        self.reached.add(page.object)?;
        let _pages = self.reached.count();
        self.past += (cells.count() - front.count()) as u64;
        if page.level == 0 {
            self.keys += front.count() as u64;
            return Ok(begin_from(&front, page.from.as_slice()));
        }
        if !begin_with(&front, page.from.as_slice()) {
            return Ok(false);
        }
        let map = self.reached.map();
        push_children(
            alloc,
            map,
            page.level - 1,
            &front,
            page.to,
            &mut self.waiting,
        )
    }
}
