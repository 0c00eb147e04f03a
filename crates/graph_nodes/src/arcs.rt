ghost use Rattle.std.specs.Prelude.{◌≡◌, ℕ, ◌<◌, ◌≤◌, ◌+◌, ◌*◌, ◌^◌, ◌++◌, [], max, None, OnOk, length, slice_index_or, slice_set};
ghost use Rattle.std.specs.Vec.{vec_len, vec_capacity};
ghost use Rattle.graph_nodes.specs.Arcs.{arc_at};
ghost use Rattle.graph_nodes.specs.ArcPages.{count_pages, page_of, pages_for, place_of, ArePages, IsPageFound};
ghost use Rattle.graph_nodes.specs.Kept.{no_arcs};

use number_lists::{PackedOption, push_in_room};
use oper_core::Memory;
use std::alloc::Global;
use std::marker::Model;

/// How many cells a page has.
const PAGE: usize = 64;

/// Where the arc of each cell leads; a slot has eight cells.
///
/// Cells at one place of 64 slots are a page, and of the pages only those take memory in which a cell ever had an arc.
#[derive(Drop)]
pub(crate) struct Arcs {
    /// By page, its number among those that are there, if it is.
    pages: Vec<PackedOption>,
    /// The cells of the pages that are there.
    stored: Vec<PackedOption>,
    slots: usize,
    /// For how many more slots there is memory.
    room: usize,
}

impl Model for Arcs {
    ghost use Rattle.std.specs.Prelude.{◌+◌, ◌*◌, ◌≤◌, ◌^◌};
    ghost use Rattle.std.specs.Vec.{vec_capacity};
    ghost use Rattle.graph_nodes.specs.ArcPages.{ArcList, ArePages, arcs_of, pages_for};

    ghost Value = { ArcList };

    ghost view = { λ a. record { cells = arcs_of a.pages.items a.stored.items (8 * a.slots); room = a.room } };

    ghost invariant = { λ a. ArePages a.slots a.pages.items a.stored.items × (pages_for (a.slots + a.room) ≤ vec_capacity a.pages) ×
        (64 * pages_for (a.slots + a.room) ≤ vec_capacity a.stored) × (a.slots + a.room ≤ 2 ^ 30) };
}

impl Arcs {
    /// No cells.
    pub(crate) fn new(alloc: Global) -> Self
        ensures { result.cells ≡ [] }
    {
        Arcs {
            pages: Vec::new(alloc),
            stored: Vec::new(alloc),
            slots: 0,
            room: 0,
        }
    }

    /// How many cells there are.
    pub(crate) fn len(&self) -> usize
        ensures { result ≡ length self.now.cells }
    {
        let _pages = &self.pages;
        8 * self.slots
    }

    /// Where the arc of the cell leads, if it has one.
    pub(crate) fn get(&self, cell: usize) -> Option<u32>
        requires { cell < length self.now.cells }
        ensures { result ≡ arc_at self.now.cells cell }
    {
        let page = self.pages[page_of(cell)].get()?;
        let at = PAGE * page as usize + place_of(cell);
        self.stored[at].get()
    }

    /// Lets the arc of the cell lead to the slot, or takes it away.
    pub(crate) fn set(&mut self, cell: usize, to: PackedOption)
        requires { cell < length self.old.cells }
        ensures cells { self.new.cells ≡ slice_set self.old.cells cell to }
        ensures room { self.new.room ≡ self.old.room }
    {
        let page = find_page(page_of(cell), &mut self.pages, &mut self.stored);
        let at = PAGE * page as usize + place_of(cell);
        self.stored[at] = to;
    }

    /// Takes the memory for so many more slots. Nothing else changes, also where it is out of memory.
    pub(crate) fn make_room(&mut self, count: usize) -> Result<(), Memory>
        requires few { count ≤ 2 ^ 28 }
        requires small { length self.old.cells ≤ 2 ^ 31 }
        ensures cells { self.new.cells ≡ self.old.cells }
        ensures room { OnOk result (count ≤ self.new.room) }
        ensures kept { self.old.room ≤ self.new.room }
    {
        let pages = pages_for(self.slots + count);
        self.pages.reserve(pages - self.pages.len())?;
        self.stored.reserve(PAGE * pages - self.stored.len())?;
        self.room = self.room.max(count);
        Ok(())
    }

    /// Adds a slot, whose cells have no arcs.
    pub(crate) fn add_slot(&mut self)
        requires { 0 < self.old.room }
        ensures cells { self.new.cells ≡ self.old.cells ++ no_arcs 8 }
        ensures room { self.old.room ≡ self.new.room + 1 }
    {
        self.slots += 1;
        self.room -= 1;
        add_pages(pages_for(self.slots), &mut self.pages);
    }
}

/// The page of the cell.
fn page_of(cell: usize) -> usize
    ensures { result ≡ page_of cell }
{
    8 * (cell / (8 * PAGE)) + cell % 8
}

/// Where the cell stands in its page.
fn place_of(cell: usize) -> usize
    ensures { result ≡ place_of cell }
{
    cell / 8 % PAGE
}

/// How many pages so many slots have.
fn pages_for(slots: usize) -> usize
    requires { slots ≤ 2 ^ 30 }
    ensures { result ≡ pages_for slots }
{
    8 * ((slots + 63) / PAGE)
}

/// Adds pages that are not there yet, until there are so many.
fn add_pages(count: usize, pages: &mut Vec<PackedOption>)
    requires { count ≤ vec_capacity pages.old }
    ensures same { (i : ℕ) → slice_index_or pages.new.items i None ≡ slice_index_or pages.old.items i None }
    ensures pages { count_pages pages.new.items ≡ count_pages pages.old.items }
    ensures size { length pages.new.items ≡ max (length pages.old.items) count }
    ensures capacity { vec_capacity pages.old ≤ vec_capacity pages.new }
{
    for i in pages.len()..count {
        push_in_room(pages, PackedOption::none());
    }
}

/// The number of the page, which is added where it is not there.
fn find_page(i: usize, pages: &mut Vec<PackedOption>, stored: &mut Vec<PackedOption>) -> u32
    requires page { i < length pages.old.items }
    requires count { length stored.old.items ≡ 64 * count_pages pages.old.items }
    requires room { 64 * length pages.old.items ≤ vec_capacity stored.old }
    requires small { length pages.old.items ≤ 2 ^ 28 }
    ensures found { (slots : ℕ) → ArePages slots pages.old.items stored.old.items → IsPageFound slots i result pages.new.items stored.new.items pages.old.items stored.old.items }
    ensures pages { vec_capacity pages.old ≤ vec_capacity pages.new }
    ensures stored { vec_capacity stored.old ≤ vec_capacity stored.new }
{
    match pages[i].get() {
        Some(page) => page,
        None => {
            let page = (stored.len() / PAGE) as u32;
            pages[i] = PackedOption::some(page);
            add_page(stored);
            page
        }
    }
}

/// Adds the cells of a page, which have no arcs.
fn add_page(stored: &mut Vec<PackedOption>)
    requires { vec_len stored.old + 64 ≤ vec_capacity stored.old }
    ensures cells { stored.new.items ≡ stored.old.items ++ no_arcs 64 }
    ensures capacity { vec_capacity stored.old ≤ vec_capacity stored.new }
{
    for i in 0..PAGE {
        push_in_room(stored, PackedOption::none());
    }
}
