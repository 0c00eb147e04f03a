ghost use Rattle.std.specs.Prelude.{◌≡◌, ◌+◌, ◌-◌, min, ◌<◌, ◌≤◌, ◌^◌, ◌++◌, IfOk, OnOk, length, flat_map};
ghost use Rattle.byteorder.specs.Endian.{little_bytes};
ghost use Rattle.page_ops.specs.Page.{cell_code, cells_code, places_from};
ghost use Rattle.page_ops.specs.Effects as effects;
ghost use Rattle.page_ops.specs.Layout as layouts;
ghost use Rattle.page_ops.specs.Layout.{built, cells_of, count_of, moved, places_of, size};
ghost use Rattle.page_ops.specs.Seen.{cells_seen, new_seen, seen};

use crate::page::{HEAD_BYTES, KIND, MOST_BYTES};
use byteorder::{ByteOrder, LittleEndian};
use oper_core::Memory;
use std::alloc::Global;

/// Some cells of an old page.
#[derive(Clone, Copy, Drop)]
pub(crate) struct Cells<'a> {
    /// Their bytes.
    pub bytes: &'a [u8],
    /// Where the first of them stands.
    pub from: usize,
    /// The two bytes of the place of each.
    pub places: &'a [u8],
}

impl Cells<'_> {
    /// No cells.
    pub fn none() -> Self
        ensures { cells_seen result ≡ layouts.no_cells }
    {
        Cells {
            bytes: &[],
            from: 0,
            places: &[],
        }
    }

    /// How many cells they are.
    fn count(&self) -> usize
        ensures value { result ≡ length (cells_seen self.now).places }
        ensures few { result < 2 ^ 62 }
    {
        self.places.len() / 2
    }

    /// Appends the places of the cells, of which the first has moved to this one.
    fn write_places(&self, at: usize, out: &mut Vec<u8>) -> Result<(), Memory>
        requires { at < 2 ^ 32 }
        ensures { OnOk result (out.new.items ≡ out.old.items ++ moved (cells_seen self.now).from at (cells_seen self.now).places) }
    {
        let mut rest = self.places;
        while rest.len() >= 2 {
            let place = LittleEndian::read_u16(rest) as usize;
            write_place(at + place.saturating_sub(self.from), out)?;
            rest = &rest[2..];
        }
        Ok(())
    }
}

/// The new cells of a page.
#[derive(Clone, Copy, Drop)]
pub(crate) enum NewCells<'a> {
    Nothing,
    /// A cell of a leaf.
    Entry {
        key: &'a [u8],
        value: &'a [u8],
    },
    /// A cell of an inner page.
    Child {
        key: &'a [u8],
        child: u32,
    },
    /// Two of them.
    Children {
        key: &'a [u8],
        child: u32,
        second_key: &'a [u8],
        second: u32,
    },
}

impl NewCells<'_> {
    /// How many cells they are.
    fn count(&self) -> usize
        ensures value { result ≡ length (new_seen self.now) }
        ensures few { result ≤ 2 }
    {
        match self {
            NewCells::Nothing => 0,
            NewCells::Entry { .. } | NewCells::Child { .. } => 1,
            NewCells::Children { .. } => 2,
        }
    }

    /// How many bytes they have, up to what a `usize` can say.
    fn len(&self) -> usize
        ensures { result ≡ min (length (cells_code (new_seen self.now))) (2 ^ 64 - 1) }
    {
        match self {
            NewCells::Nothing => 0,
            NewCells::Entry { key, value } => key
                .len()
                .saturating_add(value.len())
                .saturating_add(2),
            NewCells::Child { key, .. } => key.len().saturating_add(6),
            NewCells::Children {
                key,
                second_key,
                ..
            } => key
                .len()
                .saturating_add(second_key.len())
                .saturating_add(12),
        }
    }

    /// Appends the cells.
    fn write(&self, out: &mut Vec<u8>) -> Result<(), Memory>
        requires { length (cells_code (new_seen self.now)) < 2 ^ 16 }
        ensures { OnOk result (out.new.items ≡ out.old.items ++ cells_code (new_seen self.now)) }
    {
        match self {
            NewCells::Nothing => {}
            NewCells::Entry { key, value } => write_cell(key, value, out)?,
            NewCells::Child { key, child } => write_cell(key, &child.to_le_bytes(), out)?,
            NewCells::Children {
                key,
                child,
                second_key,
                second,
            } => {
                write_cell(key, &child.to_le_bytes(), out)?;
                write_cell(second_key, &second.to_le_bytes(), out)?;
            }
        }
        Ok(())
    }

    /// Appends their places, of which the first is this one.
    fn write_places(&self, at: usize, out: &mut Vec<u8>) -> Result<(), Memory>
        requires at { at < 2 ^ 32 }
        requires short { length (cells_code (new_seen self.now)) < 2 ^ 16 }
        ensures { OnOk result (out.new.items ≡ out.old.items ++ flat_map (little_bytes 2) (places_from at (new_seen self.now))) }
    {
        match self {
            NewCells::Nothing => {}
            NewCells::Entry { .. } | NewCells::Child { .. } => write_place(at, out)?,
            NewCells::Children { key, .. } => {
                write_place(at, out)?;
                write_place(at + 6 + key.len(), out)?;
            }
        }
        Ok(())
    }
}

/// Appends a cell.
fn write_cell(key: &[u8], beside: &[u8], out: &mut Vec<u8>) -> Result<(), Memory>
    requires { length key.now < 2 ^ 16 }
    ensures { OnOk result (out.new.items ≡ out.old.items ++ cell_code (key.now, beside.now)) }
{
    out.extend_from_slice(&(key.len() as u16).to_le_bytes())?;
    out.extend_from_slice(key)?;
    out.extend_from_slice(beside)?;
    Ok(())
}

/// Appends the two lower bytes of a place or of a count.
fn write_place(place: usize, out: &mut Vec<u8>) -> Result<(), Memory>
    ensures { OnOk result (out.new.items ≡ out.old.items ++ little_bytes 2 place) }
{
    out.extend_from_slice(&place.to_le_bytes()[..2])?;
    Ok(())
}

/// A page that is made: new cells between those of old pages.
#[derive(Clone, Copy, Drop)]
pub(crate) struct Layout<'a> {
    pub level: u8,
    pub front: Cells<'a>,
    pub new: NewCells<'a>,
    pub back: Cells<'a>,
}

impl Layout<'_> {
    /// Whether it has at most so many bytes, and fewer than 65,536.
    pub fn is_short(&self, cap: u32) -> bool
        ensures { result ≡ effects.is_short cap (seen self.now) }
    {
        let size = self.size();
        size <= cap as usize && size < MOST_BYTES
    }

    /// How many bytes it has, up to what a `usize` can say.
    fn size(&self) -> usize
        ensures { result ≡ min (size (seen self.now)) (2 ^ 64 - 1) }
    {
        let cells = HEAD_BYTES
            .saturating_add(self.front.bytes.len())
            .saturating_add(self.new.len())
            .saturating_add(self.back.bytes.len());
        cells.saturating_add(self.count().saturating_mul(2))
    }

    /// How many cells it has.
    fn count(&self) -> usize
        ensures { result ≡ count_of (seen self.now) }
    {
        self.front.count() + self.new.count() + self.back.count()
    }

    /// Its bytes.
    pub fn bytes(&self, alloc: Global) -> Result<Vec<u8>, Memory>
        requires { size (seen self.now) < 2 ^ 16 }
        ensures { IfOk result (λ out. out.items ≡ built (seen self.now)) }
    {
        let mut out = Vec::with_capacity(alloc, self.size())?;
        out.push(KIND)?;
        out.push(self.level)?;
        write_place(self.count(), &mut out)?;
        self.write_cells(&mut out)?;
        self.write_places(&mut out)?;
        Ok(out)
    }

    /// Appends its cells.
    fn write_cells(&self, out: &mut Vec<u8>) -> Result<(), Memory>
        requires { size (seen self.now) < 2 ^ 16 }
        ensures { OnOk result (out.new.items ≡ out.old.items ++ cells_of (seen self.now)) }
    {
        out.extend_from_slice(self.front.bytes)?;
        self.new.write(out)?;
        out.extend_from_slice(self.back.bytes)?;
        Ok(())
    }

    /// Appends their places.
    fn write_places(&self, out: &mut Vec<u8>) -> Result<(), Memory>
        requires { size (seen self.now) < 2 ^ 16 }
        ensures { OnOk result (out.new.items ≡ out.old.items ++ places_of (seen self.now)) }
    {
        let new_at = HEAD_BYTES + self.front.bytes.len();
        let back_at = new_at + self.new.len();
        self.front.write_places(HEAD_BYTES, out)?;
        self.new.write_places(new_at, out)?;
        self.back.write_places(back_at, out)?;
        Ok(())
    }
}
