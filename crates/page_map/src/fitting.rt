// Whether the cells of a page are those of a map, and what is below them.
ghost use Rattle.std.specs.Prelude.{◌≡◌, ◌++◌, IfOk, IsTrue, reverse};
ghost use Rattle.std.specs.List.{list_all};
ghost use Rattle.std.specs.FinMap.Entries.{is_sorted};
ghost use Rattle.key_entries.specs.Entries.{byte_order};
ghost use Rattle.page_map.specs.Checks as checks;
ghost use Rattle.page_map.specs.Checks.{children_of, has_child};

use crate::awaited::Awaited;
use crate::cells::Cells;
use crate::cutting::copied;
use crate::map::Map;
use byteorder::{ByteOrder, LittleEndian};
use key_entries::is_below;
use oper_core::Memory;
use page_ops::{Text, is_same};
use std::alloc::Global;

/// Whether the keys rise.
pub(crate) fn rise(cells: &Cells) -> bool
    ensures { result ≡ is_sorted byte_order cells.now }
{
    for i in 1..cells.count() {
        if !is_below(cells.key(i - 1), cells.key(i)) {
            return false;
        }
    }
    true
}

/// Whether the first key is not below one.
pub(crate) fn begin_from(cells: &Cells, key: &[u8]) -> bool
    ensures { result ≡ checks.begin_from key.now cells.now }
{
    cells.count() == 0 || !is_below(cells.key(0), key)
}

/// Whether there is a first key, and it is this one.
pub(crate) fn begin_with(cells: &Cells, key: &[u8]) -> bool
    ensures { result ≡ checks.begin_with key.now cells.now }
{
    cells.count() > 0 && is_same(cells.key(0), key)
}

/// The child of the range that the bytes beside a key are the number of.
fn child_beside(map: &Map, bytes: &[u8]) -> Option<u32>
    ensures { result ≡ checks.child_beside map.now bytes.now }
{
    if bytes.len() != 4 {
        return None;
    }
    let child = LittleEndian::read_u32(bytes);
    if child <= map.root() || child > map.last() {
        return None;
    }
    Some(child)
}

/// Adds the children of cells to what is awaited, the last one first, so that the first one comes next. False where a cell names none.
pub(crate) fn push_children(
    alloc: Global,
    map: &Map,
    level: u8,
    cells: &Cells,
    to: Option<Text>,
    waiting: &mut Vec<Awaited>,
) -> Result<bool, Memory>
    ensures named { IfOk result (λ named. named ≡ list_all (has_child map.now) cells.now) }
    ensures children { IfOk result (λ named. IsTrue named → reverse waiting.new.items ≡ children_of level to cells.now ++ reverse waiting.old.items) }
{
    let mut end = to;
    let mut left = cells.count();
    while left > 0 {
        left -= 1;
        let Some(object) = child_beside(map, cells.beside(left)) else {
            return Ok(false);
        };
        let key = cells.key(left);
        let child = Awaited {
            object,
            level,
            from: copied(alloc, key)?,
            to: end,
        };
        waiting.push(child)?;
        end = Some(copied(alloc, key)?);
    }
    Ok(true)
}
