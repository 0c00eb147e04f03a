// Where a page is cut, and by which key the new page is named.
ghost use Rattle.std.specs.Prelude.{◌≡◌, ◌≤◌, ◌==◌, ◌&&◌, IfOk, List, Some, length, nat_lt, slice_index, suc, take};
ghost use Rattle.std.specs.FinMap.Entries.{put};
ghost use Rattle.key_entries.specs.Entries.{byte_order};
ghost use Rattle.page_ops.specs.Page.{Cell};
ghost use Rattle.page_map.specs.Cutting as cutting;
ghost use Rattle.page_map.specs.Cutting.{due_seen};
ghost use Rattle.page_map.specs.Splits as splits;
ghost use Rattle.page_map.specs.Splits.{asks, cut_at, due_in_leaf, inner_split, leaf_key, leaf_split};

use crate::above::Above;
use crate::cells::Cells;
use crate::cut::Cut;
use crate::due::Due;
use crate::row::Row;
use oper_core::Memory;
use page_ops::Text;
use std::alloc::Global;

/// A copy of the bytes of a key.
pub(crate) fn copied(alloc: Global, bytes: &[u8]) -> Result<Text, Memory>
    ensures { IfOk result (λ text. text ≡ bytes.now) }
{
    match Text::new(bytes.to_vec(alloc)?) {
        Some(text) => Ok(text),
        None => Err(Memory),
    }
}

/// Whether two keys have the same byte at a place.
fn same_at(low: &[u8], high: &[u8], i: usize) -> bool
    ensures { result ≡ (nat_lt i (length low.now) && (nat_lt i (length high.now) && (slice_index low.now i == slice_index high.now i))) }
{
    i < low.len() && i < high.len() && low[i] == high[i]
}

/// How many bytes two keys have in common at their beginning.
fn common(low: &[u8], high: &[u8]) -> usize
    ensures value { take (suc result) high.now ≡ splits.separator low.now high.now }
    ensures within { result ≤ length high.now }
{
    let mut i = 0;
    while same_at(low, high, i) {
        i += 1;
    }
    i
}

/// The shortest key above one that is not above another, which is above it.
fn separator<'a>(low: &[u8], high: &'a [u8]) -> &'a [u8]
    ensures { result.now ≡ splits.separator low.now high.now }
{
    let common = common(low, high);
    if common < high.len() {
        return &high[..common + 1];
    }
    high
}

/// How an inner page is cut: its first cells are within its span, and it has so many.
pub(crate) fn inner_cut(
    alloc: Global,
    object: u32,
    level: u8,
    count: usize,
    front: &Cells,
) -> Result<Cut, Memory>
    ensures { (cells : List Cell) → length cells ≡ count → IfOk result (λ cut. cut ≡ inner_split object level cells front.now) }
{
    let within = front.count();
    let place = Row::of(front).middle();
    let key = copied(alloc, front.key(place))?;
    Ok(Cut {
        object,
        level,
        place: place as u16,
        count: within as u16,
        has_past: within < count,
        key,
    })
}

/// Where a leaf is cut, whose span ends there, with the pair at its place.
fn leaf_place(row: &Row, pair_at: usize, end: &Option<Text>) -> usize
    ensures { result ≡ cut_at end.now pair_at row.now }
{
    if end.is_none() && pair_at.saturating_add(1) == row.count() {
        return pair_at.saturating_sub(1);
    }
    row.middle()
}

/// The key by which the new page of a leaf is named.
fn leaf_name(
    alloc: Global,
    front: &Cells,
    end: &Option<Text>,
    key: &Text,
    value: &Text,
) -> Result<Text, Memory>
    ensures { IfOk result (λ name. name ≡ leaf_key end.now key.now value.now front.now) }
{
    let row = Row::with(front, key, value);
    let pair_at = front.place_for(key.as_slice());
    let place = leaf_place(&row, pair_at, end);
    copied(
        alloc,
        separator(row.key(place.saturating_sub(1)), row.key(place)),
    )
}

/// How a leaf is cut: its first cells are within its span, and it has so many.
fn leaf_cut(
    alloc: Global,
    object: u32,
    count: usize,
    front: &Cells,
    end: &Option<Text>,
    key: &Text,
    value: &Text,
) -> Result<Cut, Memory>
    ensures { (cells : List Cell) → length cells ≡ count → IfOk result (λ cut. cut ≡ leaf_split object end.now key.now value.now cells front.now) }
{
    let name = leaf_name(alloc, front, end, key, value)?;
    let within = front.count();
    let place = front.place_for(name.as_slice());
    Ok(Cut {
        object,
        level: 0,
        place: place as u16,
        count: within as u16,
        has_past: within < count,
        key: name,
    })
}

/// What is due in a leaf, whose span ends there.
pub(crate) fn leaf_due(
    alloc: Global,
    room: usize,
    object: u32,
    cells: &Cells,
    end: &Option<Text>,
    key: &Text,
    value: &Text,
) -> Result<Due, Memory>
    ensures { IfOk result (λ due. due_seen due ≡ due_in_leaf room object key.now value.now end.now cells.now) }
{
    if 4 + Row::with(cells, key, value).total() <= room as u64 {
        return Ok(Due::Fits);
    }
    let front = cells.within(end);
    let cut = leaf_cut(alloc, object, cells.count(), &front, end, key, value)?;
    Ok(Due::Asks(cut))
}

/// Where the span of a child ends.
pub(crate) fn end_of(
    alloc: Global,
    front: &Cells,
    place: usize,
    end: Option<Text>,
) -> Result<Option<Text>, Memory>
    ensures { IfOk result (λ found. found ≡ splits.end_of front.now place end) }
{
    let next = place.saturating_add(1);
    if next < front.count() {
        return Ok(Some(copied(alloc, front.key(next))?));
    }
    Ok(end)
}

/// What a page asks for comes to, by the page above it.
pub(crate) fn answered(room: usize, above: Option<Above>, due: Due) -> Due
    ensures { due_seen result ≡ cutting.answered room above (due_seen due) }
{
    match (above, due) {
        (Some(above), Due::Asks(cut)) => granted(room, above, cut),
        (_, due) => due,
    }
}

/// The page above names the new page of one that asks, or what was due without it.
fn granted(room: usize, above: Above, cut: Cut) -> Due
    ensures { due_seen result ≡ cutting.answered room (Some above) (asks cut) }
{
    if above.size as usize + cut.key.as_slice().len() + 8 <= room {
        return Due::Granted {
            cut,
            page: above.page,
            place: above.place,
        };
    }
    above.due
}
