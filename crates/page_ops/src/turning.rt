//! The inner pages that the operations make of bytes.

ghost use Rattle.std.specs.Prelude.{◌≡◌, ◌<◌, ◌^◌, IfSome, is_some};
ghost use Rattle.page_ops.specs.Effects as effects;
ghost use Rattle.page_ops.specs.Reading.{is_inner, key_of};
ghost use Rattle.page_ops.specs.Seen.{made_seen};

use crate::Page;
use crate::effects::Made;
use crate::layout::{Cells, Layout, NewCells};
use oper_core::Refusal;

/// So many cells of an inner page become one, which keeps the first key and has this child.
pub(crate) fn turn<'a>(bytes: &'a [u8], place: u16, count: u16, child: u32) -> Made<'a>
    ensures { made_seen result ≡ effects.turn_made place count child bytes.now }
{
    match inner(bytes) {
        Some(page) => turn_in(&page, place, count, child),
        None => Err(Refusal::NotNode),
    }
}

/// The same of the page.
fn turn_in<'a>(page: &Page<'a>, place: u16, count: u16, child: u32) -> Made<'a>
    ensures { made_seen result ≡ effects.turn_in place count child page.now }
{
    let (place, count) = (place as usize, count as usize);
    let Some(key) = first_key(page, place, count) else {
        return Err(Refusal::BadPlace);
    };
    Ok(Some(Layout {
        level: page.level(),
        front: page.part(0, place),
        new: NewCells::Child { key, child },
        back: page.part(place + count, page.count()),
    }))
}

/// They become two: that one, and one with this key and this child.
pub(crate) fn turn_two<'a>(
    bytes: &'a [u8],
    place: u16,
    count: u16,
    child: u32,
    second_key: &'a [u8],
    second: u32,
) -> Made<'a>
    ensures { made_seen result ≡ effects.turn_two_made place count child second_key.now second bytes.now }
{
    match inner(bytes) {
        Some(page) => turn_two_in(&page, place, count, child, second_key, second),
        None => Err(Refusal::NotNode),
    }
}

/// The same of the page.
fn turn_two_in<'a>(
    page: &Page<'a>,
    place: u16,
    count: u16,
    child: u32,
    second_key: &'a [u8],
    second: u32,
) -> Made<'a>
    ensures { made_seen result ≡ effects.turn_two_in place count child second_key.now second page.now }
{
    let (place, count) = (place as usize, count as usize);
    let Some(key) = first_key(page, place, count) else {
        return Err(Refusal::BadPlace);
    };
    if !page.stands_below(place, second_key) || !page.ends_before(place + count, second_key) {
        return Err(Refusal::BadPlace);
    }
    Ok(Some(Layout {
        level: page.level(),
        front: page.part(0, place),
        new: NewCells::Children {
            key,
            child,
            second_key,
            second,
        },
        back: page.part(place + count, page.count()),
    }))
}

/// An inner page over two children.
pub(crate) fn root<'a>(level: u8, left: u32, key: &'a [u8], right: u32) -> Made<'a>
    ensures { made_seen result ≡ effects.root_made level left key.now right }
{
    Ok(Some(Layout {
        level,
        front: Cells::none(),
        new: NewCells::Children {
            key: &[],
            child: left,
            second_key: key,
            second: right,
        },
        back: Cells::none(),
    }))
}

/// The inner page that they are.
fn inner(bytes: &[u8]) -> Option<Page<'_>>
    ensures there { is_some result ≡ is_inner bytes.now }
    ensures page { IfSome result (λ page. page ≡ bytes.now) }
{
    let page = Page::open(bytes)?;
    if page.level() == 0 {
        return None;
    }
    Some(page)
}

/// The key of the first of so many cells, where they are there.
fn first_key<'a>(page: &Page<'a>, place: usize, count: usize) -> Option<&'a [u8]>
    requires place { place < 2 ^ 16 }
    requires count { count < 2 ^ 16 }
    ensures there { is_some result ≡ effects.has_cells page.now place count }
    ensures key { IfSome result (λ key. key.now ≡ key_of page.now place) }
{
    if count == 0 || place + count > page.count() {
        return None;
    }
    page.key(place)
}
