//! The pages that the operations make of bytes.

ghost use Rattle.std.specs.Prelude.{◌≡◌, Ok, Err, IfSome, is_some, if◌then◌else◌};
ghost use Rattle.oper_core.specs.declared.refusal.Refusal.TheVariants.{NotNode};
ghost use Rattle.page_ops.specs.Effects as effects;
ghost use Rattle.page_ops.specs.Reading.{is_leaf, opens};
ghost use Rattle.page_ops.specs.Seen.{made_seen};

use crate::Page;
use crate::layout::{Cells, Layout, NewCells};
use oper_core::Refusal;

/// A page that is made, or the empty value, or why nothing is made.
pub(crate) type Made<'a> = Result<Option<Layout<'a>>, Refusal>;

/// A cell comes in before that of a place.
pub(crate) fn put<'a>(bytes: &'a [u8], place: u16, key: &'a [u8], value: &'a [u8]) -> Made<'a>
    ensures { made_seen result ≡ effects.put_made place key.now value.now bytes.now }
{
    match leaf(bytes) {
        Some(page) => put_in(&page, place, key, value),
        None => Err(Refusal::NotNode),
    }
}

/// The same of the page.
fn put_in<'a>(page: &Page<'a>, place: u16, key: &'a [u8], value: &'a [u8]) -> Made<'a>
    ensures { made_seen result ≡ effects.put_in place key.now value.now page.now }
{
    let place = place as usize;
    if !page.goes_in(place, key) {
        return Err(Refusal::BadPlace);
    }
    Ok(Some(Layout {
        level: 0,
        front: page.part(0, place),
        new: NewCells::Entry { key, value },
        back: page.part(place, page.count()),
    }))
}

/// The bytes of a leaf in which a cell is put: the empty value is one without cells.
pub(crate) fn to_fill(bytes: &[u8]) -> &[u8]
    ensures { result.now ≡ effects.to_fill bytes.now }
{
    if bytes.is_empty() {
        return b"\x05\x00\x00\x00".as_slice();
    }
    bytes
}

/// The cell of a place gets another value.
pub(crate) fn set<'a>(bytes: &'a [u8], place: u16, value: &'a [u8]) -> Made<'a>
    ensures { made_seen result ≡ effects.set_made place value.now bytes.now }
{
    match leaf(bytes) {
        Some(page) => set_in(&page, place, value),
        None => Err(Refusal::NotNode),
    }
}

/// The same of the page.
fn set_in<'a>(page: &Page<'a>, place: u16, value: &'a [u8]) -> Made<'a>
    ensures { made_seen result ≡ effects.set_in place value.now page.now }
{
    let place = place as usize;
    let Some(key) = page.key(place) else {
        return Err(Refusal::BadPlace);
    };
    Ok(Some(Layout {
        level: 0,
        front: page.part(0, place),
        new: NewCells::Entry { key, value },
        back: page.part(place + 1, page.count()),
    }))
}

/// The cell of a place goes.
pub(crate) fn delete<'a>(bytes: &'a [u8], place: u16) -> Made<'a>
    ensures { made_seen result ≡ effects.delete_made place bytes.now }
{
    match leaf(bytes) {
        Some(page) => delete_in(&page, place),
        None => Err(Refusal::NotNode),
    }
}

/// The same of the page.
fn delete_in<'a>(page: &Page<'a>, place: u16) -> Made<'a>
    ensures { made_seen result ≡ effects.delete_in place page.now }
{
    let place = place as usize;
    if page.key(place).is_none() {
        return Err(Refusal::BadPlace);
    }
    Ok(Some(Layout {
        level: 0,
        front: page.part(0, place),
        new: NewCells::Nothing,
        back: page.part(place + 1, page.count()),
    }))
}

/// The cells from one place up to another, as a page of their own.
pub(crate) fn part(bytes: &[u8], from: u16, to: u16) -> Made<'_>
    ensures { made_seen result ≡ effects.part_made from to bytes.now }
{
    let page = opened(bytes)?;
    let (from, to) = (from as usize, to as usize);
    if from > to || to > page.count() {
        return Err(Refusal::BadPlace);
    }
    Ok(Some(Layout {
        level: page.level(),
        front: page.part(from, to),
        new: NewCells::Nothing,
        back: Cells::none(),
    }))
}

/// The first cells of another page come behind those of the page.
pub(crate) fn absorb<'a>(bytes: &'a [u8], other: &'a [u8], count: u16) -> Made<'a>
    ensures { made_seen result ≡ effects.absorb_made count bytes.now other.now }
{
    match alike(bytes, other) {
        Some((page, behind)) => absorb_in(&page, &behind, count),
        None => Err(Refusal::NotNode),
    }
}

/// The same of the pages.
fn absorb_in<'a>(page: &Page<'a>, behind: &Page<'a>, count: u16) -> Made<'a>
    ensures { made_seen result ≡ effects.absorb_in count page.now behind.now }
{
    let count = count as usize;
    if count > behind.count() {
        return Err(Refusal::BadPlace);
    }
    Ok(Some(Layout {
        level: page.level(),
        front: page.part(0, page.count()),
        new: NewCells::Nothing,
        back: behind.part(0, count),
    }))
}

/// Cells of two pages together, as a page of their own.
pub(crate) fn join<'a>(bytes: &'a [u8], other: &'a [u8], from: u16, to: u16) -> Made<'a>
    ensures { made_seen result ≡ effects.join_made from to bytes.now other.now }
{
    match alike(bytes, other) {
        Some((page, behind)) => join_in(&page, &behind, from, to),
        None => Err(Refusal::NotNode),
    }
}

/// The same of the pages.
fn join_in<'a>(page: &Page<'a>, behind: &Page<'a>, from: u16, to: u16) -> Made<'a>
    ensures { made_seen result ≡ effects.join_in from to page.now behind.now }
{
    let (from, to) = (from as usize, to as usize);
    let count = page.count();
    if from > to || to > count + behind.count() {
        return Err(Refusal::BadPlace);
    }
    Ok(Some(Layout {
        level: page.level(),
        front: page.part(lesser(from, count), lesser(to, count)),
        new: NewCells::Nothing,
        back: behind.part(from.saturating_sub(count), to.saturating_sub(count)),
    }))
}

/// The page that the bytes are, by their head.
fn opened(bytes: &[u8]) -> Result<Page<'_>, Refusal>
    ensures { result ≡ if opens bytes.now then Ok bytes.now else Err NotNode }
{
    match Page::open(bytes) {
        Some(page) => Ok(page),
        None => Err(Refusal::NotNode),
    }
}

/// The leaf that they are.
fn leaf(bytes: &[u8]) -> Option<Page<'_>>
    ensures there { is_some result ≡ is_leaf bytes.now }
    ensures page { IfSome result (λ page. page ≡ bytes.now) }
{
    let page = Page::open(bytes)?;
    if page.level() != 0 {
        return None;
    }
    Some(page)
}

/// Two pages of one level.
fn alike<'a>(bytes: &'a [u8], other: &'a [u8]) -> Option<(Page<'a>, Page<'a>)>
    ensures there { is_some result ≡ effects.are_alike bytes.now other.now }
    ensures pages { IfSome result (λ pages. (pages.0 ≡ bytes.now) × (pages.1 ≡ other.now)) }
{
    let page = Page::open(bytes)?;
    let behind = Page::open(other)?;
    if page.level() != behind.level() {
        return None;
    }
    Some((page, behind))
}

/// The lesser of two places.
fn lesser(place: usize, count: usize) -> usize
    ensures { result ≡ effects.lesser place count }
{
    if place <= count { place } else { count }
}
