// The way down through the pages where the span of their keys is carried along, and which cells of a leaf stand in a span.
ghost use Rattle.std.specs.Prelude.{◌≡◌, option_map};
ghost use Rattle.page_map.specs.Map as maps;
ghost use Rattle.page_map.specs.Steps as steps;
ghost use Rattle.page_map.specs.Steps.{step_seen};

use crate::beside::Beside;
use crate::map::Map;
use crate::places::Places;
use crate::step::Step;
use page_ops::Page;
use std::cmp::Ordering;

/// Whether a key is below an end.
fn is_below(key: &[u8], end: Option<&[u8]>) -> bool
    ensures { result ≡ maps.is_below key.now (option_map (λ end. end.now) end.entry) }
{
    match end {
        None => true,
        Some(end) => match key.cmp(end) {
            Ordering::Less => true,
            Ordering::Equal | Ordering::Greater => false,
        },
    }
}

/// Of two ends the one that is met first.
fn sooner<'a>(one: Option<&'a [u8]>, other: Option<&'a [u8]>) -> Option<&'a [u8]>
    ensures { option_map (λ end. end.now) result ≡ steps.sooner (option_map (λ end. end.now) one.entry) (option_map (λ end. end.now) other.entry) }
{
    match one {
        Some(key) => { if is_below(key, other) { one } else { other } }
        None => other,
    }
}

/// How many cells of a page, from the front, have keys below an end. None where a cell that is asked does not fit.
pub fn front_in(page: &Page, end: Option<&[u8]>) -> Option<usize>
    ensures { result ≡ steps.front_in page.now (option_map (λ end. end.now) end.entry) }
{
    match end {
        None => Some(page.count()),
        Some(end) => page.seek(end),
    }
}

/// The last cell whose key is below an end.
fn last_below(page: &Page, end: Option<&[u8]>) -> Option<usize>
    ensures { result ≡ steps.last_below (option_map (λ end. end.now) end.entry) page.now }
{
    let front = front_in(page, end)?;
    if front == 0 {
        return None;
    }
    Some(front - 1)
}

/// The next key, where there is one below the end of the page's span. None where a cell that is asked does not fit.
fn next_end<'a>(page: &Page<'a>, to: Option<&[u8]>, i: usize) -> Option<Option<&'a [u8]>>
    ensures { option_map (option_map (λ key. key.now)) result ≡ steps.next_end page.now (option_map (λ end. end.now) to.entry) i }
{
    let count = page.count();
    if i >= count {
        return None;
    }
    if i + 1 == count {
        return Some(None);
    }
    let key = page.key(i + 1)?;
    if is_below(key, to) {
        Some(Some(key))
    } else {
        Some(None)
    }
}

/// The cells of a leaf whose keys stand from `from` on and below `to`, and below the end of the leaf's own span. None where a
/// cell that is asked does not fit.
pub fn places_in(leaf: &Page, from: &[u8], to: Option<&[u8]>, end: Option<&[u8]>) -> Option<Places>
    ensures { result ≡ steps.places_in leaf.now (record { from = from.now; to = option_map (λ end. end.now) to.entry }) (option_map (λ end. end.now) end.entry) }
{
    let _count = leaf.count();
    let first = leaf.seek(from)?;
    let behind = front_in(leaf, sooner(to, end))?;
    Some(Places::between(first, behind))
}

impl Map {
    /// The step down to the child of a cell, in a page whose span ends at `to`. None where a cell that is asked does not fit, or
    /// names no object of the range.
    fn step<'a>(&self, page: &Page<'a>, to: Option<&[u8]>, i: usize) -> Option<Step<'a>>
        ensures { option_map step_seen result ≡ steps.step_in self.now.lo self.now.hi page.now (option_map (λ end. end.now) to.entry) i }
    {
        let _count = page.count();
        let child = self.child(page, i)?;
        let end = next_end(page, to, i)?;
        let from = page.key(i)?;
        Some(Step {
            place: i as u16,
            object: child,
            from,
            end,
        })
    }

    /// The step down to the child under which a key stands.
    pub fn step_under<'a>(&self, page: &Page<'a>, to: Option<&[u8]>, key: &[u8]) -> Option<Step<'a>>
        ensures { option_map step_seen result ≡ steps.step_under self.now.lo self.now.hi page.now (option_map (λ end. end.now) to.entry) key.now }
    {
        let place = page.under(key)?;
        self.step(page, to, place)
    }

    /// The step down to the last child that begins below an end.
    pub fn step_below<'a>(
        &self,
        page: &Page<'a>,
        to: Option<&[u8]>,
        end: Option<&[u8]>,
    ) -> Option<Step<'a>>
        ensures { option_map step_seen result ≡ steps.step_below self.now.lo self.now.hi page.now (option_map (λ end. end.now) to.entry) (option_map (λ end. end.now) end.entry) }
    {
        let place = last_below(page, end)?;
        self.step(page, to, place)
    }

    /// The child beside the one of a place in its page, within its span: the next one where there is one (`has_next`), else the
    /// one before it. None where the cell does not fit, or names no object of the range.
    pub fn beside(&self, page: &Page, place: u16, has_next: bool) -> Option<Beside>
        ensures { result ≡ steps.beside_in self.now.lo self.now.hi page.now place has_next }
    {
        if has_next {
            let object = self.child(page, place as usize + 1)?;
            return Some(Beside::Next { object });
        }
        if place == 0 {
            return Some(Beside::Only);
        }
        let object = self.child(page, place as usize - 1)?;
        Some(Beside::Before { object })
    }

    /// The one child of a page, where it has one. None where its cell does not fit, or names no object of the range.
    pub fn only_child(&self, page: &Page) -> Option<Option<u32>>
        ensures { result ≡ steps.only_child self.now.lo self.now.hi page.now }
    {
        if page.count() != 1 {
            return Some(None);
        }
        let child = self.child(page, 0)?;
        Some(Some(child))
    }
}
