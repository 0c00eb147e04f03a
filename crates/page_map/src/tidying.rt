// The commands that tidy the way to a key from which a leaf has become empty.
ghost use Rattle.std.specs.Prelude.{◌≡◌, Some, option_map};
ghost use Rattle.page_ops.specs.Reading.{count_in};
ghost use Rattle.page_map.specs.Deletes as deletes;
ghost use Rattle.page_map.specs.Deletes.{listed};
ghost use Rattle.page_map.specs.Steps.{front_in as front_of};

use crate::stepping::front_in;
use page_ops::{Page, PageOp};

/// The commands by which one of two leaves beside each other, of which the first has this place in the page above, takes the place
/// of both, and the other goes.
pub fn takes_both(page: u32, place: u16, stays: u32, goes: u32) -> (PageOp, Option<PageOp>)
    ensures { listed result ≡ deletes.takes_both page place stays goes }
{
    let turn = PageOp::Turn {
        page,
        place,
        count: 2,
        child: stays,
    };
    (turn, Some(PageOp::Free { page: goes }))
}

/// The commands by which the leaf of this place takes the place of the next one, too, which begins at `end`. Where it has cells
/// from there on, these go first. None where a cell that is asked does not fit.
pub fn before_takes(
    page: u32,
    place: u16,
    stays: u32,
    goes: u32,
    leaf: &Page,
    end: &[u8],
) -> Option<(PageOp, Option<PageOp>)>
    ensures { option_map listed result ≡ option_map (deletes.before_takes page place stays goes leaf.now) (front_of leaf.now (Some end.now)) }
{
    let count = front_in(leaf, Some(end))?;
    if count < leaf.count() {
        let keep = PageOp::Keep {
            page: stays,
            count: count as u16,
        };
        return Some((keep, None));
    }
    Some(takes_both(page, place, stays, goes))
}

/// The commands by which the one child of a root goes, since the root takes its cells.
pub fn root_takes(root: u32, child: u32, page: &Page) -> (PageOp, Option<PageOp>)
    ensures { listed result ≡ deletes.root_takes root child (count_in page.now) }
{
    let part = PageOp::Part {
        new: root,
        page: child,
        from: 0,
        to: page.count() as u16,
    };
    (part, Some(PageOp::Free { page: child }))
}
