// The commands of a turn that cuts a page.
ghost use Rattle.std.specs.Prelude.{◌≡◌, List, ℕ, None, Option, Some, Ok, take};
ghost use Rattle.page_map.specs.Cutting.{due_seen, turn_told, two_of};
ghost use Rattle.page_map.specs.Sets as sets;
ghost use Rattle.page_map.specs.Sets.{cut_turn};

use crate::cut::Cut;
use crate::due::Due;
use crate::few::Few;
use crate::refusal::MapRefusal;
use page_ops::PageOp;

/// No page stands above one of this level.
const LEVEL_END: u8 = 255;

/// One command.
fn one(first: PageOp) -> Few
    ensures { result ≡ record { first = first; second = None; third = None } }
{
    Few {
        first,
        second: None,
        third: None,
    }
}

/// Three commands.
fn three(first: PageOp, second: PageOp, third: PageOp) -> Few
    ensures { result ≡ record { first = first; second = Some second; third = Some third } }
{
    Few {
        first,
        second: Some(second),
        third: Some(third),
    }
}

/// A page under another is cut.
fn child_split(cut: Cut, page: u32, place: u16, first: Option<u32>) -> Result<Few, MapRefusal>
    ensures { (second : Option ℕ) → turn_told result ≡ sets.child_split cut page place (two_of first second) }
{
    let Some(new) = first else {
        return Err(MapRefusal::MapFull);
    };
    let part = PageOp::Part {
        new,
        page: cut.object,
        from: cut.place,
        to: cut.count,
    };
    let keep = PageOp::Keep {
        page: cut.object,
        count: cut.place,
    };
    let turn = PageOp::TurnTwo {
        page,
        place,
        count: 1,
        child: cut.object,
        key: cut.key,
        second: new,
    };
    Ok(three(part, turn, keep))
}

/// The root is cut.
fn root_split(cut: Cut, first: Option<u32>, second: Option<u32>) -> Result<Few, MapRefusal>
    ensures { turn_told result ≡ sets.root_split cut (two_of first second) }
{
    let (Some(left), Some(right)) = (first, second) else {
        return Err(MapRefusal::MapFull);
    };
    if cut.level >= LEVEL_END {
        return Err(MapRefusal::MapFull);
    }
    Ok(three(
        PageOp::Part {
            new: left,
            page: cut.object,
            from: 0,
            to: cut.place,
        },
        PageOp::Part {
            new: right,
            page: cut.object,
            from: cut.place,
            to: cut.count,
        },
        PageOp::Root {
            page: cut.object,
            level: cut.level + 1,
            left,
            key: cut.key,
            right,
        },
    ))
}

/// The commands of the turn by which a page is cut, or cells past its span go, where the first two free objects of the range behind
/// the root are these.
pub fn commands_of(
    root: u32,
    due: Due,
    first: Option<u32>,
    second: Option<u32>,
) -> Result<Few, MapRefusal>
    ensures { (free : List ℕ) → take 2 free ≡ two_of first second → turn_told result ≡ cut_turn root free (Ok (due_seen due)) }
{
    match due {
        Due::Fits => Err(MapRefusal::BadMap { object: root }),
        Due::Asks(cut) => root_split(cut, first, second),
        Due::Granted { cut, page, place } => {
            if cut.has_past {
                return Ok(one(PageOp::Keep {
                    page: cut.object,
                    count: cut.count,
                }));
            }
            child_split(cut, page, place, first)
        }
    }
}
