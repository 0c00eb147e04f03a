ghost use Rattle.std.specs.Prelude.{◌≡◌, ◌<◌, ◌≤◌, ◌^◌, IsTrue, length};
ghost use Rattle.oper_core.specs.State.{is_among};
ghost use Rattle.write_graph.specs.Places.{place_in};
ghost use Rattle.write_graph.specs.Steps.{IsCellFor};

/// How many cells a slot has.
pub(crate) const CELLS: u32 = 8;

/// From which of its cells on a slot's entry writes.
const WRITES: u32 = 4;

/// The cell of a slot for the object, which is one of those that its entry writes.
pub(crate) fn own_cell(slot: u32, x: u32, objects: &[u32]) -> u32
    requires small { slot < 2 ^ 28 }
    requires there { IsTrue (is_among x objects.now) }
    requires few { length objects.now ≤ 4 }
    ensures { IsCellFor objects.now slot x result }
{
    CELLS * slot + WRITES + place_in(x, objects)
}

/// The first place of the object among the objects.
fn place_in(x: u32, objects: &[u32]) -> u32
    requires there { IsTrue (is_among x objects.now) }
    requires few { length objects.now ≤ 4 }
    ensures { result ≡ place_in x objects.now }
{
    let mut place = 0;
    for y in objects {
        if x == *y {
            return place;
        }
        place += 1;
    }
    unreachable!()
}
