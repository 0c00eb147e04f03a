ghost use Rattle.std.specs.Prelude.{◌≡◌, ◌≤◌, ◌^◌, length, map, min};
ghost use Rattle.std.specs.Vec.{vec_capacity};
ghost use Rattle.write_graph.specs.Places.{NeverFall};

use crate::places::slot_after;

/// Lowers the LSNs that are above `n` to `n`, which stand last.
pub(crate) fn lower_last(n: u64, lsns: &mut Vec<u64>)
    requires rising { NeverFall lsns.old.items }
    requires small { length lsns.old.items ≤ 2 ^ 28 }
    ensures lowered { lsns.new.items ≡ map (λ k. min k n) lsns.old.items }
    ensures capacity { vec_capacity lsns.new ≡ vec_capacity lsns.old }
{
    let from = slot_after(n, lsns.as_slice());
    for slot in from..lsns.len() as u32 {
        lsns[slot as usize] = n;
    }
}
