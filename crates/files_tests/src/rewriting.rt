// A rewrite on a machine in memory, stopped after each of its calls.
use crate::log::CRASHES;
use crate::records::{BOUNDS, four_records, loaded};
use crate::shortening::shorten;
use dirty_page_table::Starts;
use disk_model::{Crash, Fuse};
use std::alloc::Global;
use std::test::Fail;

// The base of the log after a crash, where a rewrite from base 2 on is stopped after so many calls, and whether it answers
// Ok.
fn base_after(alloc: Global, calls: u64, how: Crash) -> Result<(u64, bool), Fail> {
    let (mut machine, _) = four_records(alloc)?;
    let mut log = loaded(alloc, &mut machine, BOUNDS)?;
    let mut fuse = Fuse::new(machine, calls);
    let is_ok = shorten(&mut log, &mut fuse, 2, Starts::new(Vec::new(alloc))).is_ok();
    drop(log);
    let mut left = fuse.into_inner().crash(how);
    let found = loaded(alloc, &mut left, BOUNDS)?;
    let base = found.base();
    drop(found);
    Ok((base, is_ok))
}

// How many calls the rewrite makes.
fn calls_of_a_rewrite(alloc: Global) -> Result<u64, Fail> {
    for calls in 0..64u64 {
        let (_, is_ok) = base_after(alloc, calls, Crash::New)?;
        if is_ok {
            return Ok(calls);
        }
    }
    Ok(64)
}

// After how many of the crashes the log has its new base.
fn renewed(alloc: Global, calls: u64) -> Result<u32, Fail> {
    let mut count = 0u32;
    for how in CRASHES {
        let (base, _) = base_after(alloc, calls, how)?;
        if base == 2 {
            count = count.saturating_add(1);
        }
    }
    Ok(count)
}

#[test]
fn a_stopped_rewrite_leaves_the_old_log_or_the_new_one(rt: HostRuntime) -> Result<(), Fail> {
    let all = calls_of_a_rewrite(rt.alloc())?;
    for calls in 0..64u64 {
        let count = renewed(rt.alloc(), calls)?;

        // The last two calls write the open header gate and sync it.
        let wanted = if calls >= all {
            6
        } else if calls + 1 == all {
            2
        } else {
            0
        };
        assert!(rt; count == wanted, "after {calls} calls");
    }
    Ok(())
}
