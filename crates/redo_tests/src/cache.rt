// The cache: what it holds of each object after some calls.
use dirty_cache::Cache;
use oper_core::Memory;
use std::alloc::Global;

/// A call on a cache: of an object, with an LSN and a value of one byte.
#[derive(Clone, Copy)]
enum Call {
    Room(u32),
    Set(u32, u64, u8),
    Keep(u32, u64, u8),
    Clean(u32),
    View(u32),
}

use Call::{Clean, Keep, Room, Set, View};

fn seen(cache: &mut Cache, x: u32) -> Option<(u64, u8)> {
    let (lsn, bytes) = cache.view(x)?;
    Some((lsn, bytes.first().copied()?))
}

fn set(alloc: Global, cache: &mut Cache, x: u32, lsn: u64, byte: u8) -> Result<(), Memory> {
    cache.make_room(x)?;
    let bytes = [byte].to_vec(alloc)?;
    cache.set(x, lsn, bytes);
    Ok(())
}

fn keep(alloc: Global, cache: &mut Cache, x: u32, lsn: u64, byte: u8) -> Result<(), Memory> {
    let bytes = [byte].to_vec(alloc)?;
    if !cache.is_dirty(x) {
        cache.keep_clean(x, lsn, bytes);
    }
    Ok(())
}

fn clean(cache: &mut Cache, x: u32) {
    if cache.is_dirty(x) {
        cache.mark_clean(x);
    }
}

fn make(alloc: Global, cache: &mut Cache, call: Call) -> Result<(), Memory> {
    match call {
        Room(x) => cache.make_room(x)?,
        Set(x, lsn, byte) => set(alloc, cache, x, lsn, byte)?,
        Keep(x, lsn, byte) => keep(alloc, cache, x, lsn, byte)?,
        Clean(x) => clean(cache, x),
        View(x) => drop(seen(cache, x)),
    }
    Ok(())
}

/// What the objects 0 to 3 have, after these calls on a cache of two clean objects, and how many of all are dirty.
fn after(alloc: Global, calls: &[Call]) -> Result<(Vec<Option<(u64, u8)>>, usize), Memory> {
    let mut cache = Cache::new(alloc, 2)?;
    for call in calls {
        make(alloc, &mut cache, *call)?;
    }
    let mut views = Vec::new(alloc);
    for x in 0..4 {
        views.push(seen(&mut cache, x))?;
    }
    Ok((views, cache.dirty_count()))
}

fn holds(alloc: Global, calls: &[Call], views: &[Option<(u64, u8)>], dirty: usize) -> bool {
    match after(alloc, calls) {
        Ok((found, count)) => found.as_slice() == views && count == dirty,
        Err(_) => false,
    }
}

/// Calls, the views of the objects 0 to 3 after them, and how many objects are dirty then.
type Row = (&'static [Call], [Option<(u64, u8)>; 4], usize);

const NONE: [Option<(u64, u8)>; 4] = [None, None, None, None];

const FIRST: [Option<(u64, u8)>; 4] = [None, Some((1, 0xa1)), None, None];

const SECOND: [Option<(u64, u8)>; 4] = [None, Some((2, 0xb2)), None, None];

const LAST: [Row; 7] = [
    (&[], NONE, 0),
    (&[Room(1)], NONE, 0),
    (&[Set(1, 1, 0xa1)], FIRST, 1),
    (&[Set(1, 1, 0xa1), Clean(1)], FIRST, 0),
    (&[Set(1, 1, 0xa1), Set(1, 2, 0xb2)], SECOND, 1),
    (&[Keep(1, 1, 0xa1), Keep(1, 2, 0xb2)], SECOND, 0),
    (&[Keep(1, 1, 0xa1), Set(1, 2, 0xb2), Clean(1)], SECOND, 0),
];

const TWO_CLEAN: [Row; 5] = [
    (
        &[Keep(0, 1, 7), Keep(1, 2, 8), Keep(2, 3, 9)],
        [None, Some((2, 8)), Some((3, 9)), None],
        0,
    ),
    (
        &[Keep(0, 1, 7), Keep(1, 2, 8), View(0), Keep(2, 3, 9)],
        [Some((1, 7)), None, Some((3, 9)), None],
        0,
    ),
    (
        &[Set(0, 1, 7), Set(1, 2, 8), Set(2, 3, 9), Set(3, 4, 6)],
        [Some((1, 7)), Some((2, 8)), Some((3, 9)), Some((4, 6))],
        4,
    ),
    (
        &[
            Set(0, 1, 7),
            Set(1, 2, 8),
            Set(2, 3, 9),
            Clean(0),
            Clean(1),
            Clean(2),
        ],
        [None, Some((2, 8)), Some((3, 9)), None],
        0,
    ),
    (
        &[Set(0, 1, 7), Keep(1, 2, 8), Keep(2, 3, 9), Keep(3, 4, 6)],
        [Some((1, 7)), None, Some((3, 9)), Some((4, 6))],
        1,
    ),
];

fn all_hold(alloc: Global, rows: &[Row]) -> bool {
    let mut good = true;
    for (calls, views, dirty) in rows {
        good = good && holds(alloc, calls, views, *dirty);
    }
    good
}

#[test]
fn the_pair_given_last_is_found(rt: HostRuntime) {
    assert!(rt; all_hold(rt.alloc(), &LAST));
}

#[test]
fn two_clean_objects_stay_and_all_dirty_ones(rt: HostRuntime) {
    assert!(rt; all_hold(rt.alloc(), &TWO_CLEAN));
}
