// The calls of C on maps of wide pages.
ghost use Rattle.std.specs.Prelude.{◌≡◌, drop, nat_le};
ghost use Rattle.embed_c.specs.Answers.{told};
ghost use Rattle.embed_c.specs.Handles.{OnSession, session_of};
ghost use Rattle.embed_c.specs.PageMaps as maps;
ghost use Rattle.embed_c.specs.PageMaps.{IfInOrder, IsFound, Sets, TellsMany, keys_from, map_back, map_count, map_delete, map_get, map_next, map_prev, map_range, of_map};
ghost use Rattle.embed_c.specs.Ranges.{GivesFirst, GivesNothing, OnRange, TellsFound, told_found};

use crate::handle::Redo;
use crate::maps::{Lengths, Range};
use std::alloc::Global;

const NOT_OPEN: u32 = 64;

#[unsafe(no_mangle)]
pub extern "C" fn redo_core_map_set(
    alloc: Global,
    redo: &mut Redo,
    range: &Range,
    key: &[u8],
    value: &[u8],
) -> u32
    ensures { OnSession (IfInOrder (nat_le range.now.low range.now.high) (Sets range.now.low range.now.high key.now value.now)) (session_of redo.old) (session_of redo.new) result }
{
    match redo.take(alloc) {
        None => NOT_OPEN,
        Some(mut session) => {
            let answer = session.map_set(*range, key, value);
            redo.put_back(session);
            answer
        }
    }
}

#[unsafe(no_mangle)]
pub extern "C" fn redo_core_map_delete(
    alloc: Global,
    redo: &mut Redo,
    range: &Range,
    key: &[u8],
) -> u32
    ensures { OnSession (IfInOrder (nat_le range.now.low range.now.high) (OnRange (map_delete range.now.low range.now.high key.now) (told of_map) GivesNothing)) (session_of redo.old) (session_of redo.new) result }
{
    match redo.take(alloc) {
        None => NOT_OPEN,
        Some(mut session) => {
            let answer = session.map_delete(*range, key);
            redo.put_back(session);
            answer
        }
    }
}

#[unsafe(no_mangle)]
pub extern "C" fn redo_core_map_get(
    alloc: Global,
    redo: &mut Redo,
    range: &Range,
    key: &[u8],
    into: &mut [u8],
    length: &mut u64,
) -> u32
    ensures { OnSession (IfInOrder (nat_le range.now.low range.now.high) (OnRange (map_get range.now.low range.now.high key.now) (told_found of_map) (λ made. TellsFound made into.old into.new length.new))) (session_of redo.old) (session_of redo.new) result }
{
    match redo.take(alloc) {
        None => NOT_OPEN,
        Some(mut session) => {
            let answer = session.map_get(*range, key, into, length);
            redo.put_back(session);
            answer
        }
    }
}

#[unsafe(no_mangle)]
pub extern "C" fn redo_core_map_count(
    alloc: Global,
    redo: &mut Redo,
    range: &Range,
    from: &[u8],
    to: &[u8],
    count: &mut u64,
) -> u32
    ensures { OnSession (IfInOrder (nat_le range.now.low range.now.high) (OnRange (map_count range.now.low range.now.high (keys_from from.now to.now)) (told of_map) (λ made. TellsMany made count.new))) (session_of redo.old) (session_of redo.new) result }
{
    match redo.take(alloc) {
        None => NOT_OPEN,
        Some(mut session) => {
            let answer = session.map_count(*range, from, to, count);
            redo.put_back(session);
            answer
        }
    }
}

#[unsafe(no_mangle)]
pub extern "C" fn redo_core_map_range(
    alloc: Global,
    redo: &mut Redo,
    range: &Range,
    from: &[u8],
    to: &[u8],
    most: u32,
    count: &mut u64,
) -> u32
    ensures { OnSession (IfInOrder (nat_le range.now.low range.now.high) (IsFound (map_range range.now.low range.now.high (keys_from from.now to.now) most) count.new)) (session_of redo.old) (session_of redo.new) result }
{
    match redo.take(alloc) {
        None => NOT_OPEN,
        Some(mut session) => {
            let answer = session.map_range(*range, from, to, most, count);
            redo.put_back(session);
            answer
        }
    }
}

#[unsafe(no_mangle)]
pub extern "C" fn redo_core_map_back(
    alloc: Global,
    redo: &mut Redo,
    range: &Range,
    from: &[u8],
    to: &[u8],
    most: u32,
    count: &mut u64,
) -> u32
    ensures { OnSession (IfInOrder (nat_le range.now.low range.now.high) (IsFound (map_back range.now.low range.now.high (keys_from from.now to.now) most) count.new)) (session_of redo.old) (session_of redo.new) result }
{
    match redo.take(alloc) {
        None => NOT_OPEN,
        Some(mut session) => {
            let answer = session.map_back(*range, from, to, most, count);
            redo.put_back(session);
            answer
        }
    }
}

#[unsafe(no_mangle)]
pub extern "C" fn redo_core_map_next(
    alloc: Global,
    redo: &mut Redo,
    range: &Range,
    key: &[u8],
    count: &mut u64,
) -> u32
    ensures { OnSession (IfInOrder (nat_le range.now.low range.now.high) (IsFound (map_next range.now.low range.now.high key.now) count.new)) (session_of redo.old) (session_of redo.new) result }
{
    match redo.take(alloc) {
        None => NOT_OPEN,
        Some(mut session) => {
            let answer = session.map_next(*range, key, count);
            redo.put_back(session);
            answer
        }
    }
}

#[unsafe(no_mangle)]
pub extern "C" fn redo_core_map_prev(
    alloc: Global,
    redo: &mut Redo,
    range: &Range,
    key: &[u8],
    count: &mut u64,
) -> u32
    ensures { OnSession (IfInOrder (nat_le range.now.low range.now.high) (IsFound (map_prev range.now.low range.now.high (maps.end_of key.now)) count.new)) (session_of redo.old) (session_of redo.new) result }
{
    match redo.take(alloc) {
        None => NOT_OPEN,
        Some(mut session) => {
            let answer = session.map_prev(*range, key, count);
            redo.put_back(session);
            answer
        }
    }
}

#[unsafe(no_mangle)]
pub extern "C" fn redo_core_map_pair(
    alloc: Global,
    redo: &mut Redo,
    pair: u64,
    key: &mut [u8],
    value: &mut [u8],
    lengths: &mut Lengths,
) -> u32
    ensures { OnSession (λ old new answer. GivesFirst key.old key.new value.old value.new lengths.new (drop pair old.pairs.of_map.items) answer × (new ≡ old)) (session_of redo.old) (session_of redo.new) result }
{
    match redo.take(alloc) {
        None => NOT_OPEN,
        Some(session) => {
            let answer = session.map_pair(pair, key, value, lengths);
            redo.put_back(session);
            answer
        }
    }
}
