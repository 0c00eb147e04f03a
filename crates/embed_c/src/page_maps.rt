// Maps of wide pages in ranges of objects; where a transaction is open, within it.
ghost use Rattle.std.specs.Prelude.{◌≡◌, ◌≤◌, ◌⊎◌, None, Some, IfErr, IfOk, drop, if◌then◌else◌, length, nat_le, option_map};
ghost use Rattle.embed_c.specs.Answers.{told};
ghost use Rattle.embed_c.specs.PageMaps as maps;
ghost use Rattle.embed_c.specs.PageMaps.{IfInOrder, IsFound, KeepsPairs, Sets, TellsMany, bytes_of, keys_from, map_back, map_count, map_delete, map_get, map_next, map_prev, map_range, of_map, pairs_of, seen_as};
ghost use Rattle.embed_c.specs.Ranges.{GivesFirst, GivesNothing, OnRange, TellsFound, told_found};

use crate::answer::{Answer, map_answer, map_found};
use crate::maps::{Lengths, NO_KEY, NO_OBJECT, Range, copy_front, give_pair};
use crate::session::Session;
use map_client::MapErr;
use oper_core::ByteList;
use page_map::Map;
use page_ops::Text;
use std::alloc::Global;

const MEMORY: u32 = 8;

/// The answer where a key or a value is longer than pages of the store take.
const TOO_LONG: u32 = 52;

/// A key or a value of any map has fewer bytes.
const TEXT_END: usize = 65_536;

impl Range {
    // The map in it; none where its last object is below its first.
    fn map(self) -> Option<Map>
        ensures { result ≡ (if nat_le self.low self.high then Some (record { lo = self.low; hi = self.high }) else None) }
    {
        Map::new(self.low, self.high)
    }
}

// A copy of a key or a value; the answer where it is too long, or memory runs out.
fn text(alloc: Global, bytes: &[u8]) -> Result<Text, u32>
    ensures text { IfOk result (λ text. text ≡ bytes.now) }
    ensures cause { IfErr result (λ number. ((65536 ≤ length bytes.now) × (number ≡ 52)) ⊎ (number ≡ 8)) }
{
    if bytes.len() >= TEXT_END {
        return Err(TOO_LONG);
    }
    let Ok(copy) = Vec::from_slice(alloc, bytes) else {
        return Err(MEMORY);
    };
    match Text::new(copy) {
        Some(text) => Ok(text),
        None => Err(TOO_LONG),
    }
}

// Copies of a key and a value.
fn texts(alloc: Global, key: &[u8], value: &[u8]) -> Result<(Text, Text), u32>
    ensures texts { IfOk result (λ pair. pair ≡ (key.now, value.now)) }
    ensures cause { IfErr result (λ number. ((65536 ≤ length key.now ⊎ 65536 ≤ length value.now) × (number ≡ 52)) ⊎ (number ≡ 8)) }
{
    let key = text(alloc, key)?;
    let value = text(alloc, value)?;
    Ok((key, value))
}

// Where what is read of a map ends: below a key, or, where that has no bytes, at the end of the map.
fn end_of(key: &[u8]) -> Option<&[u8]>
    ensures { option_map (λ end. end.now) result ≡ maps.end_of key.now }
{
    if key.is_empty() { None } else { Some(key) }
}

// Gives the value that was found, and writes how long it is.
fn put_value(made: &Result<Option<Vec<u8>>, MapErr>, into: &mut [u8], length: &mut u64)
    ensures { TellsFound (seen_as bytes_of made.now) into.old into.new length.new }
{
    if let Ok(Some(value)) = made {
        copy_front(value.as_slice(), into);
        *length = value.len() as u64;
    }
}

// Writes how many pairs were counted.
fn put_many(made: &Result<u64, MapErr>, count: &mut u64)
    ensures { TellsMany made.now count.new }
{
    if let Ok(n) = made {
        *count = *n;
    }
}

impl Session {
    /// Gives a key of a map this value.
    pub fn map_set(&mut self, range: Range, key: &[u8], value: &[u8]) -> u32
        ensures { IfInOrder (nat_le range.low range.high) (Sets range.low range.high key.now value.now) self.old self.new result }
    {
        let Some(map) = range.map() else {
            return self.refuse(NO_OBJECT);
        };
        match texts(self.alloc, key, value) {
            Ok(pair) => {
                let (key, value) = pair;
                let answer = map_answer(self.set_in_map(&map, key, value));
                self.detail = answer.detail;
                answer.number
            }
            Err(number) => self.refuse(number),
        }
    }

    /// Deletes a key of a map, and its value.
    pub fn map_delete(&mut self, range: Range, key: &[u8]) -> u32
        ensures { IfInOrder (nat_le range.low range.high) (OnRange (map_delete range.low range.high key.now) (told of_map) GivesNothing) self.old self.new result }
    {
        let Some(map) = range.map() else {
            return self.refuse(NO_OBJECT);
        };
        let answer = map_answer(self.delete_in_map(&map, key));
        self.detail = answer.detail;
        answer.number
    }

    /// Gives the value of a key of a map, as much of it as there is room for, and says how long it is.
    pub fn map_get(&mut self, range: Range, key: &[u8], into: &mut [u8], length: &mut u64) -> u32
        ensures { IfInOrder (nat_le range.low range.high) (OnRange (map_get range.low range.high key.now) (told_found of_map) (λ made. TellsFound made into.old into.new length.new)) self.old self.new result }
    {
        let Some(map) = range.map() else {
            return self.refuse(NO_OBJECT);
        };
        let made = self.get_in_map(&map, key);
        put_value(&made, into, length);
        let answer = map_found(made);
        self.detail = answer.detail;
        answer.number
    }

    /// Says how many pairs of a map have keys from `from` on and below `to`, or all behind `from` where that has no bytes.
    pub fn map_count(&mut self, range: Range, from: &[u8], to: &[u8], count: &mut u64) -> u32
        ensures { IfInOrder (nat_le range.low range.high) (OnRange (map_count range.low range.high (keys_from from.now to.now)) (told of_map) (λ made. TellsMany made count.new)) self.old self.new result }
    {
        let Some(map) = range.map() else {
            return self.refuse(NO_OBJECT);
        };
        let made = self.count_in_map(&map, from, end_of(to));
        put_many(&made, count);
        let answer = map_answer(made);
        self.detail = answer.detail;
        answer.number
    }

    // Keeps the pairs that were found, and says how many they are.
    fn keep_pairs(
        &mut self,
        made: Result<Vec<(ByteList, ByteList)>, MapErr>,
        count: &mut u64,
    ) -> u32
        ensures { KeepsPairs (seen_as pairs_of made) count.new self.old self.new result }
    {
        match made {
            Ok(pairs) => {
                *count = pairs.len() as u64;
                self.pairs.of_map = pairs;
                self.detail = Answer::done().detail;
                0
            }
            Err(cause) => {
                let answer = Answer::of_map(cause);
                self.detail = answer.detail;
                answer.number
            }
        }
    }

    /// Finds the first of them, at most so many, and says how many they are. They are kept until the next such call that is done.
    pub fn map_range(
        &mut self,
        range: Range,
        from: &[u8],
        to: &[u8],
        most: u32,
        count: &mut u64,
    ) -> u32
        ensures { IfInOrder (nat_le range.low range.high) (IsFound (map_range range.low range.high (keys_from from.now to.now) most) count.new) self.old self.new result }
    {
        let Some(map) = range.map() else {
            return self.refuse(NO_OBJECT);
        };
        let made = self.range_in_map(&map, from, end_of(to), most);
        self.keep_pairs(made, count)
    }

    /// The same of the last ones, by falling key.
    pub fn map_back(
        &mut self,
        range: Range,
        from: &[u8],
        to: &[u8],
        most: u32,
        count: &mut u64,
    ) -> u32
        ensures { IfInOrder (nat_le range.low range.high) (IsFound (map_back range.low range.high (keys_from from.now to.now) most) count.new) self.old self.new result }
    {
        let Some(map) = range.map() else {
            return self.refuse(NO_OBJECT);
        };
        let made = self.back_in_map(&map, from, end_of(to), most);
        self.keep_pairs(made, count)
    }

    /// The same of the first pair above a key.
    pub fn map_next(&mut self, range: Range, key: &[u8], count: &mut u64) -> u32
        ensures { IfInOrder (nat_le range.low range.high) (IsFound (map_next range.low range.high key.now) count.new) self.old self.new result }
    {
        let Some(map) = range.map() else {
            return self.refuse(NO_OBJECT);
        };
        let made = self.next_in_map(&map, key);
        self.keep_pairs(made, count)
    }

    /// The same of the last pair below a key, or of all where that has no bytes.
    pub fn map_prev(&mut self, range: Range, key: &[u8], count: &mut u64) -> u32
        ensures { IfInOrder (nat_le range.low range.high) (IsFound (map_prev range.low range.high (maps.end_of key.now)) count.new) self.old self.new result }
    {
        let Some(map) = range.map() else {
            return self.refuse(NO_OBJECT);
        };
        let made = self.prev_in_map(&map, end_of(key));
        self.keep_pairs(made, count)
    }

    /// Gives a pair that was found last, counted from 0, as much of it as there is room for, and says how long its parts are.
    pub fn map_pair(
        &self,
        pair: u64,
        key: &mut [u8],
        value: &mut [u8],
        lengths: &mut Lengths,
    ) -> u32
        ensures { GivesFirst key.old key.new value.old value.new lengths.new (drop pair self.now.pairs.of_map.items) result }
    {
        let Some(found) = self.pairs.of_map.get(pair as usize) else {
            return NO_KEY;
        };
        *lengths = give_pair(found.0.as_slice(), found.1.as_slice(), key, value);
        0
    }
}
