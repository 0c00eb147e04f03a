// Trees and hash files in ranges of objects; where a transaction is open, within it.
ghost use Rattle.std.specs.Prelude.{◌≡◌, ◌&&◌, None, Some, drop, if◌then◌else◌, length, nat_le, nat_lt};
ghost use Rattle.key_entries.specs.Short.{is_short};
ghost use Rattle.embed_c.specs.Answers.{alone, told};
ghost use Rattle.embed_c.specs.Calls.{DoesNothing};
ghost use Rattle.embed_c.specs.Ranges.{CopiesFront, GivesFirst, GivesNothing, IfNamed, IsRanged, OnRange, TellsFound, hash_delete, hash_get, hash_put, of_hash, of_tree, told_found, tree_delete, tree_get, tree_insert};

use crate::answer::{Answer, hash_answer, hash_found, tree_answer, tree_found};
use crate::session::Session;
use hash_file::HashFile;
use key_entries::Short;
use logical_btree::Tree;

/// The answer where a range of objects is none.
pub(crate) const NO_OBJECT: u32 = 32;

/// The answer where there is no such pair.
pub(crate) const NO_KEY: u32 = 39;

/// The answer where a key, or the value of a key, has not 1 to 32 bytes.
const BAD_KEY: u32 = 49;

/// The first and the last object of a tree, a hash file or a map.
#[repr(C)]
#[derive(Clone, Copy)]
pub struct Range {
    pub low: u32,
    pub high: u32,
}

impl Range {
    // The tree in it; none where its last object is below its first.
    fn tree(self) -> Option<Tree>
        ensures { result ≡ (if nat_le self.low self.high then Some (record { lo = self.low; hi = self.high }) else None) }
    {
        Tree::new(self.low, self.high)
    }

    // The hash file in it; none where its last object is not above its first.
    fn file(self) -> Option<HashFile>
        ensures { result ≡ (if nat_lt self.low self.high then Some (record { lo = self.low; hi = self.high }) else None) }
    {
        HashFile::new(self.low, self.high)
    }
}

/// How long the key and the value of a pair are.
#[repr(C)]
#[derive(Clone, Copy)]
pub struct Lengths {
    pub key: u64,
    pub value: u64,
}

// Two of 1 to 32 bytes each; none where one is not.
fn both(one: &[u8], other: &[u8]) -> Option<(Short, Short)>
    ensures { result ≡ (if is_short one.now && is_short other.now then Some (one.now, other.now) else None) }
{
    let one = Short::new(one)?;
    let other = Short::new(other)?;
    Some((one, other))
}

// Copies the front of bytes, as much as there is room for.
pub(crate) fn copy_front(bytes: &[u8], into: &mut [u8])
    ensures { CopiesFront bytes.now into.old into.new }
{
    let count = bytes.len().min(into.len());
    into[..count].copy_from_slice(&bytes[..count]);
}

// Gives a pair, as much of it as there is room for, and says how long its parts are.
pub(crate) fn give_pair(name: &[u8], behind: &[u8], key: &mut [u8], value: &mut [u8]) -> Lengths
    ensures key { CopiesFront name.now key.old key.new }
    ensures value { CopiesFront behind.now value.old value.new }
    ensures lengths { result ≡ record { key = length name.now; value = length behind.now } }
{
    copy_front(name, key);
    copy_front(behind, value);
    Lengths {
        key: name.len() as u64,
        value: behind.len() as u64,
    }
}

// Gives the value that was found, and writes how long it is.
fn put_found<E>(made: &Result<Option<Short>, E>, into: &mut [u8], length: &mut u64)
    ensures { TellsFound made.now into.old into.new length.new }
{
    if let Ok(Some(value)) = made {
        let bytes = value.as_slice();
        copy_front(bytes, into);
        *length = bytes.len() as u64;
    }
}

impl Session {
    // Refuses a call before anything is done.
    pub(crate) fn refuse(&mut self, number: u32) -> u32
        ensures { DoesNothing (alone number) self.old self.new result }
    {
        self.detail = Answer::alone(number).detail;
        number
    }

    /// Gives a key of a tree this value.
    pub fn tree_insert(&mut self, range: Range, key: &[u8], value: &[u8]) -> u32
        ensures { IfNamed (nat_le range.low range.high) (is_short key.now && is_short value.now) (OnRange (tree_insert range.low range.high key.now value.now) (told of_tree) GivesNothing) self.old self.new result }
    {
        let Some(tree) = range.tree() else {
            return self.refuse(NO_OBJECT);
        };
        let Some(names) = both(key, value) else {
            return self.refuse(BAD_KEY);
        };
        let answer = tree_answer(self.insert_in_tree(&tree, &names.0, &names.1));
        self.detail = answer.detail;
        answer.number
    }

    /// Deletes a key of a tree, and its value.
    pub fn tree_delete(&mut self, range: Range, key: &[u8]) -> u32
        ensures { IfNamed (nat_le range.low range.high) (is_short key.now) (OnRange (tree_delete range.low range.high key.now) (told of_tree) GivesNothing) self.old self.new result }
    {
        let Some(tree) = range.tree() else {
            return self.refuse(NO_OBJECT);
        };
        let Some(key) = Short::new(key) else {
            return self.refuse(BAD_KEY);
        };
        let answer = tree_answer(self.delete_in_tree(&tree, &key));
        self.detail = answer.detail;
        answer.number
    }

    /// Gives the value of a key of a tree, as much of it as there is room for, and says how long it is.
    pub fn tree_get(&mut self, range: Range, key: &[u8], into: &mut [u8], length: &mut u64) -> u32
        ensures { IfNamed (nat_le range.low range.high) (is_short key.now) (OnRange (tree_get range.low range.high key.now) (told_found of_tree) (λ made. TellsFound made into.old into.new length.new)) self.old self.new result }
    {
        let Some(tree) = range.tree() else {
            return self.refuse(NO_OBJECT);
        };
        let Some(key) = Short::new(key) else {
            return self.refuse(BAD_KEY);
        };
        let made = self.get_in_tree(&tree, &key);
        put_found(&made, into, length);
        let answer = tree_found(made);
        self.detail = answer.detail;
        answer.number
    }

    /// Finds the pairs of a tree whose keys are not below `from` and are below `to`, and says how many they are. They are kept
    /// until the next call of it that finds some.
    pub fn tree_range(&mut self, range: Range, from: &[u8], to: &[u8], count: &mut u64) -> u32
        ensures { IfNamed (nat_le range.low range.high) (is_short from.now && is_short to.now) (IsRanged range.low range.high from.now to.now count.new) self.old self.new result }
    {
        let Some(tree) = range.tree() else {
            return self.refuse(NO_OBJECT);
        };
        let Some(ends) = both(from, to) else {
            return self.refuse(BAD_KEY);
        };
        match self.range_in_tree(&tree, &ends.0, &ends.1) {
            Ok(pairs) => {
                *count = pairs.len() as u64;
                self.pairs.of_tree = pairs;
                self.detail = Answer::done().detail;
                0
            }
            Err(cause) => {
                let answer = Answer::of_tree(cause);
                self.detail = answer.detail;
                answer.number
            }
        }
    }

    /// Gives a pair that was found last, counted from 0, as much of it as there is room for, and says how long its parts are.
    pub fn tree_pair(
        &self,
        pair: u64,
        key: &mut [u8],
        value: &mut [u8],
        lengths: &mut Lengths,
    ) -> u32
        ensures { GivesFirst key.old key.new value.old value.new lengths.new (drop pair self.now.pairs.of_tree.items) result }
    {
        let Some(found) = self.pairs.of_tree.get(pair as usize) else {
            return NO_KEY;
        };
        *lengths = give_pair(found.0.as_slice(), found.1.as_slice(), key, value);
        0
    }

    /// Gives a key of a hash file this value.
    pub fn hash_put(&mut self, range: Range, key: &[u8], value: &[u8]) -> u32
        ensures { IfNamed (nat_lt range.low range.high) (is_short key.now && is_short value.now) (OnRange (hash_put range.low range.high key.now value.now) (told of_hash) GivesNothing) self.old self.new result }
    {
        let Some(file) = range.file() else {
            return self.refuse(NO_OBJECT);
        };
        let Some(names) = both(key, value) else {
            return self.refuse(BAD_KEY);
        };
        let answer = hash_answer(self.put_in_hash(&file, &names.0, &names.1));
        self.detail = answer.detail;
        answer.number
    }

    /// Deletes a key of a hash file, and its value.
    pub fn hash_delete(&mut self, range: Range, key: &[u8]) -> u32
        ensures { IfNamed (nat_lt range.low range.high) (is_short key.now) (OnRange (hash_delete range.low range.high key.now) (told of_hash) GivesNothing) self.old self.new result }
    {
        let Some(file) = range.file() else {
            return self.refuse(NO_OBJECT);
        };
        let Some(key) = Short::new(key) else {
            return self.refuse(BAD_KEY);
        };
        let answer = hash_answer(self.delete_in_hash(&file, &key));
        self.detail = answer.detail;
        answer.number
    }

    /// Gives the value of a key of a hash file, as much of it as there is room for, and says how long it is.
    pub fn hash_get(&mut self, range: Range, key: &[u8], into: &mut [u8], length: &mut u64) -> u32
        ensures { IfNamed (nat_lt range.low range.high) (is_short key.now) (OnRange (hash_get range.low range.high key.now) (told_found of_hash) (λ made. TellsFound made into.old into.new length.new)) self.old self.new result }
    {
        let Some(file) = range.file() else {
            return self.refuse(NO_OBJECT);
        };
        let Some(key) = Short::new(key) else {
            return self.refuse(BAD_KEY);
        };
        let made = self.get_in_hash(&file, &key);
        put_found(&made, into, length);
        let answer = hash_found(made);
        self.detail = answer.detail;
        answer.number
    }
}
