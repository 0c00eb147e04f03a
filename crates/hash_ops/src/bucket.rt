ghost use Rattle.std.specs.Prelude.{◌≡◌, ◌≤◌, IfOk, IfSome, T};
ghost use Rattle.std.specs.FinMap.Entries.{is_sorted};
ghost use Rattle.key_entries.specs.Entries.{byte_order};
ghost use Rattle.hash_ops.specs.Blocks.{bucket_code, bucket_in};

use crate::directory::MOST_DEPTH;
use key_entries::{MOST_ENTRIES, Pairs, read_rising, write_entries};
use oper_core::Memory;
use std::alloc::Global;

/// The kind of a bucket.
const BUCKET: u8 = 4;

/// A bucket of a hash file.
#[derive(Drop)]
pub struct Bucket {
    /// So many low bits of their numbers all its keys have in common.
    pub depth: u8,
    /// At most seven pairs of a key and a value, whose keys rise.
    pub pairs: Pairs,
}

impl Bucket {
    /// The bucket that the bytes are, exactly where they are one.
    pub fn read(bytes: &[u8]) -> Option<Self>
        ensures value { result ≡ bucket_in bytes.now }
        ensures shallow { IfSome result (λ b. b.depth ≤ 6) }
        ensures rise { IfSome result (λ b. T (is_sorted byte_order b.pairs.items)) }
    {
        if bytes.len() < 3 {
            return None;
        }
        let depth = bytes[1];
        let count = bytes[2] as usize;
        if bytes[0] != BUCKET || depth > MOST_DEPTH || count > MOST_ENTRIES {
            return None;
        }
        let pairs = read_rising(count, &bytes[3..])?;
        Some(Bucket { depth, pairs })
    }

    /// Its bytes.
    pub fn bytes(&self, alloc: Global) -> Result<Vec<u8>, Memory>
        ensures { IfOk result (λ out. out.items ≡ bucket_code self.now) }
    {
        let mut out = Vec::new(alloc);
        out.push(BUCKET)?;
        out.push(self.depth)?;
        out.push(self.pairs.len() as u8)?;
        write_entries(self.pairs.as_slice(), &mut out)?;
        Ok(out)
    }
}
