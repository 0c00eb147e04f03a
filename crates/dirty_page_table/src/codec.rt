// Tables as bytes.
ghost use Rattle.std.specs.Prelude.{◌≡◌, ◌<◌, ◌≤◌, ◌+◌, ◌*◌, ◌^◌, ◌++◌, List, ℕ, IfNone, IfOk, IfSome, IsOk, OnErr, OnOk, length};
ghost use Rattle.std.specs.Vec.{vec_capacity, vec_len};
ghost use Rattle.dirty_page_table.specs.declared.table.DirtyPageTable.{DirtyPageTable};
ghost use Rattle.dirty_page_table.specs.Codec.{table_code, start_code, FitsStart, IsReadFrom, IsTable, StartsWithTable};

use crate::{DirtyPageTable, Starts};
use byteorder::{ByteOrder, LittleEndian};
use oper_core::Memory;
use std::alloc::Global;

// The next LSN and the count.
const HEAD_BYTES: usize = 12;

// An object and a number.
const START_BYTES: usize = 12;

/// Appends a table's code. Without memory for it the bytes stay as they are.
pub fn encode(table: &DirtyPageTable, out: &mut Vec<u8>) -> Result<(), Memory>
    requires { length table.now.starts < 2 ^ 32 }
    ensures ok { OnOk result (out.new.items ≡ out.old.items ++ table_code table.now) }
    ensures err { OnErr result (out.new.items ≡ out.old.items) }
    ensures in_grammar { OnOk result (IsTable table.now) }
{
    let starts = table.starts.as_slice();
    out.reserve(HEAD_BYTES + START_BYTES * starts.len())?;
    out.extend_from_slice(&table.next.to_le_bytes())?;
    out.extend_from_slice(&(starts.len() as u32).to_le_bytes())?;
    for (object, start) in starts {
        push_start(*object, *start, out)?;
    }
    Ok(())
}

/// Appends a pair's code, for which there is room.
fn push_start(object: u32, start: u64, out: &mut Vec<u8>) -> Result<(), Memory>
    requires { vec_len out.old + 12 ≤ vec_capacity out.old }
    ensures ok { IsOk result }
    ensures written { out.new.items ≡ out.old.items ++ start_code (object, start) }
    ensures room { vec_len out.new + vec_capacity out.old ≤ vec_len out.old + 12 + vec_capacity out.new }
    ensures fits { FitsStart (object, start) }
{
    out.extend_from_slice(&object.to_le_bytes())?;
    out.extend_from_slice(&start.to_le_bytes())?;
    Ok(())
}

/// The table whose code the bytes begin with, and the code's length; none exactly where they begin with no table.
/// It asks for memory only where the whole table is there, whatever its count says.
pub fn decode(alloc: Global, bytes: &[u8]) -> Result<Option<(DirtyPageTable, usize)>, Memory>
    ensures some { IfOk result (λ found. IfSome found (λ pair.
        StartsWithTable bytes.now pair.0 × (pair.1 ≡ length (table_code pair.0)))) }
    ensures none { IfOk result (λ found. IfNone found ((table : DirtyPageTable) → StartsWithTable bytes.now table → ⊥)) }
    ensures memory { OnErr result ((table : DirtyPageTable) × StartsWithTable bytes.now table) }
{
    if bytes.len() < HEAD_BYTES {
        return Ok(None);
    }
    let next = LittleEndian::read_u64(bytes);
    let count = LittleEndian::read_u32(&bytes[8..]) as usize;
    let rest = &bytes[HEAD_BYTES..];
    if rest.len() / START_BYTES < count {
        return Ok(None);
    }
    let starts = read_starts(alloc, count, rest)?;
    Ok(Some((
        DirtyPageTable { next, starts },
        HEAD_BYTES + START_BYTES * count,
    )))
}

/// So many pairs, with whose codes the bytes begin.
fn read_starts(alloc: Global, count: usize, bytes: &[u8]) -> Result<Starts, Memory>
    requires { 12 * count ≤ length bytes.now }
    ensures { IfOk result (λ starts. IsReadFrom bytes.now count starts) }
{
    let mut pairs = Vec::with_capacity(alloc, count)?;
    let mut rest = bytes;
    for _pair in 0..count {
        let (start, behind) = read_start(rest);
        pairs.push(start)?;
        rest = behind;
    }
    Ok(Starts::new(pairs))
}

/// The pair with whose code the bytes begin, and the bytes after it.
fn read_start(bytes: &[u8]) -> ((u32, u64), &[u8])
    requires { 12 ≤ length bytes.now }
    ensures split { bytes.now ≡ start_code result.0 ++ result.1.now }
    ensures fits { FitsStart result.0 }
{
    let object = LittleEndian::read_u32(bytes);
    let start = LittleEndian::read_u64(&bytes[4..]);
    ((object, start), &bytes[START_BYTES..])
}

/// Bytes begin with the code of at most one table, so no code is the beginning of another's.
pub fn one_table()
    ensures { (bytes : List ℕ) (first second : DirtyPageTable) → StartsWithTable bytes first → StartsWithTable bytes second → first ≡ second }
{}
