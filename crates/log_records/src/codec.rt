// Records as bytes.
ghost use Rattle.std.specs.Prelude.{◌≡◌, ◌<◌, ◌≤◌, ◌^◌, ◌↔◌, ◌∷◌, ◌++◌, List, ℕ, IsTrue, IfNone, IfOk, IfSome, OnErr, OnOk, length, take, slice_index};
ghost use Rattle.byteorder.specs.Endian.{little_bytes};
ghost use Rattle.oper_core.specs.Meaning.{IsSmall};
ghost use Rattle.oper_core.specs.declared.bounds.Bounds.{Bounds};
ghost use Rattle.formats.specs.Records.{record_code};
ghost use Rattle.formats.specs.declared.record.Record.{Record};
ghost use Rattle.log_records.specs.Codec.{IsEncodable, StartsWithRecord};

use byteorder::{ByteOrder, LittleEndian};
use formats::{IDENTITY_HEAD, RECORD_HEAD, Record};
use oper_core::{Bounds, ByteList, Memory, Oper};
use std::alloc::Global;

const COMMAND: u8 = 1;

const IDENTITY: u8 = 2;

const CHECK: u8 = 3;

/// Appends a record's code. Without memory for it the bytes stay as they are.
pub fn encode<O: Oper>(record: &Record<O>, out: &mut Vec<u8>) -> Result<(), Memory>
    requires { IsEncodable O.meaning «record».now }
    ensures ok { (b : Bounds) → OnOk result (out.new.items ≡ out.old.items ++ record_code (O.meaning b) «record».now) }
    ensures err { OnErr result (out.new.items ≡ out.old.items) }
{
    let length = out.len();
    let written = append(record, out);
    if written.is_err() {
        out.truncate(length);
    }
    written
}

// The same, but a part of the code may stay after the bytes.
fn append<O: Oper>(record: &Record<O>, out: &mut Vec<u8>) -> Result<(), Memory>
    requires { IsEncodable O.meaning «record».now }
    ensures ok { (b : Bounds) → OnOk result (out.new.items ≡ out.old.items ++ record_code (O.meaning b) «record».now) }
    ensures err { OnErr result (take (length out.old.items) out.new.items ≡ out.old.items) }
{
    match record {
        Record::Command(lsn, op) => push_command(*lsn, op, out)?,
        Record::Identity(lsn, object, value) => {
            append_identity(*lsn, *object, value.as_slice(), out)?
        }
        Record::Checkpoint(table) => {
            out.push(CHECK)?;
            dirty_page_table::encode(table, out)?
        }
    }
    Ok(())
}

/// Appends the code of a command's record. Without memory a part of it may stay after the bytes.
pub(crate) fn push_command<O: Oper>(lsn: u64, op: &O, out: &mut Vec<u8>) -> Result<(), Memory>
    requires { IsEncodable O.meaning (Record.Command lsn op.now) }
    ensures ok { (b : Bounds) → OnOk result (out.new.items ≡ out.old.items ++ record_code (O.meaning b) (Record.Command lsn op.now)) }
    ensures err { OnErr result (take (length out.old.items) out.new.items ≡ out.old.items) }
{
    out.push(COMMAND)?;
    out.extend_from_slice(&lsn.to_le_bytes())?;
    op.encode(out)?;
    Ok(())
}

fn append_identity(lsn: u64, object: u32, value: &[u8], out: &mut Vec<u8>) -> Result<(), Memory>
    requires { length value.now < 2 ^ 32 }
    ensures ok { OnOk result (out.new.items ≡ out.old.items ++ (2 ∷ (little_bytes 8 lsn ++ (little_bytes 4 object ++ (little_bytes 4 (length value.now) ++ value.now))))) }
    ensures err { OnErr result (take (length out.old.items) out.new.items ≡ out.old.items) }
{
    out.push(IDENTITY)?;
    out.extend_from_slice(&lsn.to_le_bytes())?;
    out.extend_from_slice(&object.to_le_bytes())?;
    out.extend_from_slice(&(value.len() as u32).to_le_bytes())?;
    out.extend_from_slice(value)?;
    Ok(())
}

/// The record whose code the bytes begin with, and the code's length; none exactly where they begin with no code of
/// the grammar for these bounds.
pub fn decode<O: Oper>(
    alloc: Global,
    b: Bounds,
    bytes: &[u8],
) -> Result<Option<(Record<O>, usize)>, Memory>
    ensures some { IfOk result (λ found. IfSome found (λ pair.
        StartsWithRecord (O.meaning b) bytes.now pair.0 × (pair.1 ≡ length (record_code (O.meaning b) pair.0)))) }
    ensures none { IfOk result (λ found. IfNone found ((other : Record O) → StartsWithRecord (O.meaning b) bytes.now other → ⊥)) }
{
    if bytes.len() == 0 {
        return Ok(None);
    }
    let kind = bytes[0];
    if kind == COMMAND {
        return decode_command(alloc, b, bytes);
    }
    if kind == IDENTITY {
        return decode_identity(alloc, b, bytes);
    }
    if kind == CHECK {
        return decode_checkpoint(alloc, b, bytes);
    }
    Ok(None)
}

// The same, where the bytes begin with the kind of a command.
fn decode_command<O: Oper>(
    alloc: Global,
    b: Bounds,
    bytes: &[u8],
) -> Result<Option<(Record<O>, usize)>, Memory>
    requires { slice_index bytes.now 0 ≡ 1 }
    ensures some { IfOk result (λ found. IfSome found (λ pair.
        StartsWithRecord (O.meaning b) bytes.now pair.0 × (pair.1 ≡ length (record_code (O.meaning b) pair.0)))) }
    ensures none { IfOk result (λ found. IfNone found ((other : Record O) → StartsWithRecord (O.meaning b) bytes.now other → ⊥)) }
{
    if bytes.len() < RECORD_HEAD {
        return Ok(None);
    }
    let lsn = LittleEndian::read_u64(&bytes[1..]);
    match O::decode(alloc, b, &bytes[RECORD_HEAD..])? {
        Some((op, length)) => Ok(Some((Record::Command(lsn, op), RECORD_HEAD + length))),
        None => Ok(None),
    }
}

// Whether the object is there, and a value of this length within the cap and within so many bytes.
fn is_within(b: Bounds, object: u32, length: u32, room: usize) -> bool
    ensures { IsTrue result ↔ ((object < b.objects) × (length ≤ b.cap) × (length ≤ room)) }
{
    object < b.objects && length <= b.cap && length as usize <= room
}

// The same, where they begin with the kind of an identity write.
fn decode_identity<O: Oper>(
    alloc: Global,
    b: Bounds,
    bytes: &[u8],
) -> Result<Option<(Record<O>, usize)>, Memory>
    requires { slice_index bytes.now 0 ≡ 2 }
    ensures some { IfOk result (λ found. IfSome found (λ pair.
        StartsWithRecord (O.meaning b) bytes.now pair.0 × (pair.1 ≡ length (record_code (O.meaning b) pair.0)))) }
    ensures none { IfOk result (λ found. IfNone found ((other : Record O) → StartsWithRecord (O.meaning b) bytes.now other → ⊥)) }
{
    if bytes.len() < IDENTITY_HEAD {
        return Ok(None);
    }
    let lsn = LittleEndian::read_u64(&bytes[1..]);
    let object = LittleEndian::read_u32(&bytes[9..]);
    let length = LittleEndian::read_u32(&bytes[13..]);
    let behind = &bytes[IDENTITY_HEAD..];
    if !is_within(b, object, length, behind.len()) {
        return Ok(None);
    }
    let value = behind[..length as usize].to_vec(alloc)?;
    let found = Record::Identity(lsn, object, ByteList::new(value));
    Ok(Some((found, IDENTITY_HEAD + length as usize)))
}

// The same, where they begin with the kind of a checkpoint.
fn decode_checkpoint<O: Oper>(
    alloc: Global,
    b: Bounds,
    bytes: &[u8],
) -> Result<Option<(Record<O>, usize)>, Memory>
    requires some { 0 < length bytes.now }
    requires kind { slice_index bytes.now 0 ≡ 3 }
    ensures some { IfOk result (λ found. IfSome found (λ pair.
        StartsWithRecord (O.meaning b) bytes.now pair.0 × (pair.1 ≡ length (record_code (O.meaning b) pair.0)))) }
    ensures none { IfOk result (λ found. IfNone found ((other : Record O) → StartsWithRecord (O.meaning b) bytes.now other → ⊥)) }
{
    match dirty_page_table::decode(alloc, &bytes[1..])? {
        Some((table, length)) => Ok(Some((Record::Checkpoint(table), 1 + length))),
        None => Ok(None),
    }
}

/// Bytes begin with the code of at most one record, so no code is the beginning of another's.
pub fn one_record<O: Oper>()
    ensures { (b : Bounds) (bytes : List ℕ) (first second : Record O) → IsSmall b → StartsWithRecord (O.meaning b) bytes first → StartsWithRecord (O.meaning b) bytes second → first ≡ second }
{}
