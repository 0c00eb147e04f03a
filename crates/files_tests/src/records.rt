// The codec of records and their log: that calls succeed, and worked bytes.
ghost use Rattle.std.specs.Prelude.{◌≡◌, ◌<◌, ◌^◌, ◌∷◌, [], IfOk, length};

use dirty_page_table::{DirtyPageTable, Starts};
use disk_model::{Crash, FileNo, Fuse, Machine, MemMachine};
use formats::{ReadErr, Record};
use log_records::{RecordLog, decode, encode, one_record};
use op_meaning::PlainOp;
use oper_core::{Bounds, ByteList, Oper};
use std::alloc::Global;
use std::test::Fail;

pub const BOUNDS: Bounds = Bounds {
    objects: 4,
    cap: 3,
    more: false,
};

// A record: its kind, its LSN, its object and its value; of a checkpoint its next LSN and the object of its only start,
// which is 1.
type Row = (u8, u64, u32, &'static [u8]);

// Puts, and the codes of their records.
const CODES: [(Row, &[u8]); 3] = [
    (
        (1, 1, 0, b"\xaa"),
        b"\x01\x01\0\0\0\0\0\0\0\x01\0\0\0\0\x01\0\0\0\xaa",
    ),
    (
        (1, 0x0102, 3, b""),
        b"\x01\x02\x01\0\0\0\0\0\0\x01\x03\0\0\0\0\0\0\0",
    ),
    (
        (1, u64::MAX, 2, b"abc"),
        b"\x01\xff\xff\xff\xff\xff\xff\xff\xff\x01\x02\0\0\0\x03\0\0\0abc",
    ),
];

// The code of a record after two other bytes.
fn coded(alloc: Global, lsn: u64, object: u32, value: &[u8]) -> Result<Vec<u8>, Fail>
    requires { length value.now < 2 ^ 32 }
{
    let op = PlainOp::Put {
        object,
        value: ByteList::new(value.to_vec(alloc)?),
    };
    let mut out = b"..".to_vec(alloc)?;
    encode(&Record::Command(lsn, op), &mut out)?;
    Ok(out)
}

// Whether a record is that of a row.
fn is_of(record: &Record<PlainOp>, row: Row) -> bool {
    let (kind, lsn, object, value) = row;
    match record {
        Record::Command(
            n,
            PlainOp::Put {
                object: x,
                value: held,
            },
        ) => { kind == 1 && *n == lsn && *x == object && held.as_slice() == value }
        Record::Command(_, _) => false,
        Record::Identity(n, x, held) => {
            kind == 2 && *n == lsn && *x == object && held.as_slice() == value
        }
        Record::Checkpoint(table) => {
            kind == 3 && table.next == lsn && table.starts.as_slice() == [(object, 1)].as_slice()
        }
    }
}

// Whether the record of a row is decoded from these bytes, and how many of them it takes.
fn reads(alloc: Global, bytes: &[u8], row: Row, length: usize) -> Result<bool, Fail> {
    match decode::<PlainOp>(alloc, BOUNDS, bytes)? {
        Some((record, taken)) => Ok(is_of(&record, row) && taken == length),
        None => Ok(false),
    }
}

// Whether a record has this code, and is read back where another byte follows.
fn is_coded(alloc: Global, row: Row, code: &[u8]) -> Result<bool, Fail> {
    let (_, lsn, object, value) = row;
    if value.len() > 3 {
        return Ok(false);
    }
    let mut out = coded(alloc, lsn, object, value)?;
    let written = out.as_slice().strip_prefix(b"..") == Some(code);
    out.push(7)?;
    let behind = out.as_slice().strip_prefix(b"..").unwrap_or(b"");
    Ok(written && reads(alloc, behind, row, code.len())?)
}

#[test]
fn a_code_is_as_worked_and_reads_back(rt: HostRuntime) -> Result<(), Fail> {
    one_record::<PlainOp>();
    for (row, code) in CODES {
        assert!(rt; is_coded(rt.alloc(), row, code)?);
    }
    Ok(())
}

// Bytes that do not begin with a record, and why.
const OTHERS: [(&[u8], &str); 12] = [
    (b"", "nothing"),
    (b"\x01\x01\0\0\0\0\0\0", "a cut number"),
    (b"\x01\x01\0\0\0\0\0\0\0", "no operation"),
    (
        b"\x01\x01\0\0\0\0\0\0\0\x01\0\0\0\0\x01\0\0\0",
        "a cut operation",
    ),
    (
        b"\x00\x01\0\0\0\0\0\0\0\x01\0\0\0\0\x01\0\0\0\xaa",
        "kind 0",
    ),
    (
        b"\x04\x01\0\0\0\0\0\0\0\x01\0\0\0\0\x01\0\0\0\xaa",
        "kind 4",
    ),
    (
        b"\x01\x01\0\0\0\0\0\0\0\x01\x04\0\0\0\x01\0\0\0\xaa",
        "no such object",
    ),
    (
        b"\x02\x01\0\0\0\0\0\0\0\0\0\0\0\0\0\0",
        "an identity write's cut length",
    ),
    (
        b"\x02\x01\0\0\0\0\0\0\0\0\0\0\0\x02\0\0\0\xaa",
        "its cut value",
    ),
    (
        b"\x02\x01\0\0\0\0\0\0\0\0\0\0\0\x04\0\0\0abcd",
        "its value beyond CAP",
    ),
    (
        b"\x02\x01\0\0\0\0\0\0\0\x04\0\0\0\0\0\0\0",
        "its object beyond N",
    ),
    (
        b"\x03\x03\0\0\0\0\0\0\0\x01\0\0\0\0\0\0\0\x01\0\0\0\0\0\0",
        "a check's cut start",
    ),
];

#[test]
fn other_bytes_are_no_record(rt: HostRuntime) -> Result<(), Fail> {
    for (bytes, why) in OTHERS {
        assert!(rt;
            decode::<PlainOp>(rt.alloc(), BOUNDS, bytes)?.is_none(),
            "{why}"
        );
    }
    Ok(())
}

// A settled machine with a new log.
pub fn new_store(alloc: Global) -> Result<MemMachine, Fail> {
    let mut machine = MemMachine::new(alloc, [64, 512, 512], 64, 1024, Vec::new(alloc))?;
    RecordLog::<PlainOp>::create(&mut machine)?;
    Ok(machine.crash(Crash::New))
}

// The log of a machine.
pub fn loaded<M: Machine>(
    alloc: Global,
    machine: &mut M,
    b: Bounds,
) -> Result<RecordLog<PlainOp>, ReadErr>
    ensures { IfOk result (λ log. log.bounds ≡ b) }
{
    let (log, _) = RecordLog::load_checked(alloc, machine, b)?;
    Ok(log)
}

fn put(alloc: Global, object: u32, value: &[u8]) -> Result<PlainOp, Fail> {
    Ok(PlainOp::Put {
        object,
        value: ByteList::new(value.to_vec(alloc)?),
    })
}

// Appends a put with the next LSN.
fn add(log: &mut RecordLog<PlainOp>, b: Bounds, op: PlainOp) -> Result<(), Fail>
    requires { log.old.bounds ≡ b }
    ensures { log.new.bounds ≡ b }
{
    let lsn = log.next();
    if op.code_length() > 12 {
        return Ok(());
    }
    if op.shape(b).is_ok() && lsn < 1 << 20 && log.used() < 1 << 20 {
        log.append(Record::Command(lsn, op))?;
    }
    Ok(())
}

// Appends an identity write of object 1 with the next LSN.
fn add_identity(log: &mut RecordLog<PlainOp>, b: Bounds, value: ByteList) -> Result<(), Fail>
    requires { log.old.bounds ≡ b }
    ensures { log.new.bounds ≡ b }
{
    let lsn = log.next();
    let is_small = value.as_slice().len() <= b.cap as usize && b.objects > 1 && b.cap < 1 << 20;
    if is_small && lsn < 1 << 20 && log.used() < 1 << 20 {
        log.append(Record::Identity(lsn, 1, value))?;
    }
    Ok(())
}

// Appends a checkpoint with the redo start 1 of object 0.
fn add_checkpoint(log: &mut RecordLog<PlainOp>, b: Bounds, starts: Starts) -> Result<(), Fail>
    requires bounds { log.old.bounds ≡ b }
    requires starts { starts ≡ (0, 1) ∷ [] }
    ensures { log.new.bounds ≡ b }
{
    let next = log.next();
    let is_placed = b.objects > 0 && log.base() <= 1 && next > 1;
    if is_placed && next < 1 << 20 && log.used() < 1 << 20 {
        log.append(Record::Checkpoint(DirtyPageTable { next, starts }))?;
    }
    Ok(())
}

// The log's length, the next LSN, and how many commands are accepted and forced.
pub fn counts(log: &RecordLog<PlainOp>) -> [u64; 4] {
    [log.used(), log.next(), log.accepted(), log.forced()]
}

// Writes four records in two blocks. It answers the log's counts before each record and at the end.
fn write_four(
    alloc: Global,
    log: &mut RecordLog<PlainOp>,
    machine: &mut MemMachine,
    b: Bounds,
) -> Result<[[u64; 4]; 5], Fail>
    requires { log.old.bounds ≡ b }
{
    let new = counts(log);
    add(log, b, put(alloc, 2, b"a")?)?;
    let one = counts(log);
    add_identity(log, b, ByteList::new(b"ab".to_vec(alloc)?))?;
    log.force(machine)?;
    let two = counts(log);
    let starts = Starts::new(Vec::from_slice(alloc, &[(0, 1)])?);
    add_checkpoint(log, b, starts)?;
    let three = counts(log);
    add(log, b, put(alloc, 3, b"abc")?)?;
    log.force(machine)?;
    Ok([new, one, two, three, counts(log)])
}

// A log of two blocks with four records, and its counts before each record and at the end.
pub fn four_records(alloc: Global) -> Result<(MemMachine, [[u64; 4]; 5]), Fail> {
    let mut machine = new_store(alloc)?;
    let mut log = loaded(alloc, &mut machine, BOUNDS)?;
    let all = write_four(alloc, &mut log, &mut machine, BOUNDS);
    drop(log);
    let left = machine.crash(Crash::Old);
    Ok((left, all?))
}

#[test]
fn commands_alone_are_counted(rt: HostRuntime) -> Result<(), Fail> {
    let (_, counts) = four_records(rt.alloc())?;
    assert!(rt;
        counts
            == [
                [33, 1, 0, 0],
                [57, 2, 1, 0],
                [76, 3, 1, 1],
                [106, 3, 1, 1],
                [127, 4, 2, 2]
            ]
    );
    Ok(())
}

// The blocks of the four records, and the closed gate after them.
const BLOCKS: &[u8] = b"\x01\x26\0\0\0\
    \x01\x01\0\0\0\0\0\0\0\x01\x02\0\0\0\x01\0\0\0a\
    \x02\x02\0\0\0\0\0\0\0\x01\0\0\0\x02\0\0\0ab\
    \x01\x2e\0\0\0\
    \x03\x03\0\0\0\0\0\0\0\x01\0\0\0\0\0\0\0\x01\0\0\0\0\0\0\0\
    \x01\x03\0\0\0\0\0\0\0\x01\x03\0\0\0\x03\0\0\0abc\
    \0";

// Whether log A has these bytes from its first gate on.
fn holds(machine: &MemMachine, blocks: &[u8]) -> bool {
    machine.bytes(FileNo::LogA).get(33..) == Some(blocks)
}

#[test]
fn blocks_are_as_worked(rt: HostRuntime) -> Result<(), Fail> {
    let (machine, _) = four_records(rt.alloc())?;
    assert!(rt; holds(&machine, BLOCKS));
    Ok(())
}

// The commands and identity writes of a log from an LSN on.
pub fn with_lsn<M: Machine>(
    alloc: Global,
    log: &RecordLog<PlainOp>,
    machine: &mut M,
    from: u64,
) -> Result<Vec<Record<PlainOp>>, Fail> {
    let mut reader = log.lsn_reader(machine, from)?;
    let mut found = Vec::new(alloc);
    while let Some(record) = reader.next(machine)? {
        found.push(record)?;
    }
    Ok(found)
}

// Whether records are the four.
fn are_four(records: &[Record<PlainOp>]) -> bool {
    const ALL: [Row; 4] = [
        (1, 1, 2, b"a"),
        (2, 2, 1, b"ab"),
        (3, 3, 0, b""),
        (1, 3, 3, b"abc"),
    ];
    let mut are = records.len() == ALL.len();
    for (record, row) in records.iter().zip(&ALL) {
        are &= is_of(record, *row);
    }
    are
}

// Whether records are the last of the three with an LSN, so many.
fn are_last(records: &[Record<PlainOp>], count: usize) -> bool {
    const ALL: [Row; 3] = [(1, 1, 2, b"a"), (2, 2, 1, b"ab"), (1, 3, 3, b"abc")];
    let mut are = records.len() == count;
    for (record, row) in records
        .iter()
        .zip(ALL.iter().skip(ALL.len().saturating_sub(count)))
    {
        are &= is_of(record, *row);
    }
    are
}

// Appends a put; whether the four records are found before it, and from a number on the last of the three with an LSN,
// so many.
fn finds(
    alloc: Global,
    log: &mut RecordLog<PlainOp>,
    machine: &mut MemMachine,
    b: Bounds,
    from: u64,
    count: usize,
) -> Result<bool, Fail>
    requires { log.old.bounds ≡ b }
{
    add(log, b, put(alloc, 1, b"")?)?;
    let all = are_four(&log.stable(machine)?);
    let found = with_lsn(alloc, log, machine, from)?;
    Ok(all && are_last(&found, count))
}

// Whether the four records are found again, and from a number on the last of the three with an LSN, so many; what
// waits is not among them.
fn are_found(alloc: Global, from: u64, count: usize) -> Result<bool, Fail> {
    let (mut machine, _) = four_records(alloc)?;
    let mut log = loaded(alloc, &mut machine, BOUNDS)?;
    let found = finds(alloc, &mut log, &mut machine, BOUNDS, from, count);
    drop(log);
    drop(machine);
    found
}

#[test]
fn what_waits_is_not_read(rt: HostRuntime) -> Result<(), Fail> {
    for (from, count) in [(0, 3), (1, 3), (2, 2), (3, 1), (4, 0)] {
        assert!(rt; are_found(rt.alloc(), from, count)?, "from {from}");
    }
    Ok(())
}

// Whether the commands and identity writes from an LSN on are the last of three, so many.
fn are_with_lsn(alloc: Global, from: u64, count: usize) -> Result<bool, Fail> {
    let (mut machine, _) = four_records(alloc)?;
    let log = loaded(alloc, &mut machine, BOUNDS)?;
    let found = with_lsn(alloc, &log, &mut machine, from)?;
    Ok(are_last(&found, count))
}

#[test]
fn what_is_done_again_begins_at_its_lsn(rt: HostRuntime) -> Result<(), Fail> {
    for (from, count) in [(0, 3), (1, 3), (2, 2), (3, 1), (4, 0)] {
        assert!(rt; are_with_lsn(rt.alloc(), from, count)?, "from {from}");
    }
    Ok(())
}

// Appends a checkpoint with the redo start 1 of object 0, and forces it.
fn force_checkpoint(
    alloc: Global,
    log: &mut RecordLog<PlainOp>,
    machine: &mut MemMachine,
    b: Bounds,
) -> Result<(), Fail>
    requires { log.old.bounds ≡ b }
{
    let starts = Starts::new(Vec::from_slice(alloc, &[(0, 1)])?);
    add_checkpoint(log, b, starts)?;
    log.force(machine)?;
    Ok(())
}

// The next LSN of the last checkpoint of a machine's log.
fn last_next(alloc: Global, mut machine: MemMachine) -> Result<Option<u64>, ReadErr> {
    let (log, last) = RecordLog::<PlainOp>::load_checked(alloc, &mut machine, BOUNDS)?;
    drop(log);
    Ok(last.map(|table| table.next))
}

// Whether the last of two checkpoints is found, by its next LSN.
fn last_is_found(alloc: Global) -> Result<bool, Fail> {
    let (mut machine, _) = four_records(alloc)?;
    let mut log = loaded(alloc, &mut machine, BOUNDS)?;
    let forced = force_checkpoint(alloc, &mut log, &mut machine, BOUNDS);
    drop(log);
    let next = last_next(alloc, machine);
    forced?;
    Ok(next? == Some(4))
}

#[test]
fn the_last_checkpoint_is_found(rt: HostRuntime) -> Result<(), Fail> {
    assert!(rt; last_is_found(rt.alloc())?);
    Ok(())
}

// Appends two puts.
fn add_two(alloc: Global, log: &mut RecordLog<PlainOp>, b: Bounds) -> Result<(), Fail>
    requires { log.old.bounds ≡ b }
{
    add(log, b, put(alloc, 1, b"abc")?)?;
    add(log, b, put(alloc, 2, b"")?)
}

// How many commands of a machine's log are stable.
fn forced_in(alloc: Global, mut machine: MemMachine) -> Result<u64, ReadErr> {
    let log = loaded(alloc, &mut machine, BOUNDS)?;
    let forced = log.forced();
    drop(log);
    Ok(forced)
}

// Whether a force of two records that is stopped after some calls answers Ok, and how many are stable after a crash.
fn stopped(alloc: Global, calls: u64, how: Crash) -> Result<(bool, u64), Fail> {
    let mut machine = new_store(alloc)?;
    let mut log = loaded(alloc, &mut machine, BOUNDS)?;
    let added = add_two(alloc, &mut log, BOUNDS);
    let mut fuse = Fuse::new(machine, calls);
    let is_ok = log.force(&mut fuse).is_ok();
    drop(log);
    let forced = forced_in(alloc, fuse.into_inner().crash(how));
    added?;
    Ok((is_ok, forced?))
}

// After how many calls a force is stopped, the crash, and how many records are stable.
const STOPS: [(u64, Crash, u64); 7] = [
    (0, Crash::New, 0),
    (1, Crash::New, 0),
    (2, Crash::New, 0),
    (3, Crash::Old, 0),
    (3, Crash::Fill(7), 0),
    (3, Crash::New, 2),
    (4, Crash::Old, 2),
];

#[test]
fn a_stopped_force_keeps_all_or_none(rt: HostRuntime) -> Result<(), Fail> {
    for (calls, how, forced) in STOPS {
        let left = stopped(rt.alloc(), calls, how)?;
        assert!(rt;
            left == (calls == 4, forced),
            "after {calls} calls, {how:?}"
        );
    }
    Ok(())
}

// What a load finds where log A has these bytes from its first gate on: the counts, or why there are none.
fn found_in(alloc: Global, block: &[u8]) -> Result<Result<[u64; 4], ReadErr>, Fail> {
    let mut machine = new_store(alloc)?;
    machine.write_at(FileNo::LogA, 33, block)?;
    match loaded(alloc, &mut machine, BOUNDS) {
        Ok(log) => Ok(Ok(counts(&log))),
        Err(e) => Ok(Err(e)),
    }
}

// That log A is damaged at this offset.
fn damaged(place: u64) -> Result<[u64; 4], ReadErr> {
    Err(ReadErr::Damaged {
        file: FileNo::LogA,
        place,
    })
}

// A put, an identity write and a checkpoint in one block.
const THREE_KINDS: &[u8] = b"\x01\x40\0\0\0\
    \x01\x01\0\0\0\0\0\0\0\x01\0\0\0\0\x01\0\0\0\xaa\
    \x02\x02\0\0\0\0\0\0\0\x01\0\0\0\x03\0\0\0abc\
    \x03\x03\0\0\0\0\0\0\0\x01\0\0\0\0\0\0\0\x01\0\0\0\0\0\0\0\
    \0";

#[test]
fn a_load_counts_commands_alone(rt: HostRuntime) -> Result<(), Fail> {
    assert!(rt; found_in(rt.alloc(), THREE_KINDS)? == Ok([102, 3, 1, 1]));
    Ok(())
}

// Blocks, each with a closed gate after it, and where the log is then damaged.
const BROKEN: [(&[u8], u64); 5] = [
    (b"\x01\x01\0\0\0\x02\0", 38),
    (
        b"\x01\x12\0\0\0\x01\x02\0\0\0\0\0\0\0\x01\0\0\0\0\0\0\0\0\0",
        38,
    ),
    (
        b"\x01\x12\0\0\0\x01\x01\0\0\0\0\0\0\0\x01\x04\0\0\0\0\0\0\0\0",
        38,
    ),
    (
        b"\x01\x13\0\0\0\x01\x01\0\0\0\0\0\0\0\x01\0\0\0\0\0\0\0\0\0\0",
        56,
    ),
    (
        b"\x01\x24\0\0\0\x01\x01\0\0\0\0\0\0\0\x01\0\0\0\0\0\0\0\0\
            \x01\x01\0\0\0\0\0\0\0\x01\0\0\0\0\0\0\0\0\0",
        56,
    ),
];

#[test]
fn a_broken_record_is_damaged(rt: HostRuntime) -> Result<(), Fail> {
    for (block, place) in BROKEN {
        assert!(rt; found_in(rt.alloc(), block)? == damaged(place), "{block:?}");
    }
    Ok(())
}

// Blocks with a put and after it an identity write or a checkpoint that is not right in its place, and why.
const MISPLACED: [(&[u8], &str); 7] = [
    (
        b"\x01\x23\0\0\0\x01\x01\0\0\0\0\0\0\0\x01\0\0\0\0\0\0\0\0\
            \x02\x01\0\0\0\0\0\0\0\0\0\0\0\0\0\0\0\0",
        "a number that was taken",
    ),
    (
        b"\x01\x1f\0\0\0\x01\x01\0\0\0\0\0\0\0\x01\0\0\0\0\0\0\0\0\
            \x03\x03\0\0\0\0\0\0\0\0\0\0\0\0",
        "a next number one late",
    ),
    (
        b"\x01\x2b\0\0\0\x01\x01\0\0\0\0\0\0\0\x01\0\0\0\0\0\0\0\0\
            \x03\x02\0\0\0\0\0\0\0\x01\0\0\0\x04\0\0\0\x01\0\0\0\0\0\0\0\0",
        "an object beyond N",
    ),
    (
        b"\x01\x2b\0\0\0\x01\x01\0\0\0\0\0\0\0\x01\0\0\0\0\0\0\0\0\
            \x03\x02\0\0\0\0\0\0\0\x01\0\0\0\0\0\0\0\0\0\0\0\0\0\0\0\0",
        "a start before the base",
    ),
    (
        b"\x01\x2b\0\0\0\x01\x01\0\0\0\0\0\0\0\x01\0\0\0\0\0\0\0\0\
            \x03\x02\0\0\0\0\0\0\0\x01\0\0\0\0\0\0\0\x02\0\0\0\0\0\0\0\0",
        "a start at the next number",
    ),
    (
        b"\x01\x37\0\0\0\x01\x01\0\0\0\0\0\0\0\x01\0\0\0\0\0\0\0\0\
            \x03\x02\0\0\0\0\0\0\0\x02\0\0\0\0\0\0\0\x01\0\0\0\0\0\0\0\0\0\0\0\x01\0\0\0\0\0\0\0\0",
        "an object twice",
    ),
    (
        b"\x01\x37\0\0\0\x01\x01\0\0\0\0\0\0\0\x01\0\0\0\0\0\0\0\0\
            \x03\x02\0\0\0\0\0\0\0\x02\0\0\0\x01\0\0\0\x01\0\0\0\0\0\0\0\0\0\0\0\x01\0\0\0\0\0\0\0\0",
        "objects that fall",
    ),
];

#[test]
fn a_misplaced_record_is_damaged(rt: HostRuntime) -> Result<(), Fail> {
    for (block, why) in MISPLACED {
        assert!(rt; found_in(rt.alloc(), block)? == damaged(56), "{why}");
    }
    Ok(())
}
