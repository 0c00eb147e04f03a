// The machines and the sources: that calls succeed, and worked cases.
use disk_model::*;
use std::alloc::{AllocError, Global};
use std::test::Fail;

fn machine(alloc: Global, calls: u64, pool: u64, fails: &[u64]) -> Result<MemMachine, AllocError> {
    MemMachine::new(alloc, [8, 8, 8], calls, pool, fails.to_vec(alloc)?)
}

// Four synced bytes, two written over, and one after a gap; the log A is synced. It reports which calls succeed.
fn some_unsynced(machine: &mut MemMachine) -> [bool; 7] {
    [
        machine.write_at(FileNo::Objects, 0, &[1, 2, 3, 4]).is_ok(),
        machine.sync(FileNo::Objects).is_ok(),
        machine.write_at(FileNo::Objects, 1, &[9, 9]).is_ok(),
        machine.write_at(FileNo::LogA, 0, &[5]).is_ok(),
        machine.sync(FileNo::LogA).is_ok(),
        machine.write_at(FileNo::Objects, 6, &[6]).is_ok(),
        machine.say(b"a").is_ok(),
    ]
}

// Whether a machine with nothing said can be used; that takes five calls.
fn is_usable(machine: &mut MemMachine) -> bool {
    let is_new = machine.said().is_empty();
    let writes = write_through(machine, FileNo::LogB, 0, &[1; 8]).is_ok();
    let settles = settle(machine).is_ok();
    is_new & writes & settles & (machine.calls() == 5)
}

// Whether a crash leaves these bytes, and a machine that can be used.
fn leaves(alloc: Global, how: Crash, objects: &[u8]) -> Result<bool, AllocError> {
    let mut before = machine(alloc, 9, 9, &[])?;
    let done = some_unsynced(&mut before) == [true; 7];
    let mut after = before.crash(how);
    let left = after.bytes(FileNo::Objects) == objects;
    let log = after.bytes(FileNo::LogA) == [5].as_slice();
    Ok(done & left & log & is_usable(&mut after))
}

const CRASHES: [(Crash, &[u8]); 6] = [
    (Crash::Old, &[1, 2, 3, 4]),
    (Crash::New, &[1, 9, 9, 4, 0, 0, 6]),
    (Crash::Fill(0), &[1, 0, 0, 4, 0, 0, 0]),
    (Crash::Fill(1), &[1, 1, 1, 4, 1, 1, 1]),
    (Crash::Fill(7), &[1, 7, 7, 4, 7, 7, 7]),
    (Crash::Fill(255), &[1, 255, 255, 4, 255, 255, 255]),
];

#[test]
fn crashes(rt: HostRuntime) -> Result<(), Fail> {
    for (how, objects) in CRASHES {
        assert!(rt; leaves(rt.alloc(), how, objects)?, "{how:?}");
    }
    Ok(())
}

// Eight calls, each of which could succeed: which of them did.
fn eight_calls(machine: &mut MemMachine) -> [bool; 8] {
    [
        machine.write_at(FileNo::LogA, 6, &[1, 2]).is_ok(),
        machine.size(FileNo::LogA).is_ok(),
        machine.write_at(FileNo::LogA, 7, &[1, 2]).is_ok(),
        machine.read(FileNo::LogB, 0, &mut [0; 4]).is_ok(),
        machine.sync(FileNo::LogA).is_ok(),
        machine.say(b"ab").is_ok(),
        machine.write_at(FileNo::Objects, 0, &[1]).is_ok(),
        machine.say(b"c").is_ok(),
    ]
}

// A plan: how many calls may succeed, how many bytes may be written, and which calls fail.
type Plan = (u64, u64, &'static [u64]);

// Which of the eight calls succeed on a machine with this plan, and the counts of calls and faults.
fn answers(alloc: Global, plan: Plan) -> Result<([bool; 8], [u64; 3]), Fail> {
    let (calls, pool, fails) = plan;
    let mut machine = machine(alloc, calls, pool, fails)?;
    let answers = eight_calls(&mut machine);
    let counts = [machine.calls(), machine.disk_faults(), machine.say_faults()];
    Ok((answers, counts))
}

const PLANS: [(Plan, ([bool; 8], [u64; 3])); 5] = [
    (
        (8, 12, &[]),
        ([true, true, false, true, true, true, true, true], [8, 1, 0]),
    ),
    (
        (8, 12, &[1, 5, 6, 9]),
        (
            [false, true, false, true, false, false, true, true],
            [8, 3, 1],
        ),
    ),
    (
        (4, 12, &[]),
        (
            [true, true, false, true, false, false, false, false],
            [8, 3, 2],
        ),
    ),
    (
        (8, 4, &[]),
        (
            [true, true, false, true, true, true, false, false],
            [8, 2, 1],
        ),
    ),
    ((0, 0, &[]), ([false; 8], [8, 6, 2])),
];

#[test]
fn fails_as_planned(rt: HostRuntime) -> Result<(), Fail> {
    for (plan, wanted) in PLANS {
        assert!(rt; answers(rt.alloc(), plan)? == wanted, "{plan:?}");
    }
    Ok(())
}

// Whether a read finds what is placed, the next call fails as planned, and a crash keeps it.
fn keeps_what_is_placed(alloc: Global) -> Result<bool, AllocError> {
    let mut machine = MemMachine::new(alloc, [8, 8, 8], 2, 0, [2].to_vec(alloc)?)?;
    machine.place(FileNo::LogB, b"abcd");
    let mut into = [0; 8];
    let read = machine.read(FileNo::LogB, 1, &mut into) == Ok(3);
    let fails = machine.size(FileNo::LogB).is_err();
    let left = machine.crash(Crash::Fill(1));
    let kept = left.bytes(FileNo::LogB) == b"abcd".as_slice();
    Ok(read & fails & kept & (into == *b"bcd\0\0\0\0\0"))
}

#[test]
fn starts_with_what_is_placed(rt: HostRuntime) -> Result<(), Fail> {
    assert!(rt; keeps_what_is_placed(rt.alloc())?);
    Ok(())
}

// What a read of two bytes gives: the bytes, and how many; 9 where it fails.
fn two_bytes<S: Source>(source: &mut S) -> ([u8; 2], usize) {
    let mut into = [0; 2];
    let count = source.read(&mut into).unwrap_or(9);
    (into, count)
}

// What five reads of a source give, whose second read fails, and the faults.
fn five_reads(alloc: Global) -> Result<([([u8; 2], usize); 5], u64), Fail> {
    let mut source = MemSource::new(b"hello".to_vec(alloc)?, [2].to_vec(alloc)?)?;
    let reads = [
        two_bytes(&mut source),
        two_bytes(&mut source),
        two_bytes(&mut source),
        two_bytes(&mut source),
        two_bytes(&mut source),
    ];
    Ok((reads, source.read_faults()))
}

#[test]
fn reads_fail_as_planned(rt: HostRuntime) -> Result<(), Fail> {
    let wanted = [
        (*b"he", 2),
        ([0; 2], 9),
        (*b"ll", 2),
        (*b"o\0", 1),
        ([0; 2], 0),
    ];
    assert!(rt; five_reads(rt.alloc())? == (wanted, 1));
    Ok(())
}

fn five_calls<M: Machine>(machine: &mut M) -> [bool; 5] {
    [
        machine.say(b"a").is_ok(),
        machine.write_at(FileNo::LogA, 0, &[1]).is_ok(),
        machine.sync(FileNo::LogA).is_ok(),
        machine.size(FileNo::LogA).is_ok(),
        machine.read(FileNo::LogA, 0, &mut [0]).is_ok(),
    ]
}

// Which of fifteen calls succeed through a fuse of seven, on a machine whose first call fails, and how many that one got.
fn fifteen_calls(alloc: Global) -> Result<([[bool; 5]; 3], u64), Fail> {
    let mut fuse = Fuse::new(machine(alloc, 9, 9, &[1])?, 7);
    let answers = [
        five_calls(&mut fuse),
        five_calls(&mut fuse),
        five_calls(&mut fuse),
    ];
    Ok((answers, fuse.into_inner().calls()))
}

#[test]
fn blows(rt: HostRuntime) -> Result<(), Fail> {
    let wanted = [
        [false, true, true, true, true],
        [true, true, false, false, false],
        [false; 5],
    ];
    assert!(rt; fifteen_calls(rt.alloc())? == (wanted, 7));
    Ok(())
}

// Whether a settling succeeds, and the objects file is empty by its length and by a read.
fn finds_nothing<M: Machine>(machine: &mut M) -> [bool; 3] {
    [
        settle(machine).is_ok(),
        machine.size(FileNo::Objects).unwrap_or(9) == 0,
        machine.read(FileNo::Objects, 2, &mut [0; 2]).unwrap_or(9) == 0,
    ]
}

// Which of two writes and a sync succeed.
fn writes_twice<M: Machine>(machine: &mut M) -> [bool; 3] {
    [
        machine.write_at(FileNo::Objects, 2, b"abc").is_ok(),
        machine.write_at(FileNo::Objects, 3, b"x").is_ok(),
        machine.sync(FileNo::Objects).is_ok(),
    ]
}

// What is found of the file through another machine, which a write of no bytes lengthens.
fn finds_all<M: Machine>(machine: &mut M) -> [bool; 6] {
    let mut into = [9; 9];
    [
        machine.write_at(FileNo::Objects, 7, &[]).is_ok(),
        machine.read(FileNo::Objects, 1, &mut into).unwrap_or(9) == 6,
        into == *b"\0axc\0\0\x09\x09\x09",
        machine.size(FileNo::Objects).unwrap_or(9) == 7,
        machine.size(FileNo::LogA).unwrap_or(9) == 0,
        machine.say(b"said\n").is_ok(),
    ]
}

// Whether a file is made by a write alone, and what is written there is read through another machine.
fn is_made_by_writes(rt: &HostRuntime) -> Result<bool, AllocError> {
    let mut first = FileMachine::new(rt.clone()?);
    let mut second = FileMachine::new(rt.clone()?);
    let nothing = finds_nothing(&mut first) == [true; 3];
    let absent = std::fs::metadata(rt, "objects.rdo").is_err();
    let written = writes_twice(&mut first) == [true; 3];
    let found = finds_all(&mut second) == [true; 6];
    Ok(nothing & absent & written & found)
}

#[test]
fn files_are_made_by_writes_alone(rt: HostRuntime) -> Result<(), Fail> {
    assert!(rt; is_made_by_writes(&rt)?);
    Ok(())
}

#[test]
fn reads_the_standard_input(rt: HostRuntime) {
    assert!(rt; two_bytes(&mut StdSource::new(&rt)) == ([0; 2], 0));
}
