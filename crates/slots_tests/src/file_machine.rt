// What no clause can say of the machine over files: what it does to real ones. A wrong body of the adapter is refused
// here or nowhere.
use crate::frail_files::{FRAIL, Fails, FrailFiles, FrailInput, INNER};
use disk_model::{Failed, FileMachine, FileNames, FileNo, Machine, Source, StdSource, settle};
use std::alloc::{AllocError, Global};
use std::fs::create_dir;
use std::os::unix::fs::FileExt;
use std::rt::Files;
use std::test::Fail;

const MOVED: FileNames = FileNames {
    objects: "moved_objects",
    log_a: "moved_log_a",
    log_b: "moved_log_b",
};

// Writes a byte to each file and syncs it, and syncs the objects once more: which syncs succeed.
fn syncs<M: Machine>(machine: &mut M) -> Result<[bool; 4], Failed> {
    machine.write_at(FileNo::Objects, 0, &[1])?;
    machine.write_at(FileNo::LogA, 0, &[1])?;
    machine.write_at(FileNo::LogB, 0, &[1])?;
    Ok([
        machine.sync(FileNo::Objects).is_ok(),
        machine.sync(FileNo::LogA).is_ok(),
        machine.sync(FileNo::LogB).is_ok(),
        machine.sync(FileNo::Objects).is_ok(),
    ])
}

// Whether these syncs succeed where one fails.
fn syncs_reach<R: Files + Print + Drop>(rt: R, fails: Fails, succeed: [bool; 4]) -> bool
where
    R::File: FileExt,
{
    let mut machine = FileMachine::with_names(FrailFiles { rt, fails }, FRAIL);
    syncs(&mut machine) == Ok(succeed)
}

// Whether the three files, which an earlier machine wrote, are synced by one that has opened none.
fn settles<R: Files + Print + Drop>(rt: R, fails: Fails) -> bool
where
    R::File: FileExt,
{
    settle(&mut FileMachine::with_names(FrailFiles { rt, fails }, FRAIL)).is_ok()
}

// The folder is first synced after files that were just made, and then after files that were found.
const SYNCS: [(Fails, [bool; 4]); 7] = [
    (Fails::Folder, [false, false, false, false]),
    (Fails::Folder, [false, false, false, false]),
    (Fails::Objects, [false, true, true, false]),
    (Fails::LogA, [true, false, true, true]),
    (Fails::LogB, [true, true, false, true]),
    (Fails::Later, [true, true, true, false]),
    (Fails::Nothing, [true, true, true, true]),
];

#[test]
fn a_sync_reaches_its_file_and_the_folder(rt: HostRuntime) -> Result<(), Fail> {
    for (fails, succeed) in SYNCS {
        let reached = syncs_reach(rt.clone()?, fails, succeed);
        let first_ones = succeed[..3] == [true; 3];
        assert!(rt; reached & (settles(rt.clone()?, fails) == first_ones));
    }
    Ok(())
}

// The same of files in a folder that is given.
fn syncs_reach_inside<R: Files + Print + Drop>(
    rt: R,
    alloc: Global,
    fails: Fails,
    succeed: [bool; 4],
) -> Result<bool, AllocError>
where
    R::File: FileExt,
{
    let mut machine = FileMachine::in_folder(FrailFiles { rt, fails }, alloc, INNER, FRAIL)?;
    Ok(syncs(&mut machine) == Ok(succeed))
}

// It is that folder which is synced, and not the current one.
const SYNCS_INSIDE: [(Fails, [bool; 4]); 2] = [
    (Fails::Inner, [false; 4]),
    (Fails::Folder, [true; 4]),
];

#[test]
fn a_sync_reaches_the_folder_that_is_given(rt: HostRuntime) -> Result<(), Fail> {
    create_dir(&rt, INNER)?;
    for (fails, succeed) in SYNCS_INSIDE {
        assert!(rt; syncs_reach_inside(rt.clone()?, rt.alloc(), fails, succeed)?);
    }
    Ok(())
}

// Whether reads and writes of more than a byte do what they should.
fn moves_all<M: Machine>(machine: &mut M) -> Result<bool, Failed> {
    machine.write_at(FileNo::LogA, 2, b"abc")?;
    machine.write_at(FileNo::LogA, 6, &[])?;
    machine.write_at(FileNo::LogA, 3, b"xy")?;
    machine.write_at(FileNo::LogB, 0, b"other")?;
    let mut into = [9; 7];
    let read = machine.read(FileNo::LogA, 1, &mut into) == Ok(5);
    // A length does not depend on where the last call ended.
    machine.read(FileNo::LogA, 0, &mut [9])?;
    let sizes = [machine.size(FileNo::LogA)?, machine.size(FileNo::Objects)?];
    Ok(read & (into == *b"\0axy\0\x09\x09") & (sizes == [6, 0]))
}

fn moves_all_by_bytes<R: Files + Print + Drop>(rt: R) -> Result<bool, Failed>
where
    R::File: FileExt,
{
    let fails = Fails::Nothing;
    let mut machine = FileMachine::with_names(FrailFiles { rt, fails }, MOVED);
    moves_all(&mut machine)
}

#[test]
fn short_reads_and_writes_go_on(rt: HostRuntime) -> Result<(), Fail> {
    assert!(rt; moves_all_by_bytes(rt.clone()?)?);
    Ok(())
}

const FOLDERS: FileNames = FileNames {
    objects: ".",
    log_a: ".",
    log_b: ".",
};

// Which calls succeed where the names are those of a folder.
fn calls_on_a_folder<R: Files + Print + Drop>(rt: R) -> [bool; 4]
where
    R::File: FileExt,
{
    let mut machine = FileMachine::with_names(rt, FOLDERS);
    [
        machine.size(FileNo::Objects).is_ok(),
        machine.read(FileNo::LogA, 0, &mut [0]).is_ok(),
        machine.write_at(FileNo::LogB, 0, &[1]).is_ok(),
        machine.sync(FileNo::LogB).is_ok(),
    ]
}

// Else the files of a store that may not be read would be those of none.
#[test]
fn a_file_that_cannot_be_opened_is_no_missing_one(rt: HostRuntime) -> Result<(), Fail> {
    assert!(rt; calls_on_a_folder(rt.clone()?) == [false; 4]);
    Ok(())
}

#[test]
fn an_interrupted_read_of_the_input_goes_on(rt: HostRuntime) {
    assert!(rt; StdSource::new(&FrailInput).read(&mut [0]) == Ok(0));
}

fn says<R: Files + Print + Drop>(rt: R, fails: Fails) -> bool
where
    R::File: FileExt,
{
    let mut machine = FileMachine::with_names(FrailFiles { rt, fails }, MOVED);
    machine.say(b"said\n").is_ok()
}

// What reaches the standard output is shown by the stored run of the program.
#[test]
fn a_say_fails_where_the_output_does(rt: HostRuntime) -> Result<(), Fail> {
    assert!(rt; says(rt.clone()?, Fails::Nothing) && !says(rt.clone()?, Fails::Output));
    Ok(())
}

// Whether the file of this name holds this.
fn holds<R: Files + AllocGlobal>(rt: &R, name: &str, bytes: &[u8]) -> bool {
    match std::fs::read(rt, name) {
        Ok(found) => found.as_slice() == bytes,
        Err(_) => false,
    }
}

const NAMED: FileNames = FileNames {
    objects: "named_objects",
    log_a: "named_log_a",
    log_b: "named_log_b",
};

// Whether a byte is written to each file.
fn writes_each<M: Machine>(machine: &mut M) -> bool {
    let written = [
        machine.write_at(FileNo::Objects, 0, b"o").is_ok(),
        machine.write_at(FileNo::LogA, 0, b"a").is_ok(),
        machine.write_at(FileNo::LogB, 0, b"b").is_ok(),
    ];
    written == [true; 3]
}

// Whether the files of these paths hold what was written to each.
fn hold_each<R: Files + AllocGlobal>(rt: &R, paths: [&str; 3]) -> bool {
    let held = [
        holds(rt, paths[0], b"o"),
        holds(rt, paths[1], b"a"),
        holds(rt, paths[2], b"b"),
    ];
    held == [true; 3]
}

#[test]
fn files_have_the_names_that_are_given(rt: HostRuntime) -> Result<(), Fail> {
    let written = writes_each(&mut FileMachine::with_names(rt.clone()?, NAMED));
    assert!(rt; written & hold_each(&rt, [NAMED.objects, NAMED.log_a, NAMED.log_b]));
    Ok(())
}

#[test]
fn a_backup_has_files_of_its_own(rt: HostRuntime) -> Result<(), Fail> {
    let written = writes_each(&mut FileMachine::backup(rt.clone()?));
    let paths = ["bak_objects.rdo", "bak_log_a.rdo", "bak_log_b.rdo"];
    assert!(rt; written & hold_each(&rt, paths));
    Ok(())
}

// Folders, and the paths of the files in each. The one without a name is the current folder.
const INSIDE: [(&str, [&str; 3]); 3] = [
    (
        "folder",
        [
            "folder/named_objects",
            "folder/named_log_a",
            "folder/named_log_b",
        ],
    ),
    (
        "./folder/inner/",
        [
            "folder/inner/named_objects",
            "folder/inner/named_log_a",
            "folder/inner/named_log_b",
        ],
    ),
    ("", ["named_objects", "named_log_a", "named_log_b"]),
];

#[test]
fn files_are_in_the_folder_that_is_given(rt: HostRuntime) -> Result<(), Fail> {
    create_dir(&rt, "folder")?;
    create_dir(&rt, "folder/inner")?;
    for (folder, paths) in INSIDE {
        let mut machine = FileMachine::in_folder(rt.clone()?, rt.alloc(), folder, NAMED)?;
        assert!(rt; writes_each(&mut machine) & hold_each(&rt, paths));
    }
    Ok(())
}

// Which calls succeed in a folder that is missing: its files are missing, and only a write has to make one.
fn calls_in_a_missing_folder<R: Files + Print + Drop>(
    rt: R,
    alloc: Global,
) -> Result<[bool; 4], AllocError>
where
    R::File: FileExt,
{
    let mut machine = FileMachine::in_folder(rt, alloc, "missing", NAMED)?;
    Ok([
        machine.size(FileNo::Objects) == Ok(0),
        machine.read(FileNo::LogA, 0, &mut [0]) == Ok(0),
        machine.write_at(FileNo::LogB, 0, &[1]).is_ok(),
        machine.sync(FileNo::LogB).is_ok(),
    ])
}

#[test]
fn a_missing_folder_has_no_files(rt: HostRuntime) -> Result<(), Fail> {
    let calls = calls_in_a_missing_folder(rt.clone()?, rt.alloc())?;
    assert!(rt; calls == [true, true, false, true]);
    Ok(())
}
