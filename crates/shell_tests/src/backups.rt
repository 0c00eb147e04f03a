// Backups that are made while a store serves: what is said, and what the next dump of the backup says.
use crate::running::{empty_folder, new_store, run, run_beside};
use disk_model::{Crash, MemMachine};
use redo_shell::Status;
use std::alloc::{AllocError, Global};
use std::test::Fail;

// The lines of a run, its status, all that it says, and the status and the words of a dump of the backup after it.
type Row = (
    &'static [u8],
    Status,
    &'static [u8],
    (Status, &'static [u8]),
);

const NO_STORE: (Status, &[u8]) = (Status::NotAStore, b"not a store\n");

const ROWS: [Row; 6] = [
    // Object 1 is kept and flushed, and record 4 is an identity write of 0, which is copied already.
    (
        b"put 0 aa\nput 1 bb\nbstart\nbcopy 1\nswap 0 1\ninstall\nbcopy 7\nbfinish\nget 0\n",
        Status::Done,
        b"ok\nok\nok\ncopied 1\nok\nok\ncopied 8\nsaved 3\nbb\n",
        (Status::Done, b"0 bb\n1 aa\ncommands 3\n"),
    ),
    // The lines have an order, and a trim waits for the end.
    (
        b"bcopy 1\nbstart\nbstart\nbfinish\ntrim\n",
        Status::DoneWithRefusals,
        b"refused NoBackup\nok\nrefused InBackup\nrefused NotCopied\nrefused InBackup\n",
        NO_STORE,
    ),
    // A group comes before all of that.
    (
        b"begin\nbstart\nbcopy 8\nbfinish\nend\nbfinish\n",
        Status::DoneWithRefusals,
        b"ok\nrefused InGroup\nrefused InGroup\nrefused InGroup\nok\nrefused NoBackup\n",
        NO_STORE,
    ),
    // What is finished stays, and a trim may come then.
    (
        b"put 7 aa\nbstart\nbcopy 0\nbcopy 4294967295\nbfinish\nput 7 bb\nbstart\ntrim\nbcopy 1\n",
        Status::DoneWithRefusals,
        b"ok\nok\ncopied 0\ncopied 8\nsaved 1\nok\nrefused AlreadyStore\nok\nrefused NoBackup\n",
        (Status::Done, b"7 aa\ncommands 1\n"),
    ),
    // A store without commands.
    (
        b"bstart\nbcopy 8\nbfinish\n",
        Status::Done,
        b"ok\ncopied 8\nsaved 0\n",
        (Status::Done, b"commands 0\n"),
    ),
    // The log begins after records that a trim left out.
    (
        b"put 0 aa\ncopy 0 1\ndrain\ntrim\nput 0 bb\nbstart\nbcopy 8\ncheckpoint\ninstall\nbfinish\n",
        Status::Done,
        b"ok\nok\nok\nok\nok\nok\ncopied 8\nok\nok\nsaved 3\n",
        (Status::Done, b"0 bb\n1 aa\ncommands 3\n"),
    ),
];

// Whether a dump of these files ends so after a crash.
fn is_dumped(alloc: Global, backup: MemMachine, dumped: (Status, &[u8])) -> bool {
    let mut left = backup.crash(Crash::Old);
    let status = run(alloc, &mut left, "redo dump", b"");
    (status == dumped.0) & (left.said() == dumped.1)
}

fn is_answered(alloc: Global, row: &Row) -> Result<bool, AllocError> {
    let (input, status, said, dumped) = *row;
    let mut store = new_store(alloc)?;
    let mut backup = empty_folder(alloc)?;
    let ended = run_beside(alloc, &mut store, &mut backup, "redo run", input);
    let answered = (ended == status) & (store.said() == said) & backup.said().is_empty();
    Ok(answered & is_dumped(alloc, backup, dumped))
}

#[test]
fn backups_are_answered(rt: HostRuntime) -> Result<(), Fail> {
    for (row, backup) in ROWS.iter().enumerate() {
        assert!(rt; is_answered(rt.alloc(), backup)?, "row {row}");
    }
    Ok(())
}

// Whether a run leaves a backup alone whose files are a store.
fn is_left_alone(alloc: Global) -> Result<bool, AllocError> {
    let mut store = new_store(alloc)?;
    let mut backup = new_store(alloc)?;
    run(alloc, &mut backup, "redo run", b"put 0 aa\n");
    let ended = run_beside(
        alloc,
        &mut store,
        &mut backup,
        "redo run",
        b"bstart\nbcopy 1\n",
    );
    let said = store.said() == b"refused AlreadyStore\nrefused NoBackup\n".as_slice();
    let dumped = is_dumped(alloc, backup, (Status::Done, b"0 aa\ncommands 1\n"));
    Ok((ended == Status::DoneWithRefusals) & said & dumped)
}

#[test]
fn a_store_is_no_place_for_a_backup(rt: HostRuntime) -> Result<(), Fail> {
    assert!(rt; is_left_alone(rt.alloc())?);
    Ok(())
}
