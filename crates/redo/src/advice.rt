use redo_shell::Status;

/// What happened, and what to do next, for a status that tells of the store that is there, or is not; none for the others.
fn of_the_store(status: Status) -> Option<&'static str> {
    match status {
        Status::NotAStore => Some(
            "no store is in this folder. If it is the folder of your store, copy its files before anything else; \
             `redo init N CAP LIMIT` makes a new store here.",
        ),
        Status::AlreadyStore => Some(
            "a store is in this folder already, and it was left as it is. Make the new one in another folder.",
        ),
        Status::Damaged => Some(
            "a file of the store is missing, or breaks its format at the offset given. Copy objects.rdo, log_a.rdo and \
             log_b.rdo before anything else.",
        ),
        Status::AlreadyTwo => Some(
            "the store is of version 2 already, and it was left as it is. Only a store of version 1 can be made larger: see \
             docs/SCRIPT.md for another way.",
        ),
        Status::Smaller => Some(
            "the store has more objects, or longer ones, as printed, and it was left as it is. Neither N nor CAP may \
             become smaller.",
        ),
        _ => None,
    }
}

/// The same for a status that tells of a log that is shipped, or of a stream that is followed.
fn of_a_stream(status: Status) -> Option<&'static str> {
    match status {
        Status::Gone => Some(
            "the log begins with the number printed, and what came before is gone from it. Ship from that number: a standby \
             passes over what it has. If it then says `stream Gap`, make it anew from a backup of this store.",
        ),
        Status::BadStream => Some(
            "the input cannot be followed from the place or the record printed on. What came before stays: `redo dump` says how \
             many commands there are. After `Short` or `Gap` ship again, from an earlier number, and after `Unknown` from the \
             base of this store's log on. After `BadFrame` or `Differs` the stream is damaged, or of another store, or this one \
             took commands of its own: make it anew from a backup.",
        ),
        Status::StandbyFull => Some(
            "the log has no room for what comes next, as printed. Make the standby anew from a backup of the store that it \
             follows.",
        ),
        _ => of_the_store(status),
    }
}

/// The same for any status that reports trouble.
pub fn advice(status: Status) -> Option<&'static str> {
    match status {
        Status::DiskFault => Some(
            "a file of the store could not be read, written or synced. All that was answered `forced` is there. See to free \
             space and rights, then run again. If it may have been a sync that failed, or the disk itself fails, copy the files \
             and restart the machine first.",
        ),
        Status::BackupFault => Some(
            "the copy of the store could not be written or synced: a file of the backup, bak_objects.rdo, bak_log_a.rdo or \
             bak_log_b.rdo, failed. All that was answered `forced` is in the store. See to free space and rights, then run \
             again: the next `bstart` begins the backup anew.",
        ),
        Status::ReadFault => Some(
            "the input could not be read to its end. Some of the commands after the last `forced` may be kept: `redo dump` \
             says how many there are in all. Run again with the rest.",
        ),
        Status::SayFault => Some(
            "an answer could not be written. In a run, some of the commands after the last `forced` may be kept: `redo dump` \
             says how many there are in all. Run again with the rest.",
        ),
        Status::Memory => Some(
            "out of memory. All that was answered `forced` is there. Run again with more, or with a `drain` now and then: a run takes \
             about 160 bytes for each command that is not installed, beside the values.",
        ),
        Status::RestartMemory => Some(
            "out of memory to open the store, also with as little as a restart takes: all that was answered `forced` is there, and \
             nothing was done. Run again with more.",
        ),
        Status::TooLong => Some(
            "the input has 2^40 bytes or more. Run again with the rest of it: `redo dump` says how many commands are done.",
        ),
        _ => of_a_stream(status),
    }
}
