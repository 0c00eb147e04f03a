/// What became of a task of upkeep: of its trim or of its turn.
#[derive(Clone, Copy, Debug, PartialEq, Eq)]
pub enum TaskOutcome {
    /// It was not due, and nothing was done.
    NotDue,
    /// It was done. Of an empty write graph no node is installed.
    Done,
    /// The log has no room for a record, or a trim would leave more than it may.
    LogFull { used: u64, need: u64, limit: u64 },
    /// No record may have this LSN.
    LsnEnd { lsn: u64 },
    /// No log may have a greater epoch.
    Exhausted { epoch: u64 },
}
