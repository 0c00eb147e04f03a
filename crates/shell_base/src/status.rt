ghost use Rattle.std.specs.Prelude.{◌≡◌};
ghost use Rattle.shell_base.specs.Status.{lsn_of, status_after as status_of_end};

use crate::stop::Stop;

/// How the program ends.
#[derive(Clone, Copy, Debug, PartialEq, Eq)]
pub enum Status {
    /// Everything was done, and no answer was a refusal.
    Done,
    /// Everything was done, and some answer was `bad`, `refused`, `full` or `end`.
    DoneWithRefusals,
    /// The words ask for nothing that the program knows.
    Usage,
    /// The files are no store.
    NotAStore,
    /// There is a store already.
    AlreadyStore,
    /// The files break their format.
    Damaged,
    /// The disk failed.
    DiskFault,
    /// The input failed.
    ReadFault,
    /// The output failed.
    SayFault,
    /// Out of memory.
    Memory,
    /// Out of memory in the restart: nothing was said, and nothing of the input was taken.
    RestartMemory,
    /// The input has 2^40 bytes or more.
    TooLong,
    /// The store is of version 2 already.
    AlreadyTwo,
    /// The store has more objects, or longer ones, than it was to get.
    Smaller,
    /// The disk of the backup failed.
    BackupFault,
    /// The log begins behind the number that was asked for.
    Gone,
    /// The input is no stream of frames that the store can follow.
    BadStream,
    /// The log has no room for what the stream has.
    StandbyFull,
}

impl Status {
    /// The number that the process ends with.
    pub fn number(self) -> u8
        ensures { result ≡ lsn_of self }
    {
        match self {
            Status::Done => 0,
            Status::DoneWithRefusals => 1,
            Status::Usage => 2,
            Status::NotAStore | Status::AlreadyStore => 3,
            Status::Damaged => 4,
            Status::DiskFault => 5,
            Status::ReadFault => 6,
            Status::SayFault => 7,
            Status::Memory | Status::RestartMemory => 8,
            Status::TooLong => 9,
            Status::AlreadyTwo => 3,
            Status::Smaller => 10,
            Status::BackupFault => 11,
            Status::Gone => 12,
            Status::BadStream => 13,
            Status::StandbyFull => 14,
        }
    }
}

/// The status of a run, by whether some answer was a refusal, or by why it ended early.
pub fn status_after(outcome: Result<bool, Stop>) -> Status
    ensures { result ≡ status_of_end outcome }
{
    match outcome {
        Ok(true) => Status::DoneWithRefusals,
        Ok(false) => Status::Done,
        Err(stop) => stop.status(),
    }
}
