ghost use Rattle.std.specs.Prelude.{◌≡◌};
ghost use Rattle.formats.specs.Records.{lsn_of};

use dirty_page_table::DirtyPageTable;
use oper_core::ByteList;

/// What the log holds.
#[derive(Drop)]
pub enum Record<O> {
    /// A command, with its LSN.
    Command(u64, O),

    /// An identity write, with its LSN: the object, and the value that it has.
    Identity(u64, u32, ByteList),

    /// A checkpoint: where a redo starts. It has no LSN.
    Checkpoint(DirtyPageTable),
}

impl<O> Record<O> {
    /// The LSN that it has, if it is no checkpoint.
    pub fn lsn(&self) -> Option<u64>
        ensures { result ≡ lsn_of self.now }
    {
        match self {
            Record::Command(lsn, _) | Record::Identity(lsn, _, _) => Some(*lsn),
            Record::Checkpoint(_) => None,
        }
    }
}
