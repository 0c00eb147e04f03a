// What a machine in memory keeps of a call.
use crate::FileNo;

/// A call that succeeded. Its bytes stand in the record's pool, after those of earlier calls.
#[derive(Clone, Copy, Debug, PartialEq, Eq)]
pub enum Entry {
    Written {
        file: FileNo,
        at: usize,
        length: usize,
    },
    Synced(FileNo),
    Said {
        length: usize,
    },
}
