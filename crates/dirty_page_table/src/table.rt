use crate::Starts;

/// What a checkpoint keeps in the log.
#[derive(Drop)]
pub struct DirtyPageTable {
    /// The number that the next record had, as the table was taken.
    pub next: u64,
    /// The objects that some operation still has to be installed for, each with the number where its redo starts.
    pub starts: Starts,
}
