use disk_model::FileNo;

/// What a pass over the records of the log in force finds.
#[derive(Clone, Copy)]
pub struct Records {
    /// The file of the log.
    pub file: FileNo,
    /// The place of the closed gate that ends it.
    pub end: u64,
    /// The number at which a redo starts.
    pub start: u64,
    /// The number of the next record.
    pub next: u64,
}
