use crate::header::Header;
use disk_model::FileNo;

/// A log file with an open header gate: its header, and its length.
#[derive(Clone, Copy)]
pub struct Seen {
    pub file: FileNo,
    pub header: Header,
    pub size: u64,
}
