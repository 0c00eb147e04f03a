use dirty_page_table::DirtyPageTable;

// What a pass over a log keeps of its records: the number after them, how many are commands, and the last checkpoint's table.
#[derive(Drop)]
pub struct Counted {
    pub next: u64,
    pub commands: u64,
    pub last: Option<DirtyPageTable>,
}
