/// How the program ends. The numbers are those of `redo`.
#[derive(Clone, Copy, Debug, PartialEq, Eq)]
pub enum Status {
    /// All was said.
    Done,
    /// The files are no store.
    NotAStore,
    /// The files break their format.
    Damaged,
    /// The disk failed.
    DiskFault,
    /// The output failed.
    SayFault,
    /// Out of memory.
    Memory,
}

impl Status {
    /// The number that the process ends with.
    pub fn number(self) -> u8 {
        match self {
            Status::Done => 0,
            Status::NotAStore => 3,
            Status::Damaged => 4,
            Status::DiskFault => 5,
            Status::SayFault => 7,
            Status::Memory => 8,
        }
    }
}
