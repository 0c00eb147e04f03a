/// What a range has as a map: its pages, the pairs of their leaves, and the cells of theirs past their spans, which a call that was
/// cut short has left.
#[derive(Clone, Copy, Drop)]
pub struct Checked {
    pub pages: u64,
    pub keys: u64,
    pub past: u64,
}
