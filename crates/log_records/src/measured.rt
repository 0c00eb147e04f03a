// What a new log will be, as far as the old one was read: how many commands stand before its base, the lengths of its full
// blocks, and how many bytes the block in hand has.
#[derive(Drop)]
pub struct Measured {
    pub commands: u64,
    pub full: Vec<u32>,
    pub filled: u32,
}
