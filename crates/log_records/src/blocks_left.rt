// What a new log gets still: so many bytes in the block in hand, and the blocks of these lengths from the next one on.
#[derive(Drop)]
pub struct BlocksLeft {
    pub left: u32,
    pub lengths: Vec<u32>,
    pub next: usize,
}
