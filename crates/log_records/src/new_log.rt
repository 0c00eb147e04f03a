// What a new log will be: how many commands stand before its base, and the lengths of its blocks.
#[derive(Drop)]
pub struct NewLog {
    pub commands: u64,
    pub lengths: Vec<u32>,
}
