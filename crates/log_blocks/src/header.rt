/// What the header of a log says.
#[derive(Clone, Copy)]
pub struct Header {
    pub epoch: u64,
    pub base: u64,
    pub commands: u64,
}
