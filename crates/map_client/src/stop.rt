/// A page on the way to a leaf, and where the span of its keys ends.
#[derive(Drop)]
pub(crate) struct Stop {
    pub object: u32,
    pub to: Option<Vec<u8>>,
}
