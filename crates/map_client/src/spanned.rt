use crate::stop::Stop;

/// A page on the way to a leaf, and the whole span of its keys.
#[derive(Drop)]
pub(crate) struct Spanned {
    pub from: Vec<u8>,
    pub stop: Stop,
}
