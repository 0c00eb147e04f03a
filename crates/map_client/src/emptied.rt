use crate::stop::Stop;
use page_map::Beside;

/// A leaf under the page above it: where it stands there, the least key that it may have, and the child beside it.
#[derive(Drop)]
pub(crate) struct Emptied {
    pub above: u32,
    pub place: u16,
    pub from: Vec<u8>,
    pub beside: Beside,
    pub leaf: Stop,
}
