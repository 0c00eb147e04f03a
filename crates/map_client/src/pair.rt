use page_map::Map;
use page_ops::Text;
use std::alloc::Global;

/// A pair that is set in a map, in a store whose pages have so much room.
#[derive(Drop)]
pub(crate) struct NewPair<'a> {
    pub(crate) alloc: Global,
    pub(crate) map: &'a Map,
    pub(crate) room: usize,
    pub(crate) key: Text,
    pub(crate) value: Text,
}
