use page_map::Map;
use std::alloc::Global;

/// A key, the way to which is tidied.
#[derive(Drop)]
pub(crate) struct Way<'a> {
    pub(crate) alloc: Global,
    pub(crate) map: &'a Map,
    pub(crate) key: &'a [u8],
}
