use oper_core::ByteList;
use std::alloc::Global;

/// The pairs that are gathered from leaf to leaf, and how many more may follow.
#[derive(Drop)]
pub(crate) struct Gathered {
    pub(crate) alloc: Global,
    pub(crate) pairs: Vec<(ByteList, ByteList)>,
    pub(crate) left: usize,
}
