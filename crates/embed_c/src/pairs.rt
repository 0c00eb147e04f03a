use key_entries::Short;
use oper_core::ByteList;
use std::alloc::Global;

/// The pairs that were found last, which are kept for C: those of a tree, and those of a map of wide pages.
#[derive(Drop)]
pub struct Pairs {
    pub(crate) of_tree: Vec<(Short, Short)>,
    pub(crate) of_map: Vec<(ByteList, ByteList)>,
}

impl Pairs {
    /// None were found yet.
    pub fn none(alloc: Global) -> Pairs {
        Pairs {
            of_tree: Vec::new(alloc),
            of_map: Vec::new(alloc),
        }
    }
}
