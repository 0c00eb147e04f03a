use crate::Params;

/// Where the slots of a store stand in its objects file: one after the other, each as long as the numbers say, from the
/// first one on. No version of the format is seen in it.
#[derive(Clone, Copy)]
pub struct Layout {
    /// The numbers of the store.
    pub params: Params,
    /// The place of the first slot.
    pub first: u64,
}
