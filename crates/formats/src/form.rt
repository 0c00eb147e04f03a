use oper_core::Bounds;

/// Where the parts of an objects file stand, and which numbers its store may have: what a version of the format says.
#[derive(Clone, Copy)]
pub struct Form {
    /// The place of the store's numbers.
    pub numbers: u64,
    /// The place of the first slot.
    pub first: u64,
    /// The bounds of the smaller store that was there before. A store that was made with this version has none, and 0
    /// objects here.
    pub older: Bounds,
    /// The greatest bounds of a store, and whether one may admit the further families of operations.
    pub most: Bounds,
}
