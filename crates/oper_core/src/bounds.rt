/// How many objects a store has, how many bytes each of them may hold, and which operations it admits.
#[derive(Clone, Copy, Debug, PartialEq, Eq)]
pub struct Bounds {
    pub objects: u32,
    pub cap: u32,
    /// Whether it admits the further families of operations, beside the four that every store does.
    pub more: bool,
}
