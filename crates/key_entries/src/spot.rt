/// Where the pair of a key stands in the bytes of pairs, or where it would stand.
#[derive(Clone, Copy)]
pub struct Spot {
    /// How many bytes stand before it.
    pub start: usize,
    /// How many stand before the pair that follows it.
    pub end: usize,
}
