/// Where the objects of an entry stand, and what else it is.
#[derive(Clone, Copy)]
pub(crate) struct Head {
    /// Where the objects begin: those that it reads, and behind them those that it writes.
    pub(crate) start: u32,
    /// How many it reads.
    pub(crate) reads: u8,
    /// How many it writes.
    pub(crate) writes: u8,
    /// Whether it is an identity write.
    pub(crate) identity: bool,
}
