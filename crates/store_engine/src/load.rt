/// What of a store makes upkeep due.
#[derive(Clone, Copy, Debug)]
pub struct Load {
    /// The length of the log, and what it may be. While the slots are copied it counts as empty, for it is not cut then.
    pub used: u64,
    pub limit: u64,
    /// How many objects are dirty, how many may be, how many nodes a round installs, and how many records are not installed.
    pub dirty: u64,
    pub allowed: usize,
    pub round: usize,
    pub uninstalled: u64,
}
