/// When a SET sets.
#[derive(Clone, Copy, Debug, PartialEq, Eq)]
pub enum When {
    /// In any case.
    Always,
    /// Where the name is not there.
    Missing,
    /// Where the name is there.
    There,
}
