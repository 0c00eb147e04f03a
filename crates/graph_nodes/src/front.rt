/// How far a search has come: which of the found nodes is next, and how many cells it has looked at.
#[derive(Drop)]
pub(crate) struct Front {
    pub(crate) next: usize,
    pub(crate) spent: u64,
}
