use crate::choice::Choice;

/// What the words ask.
#[derive(Clone, Copy, Debug, PartialEq, Eq)]
pub struct Asked {
    /// The records that are listed.
    pub choice: Choice,
    /// Their numbers instead of their lines.
    pub stats: bool,
    /// Without a lock, while another program may use the store.
    pub glance: bool,
}
