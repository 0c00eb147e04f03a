/// What an install did.
#[derive(Clone, Copy, Debug, PartialEq, Eq)]
pub enum Install {
    /// A node of so many entries left the graph; this object was flushed, if there was one to flush, and so many identity
    /// writes were logged.
    Installed {
        ops: u64,
        flushed: Option<u32>,
        identities: u64,
    },
    /// The graph had no entry.
    Clean,
}
