use resp_words::Limits;

/// What is kept of a client at most.
#[derive(Clone, Copy)]
pub struct SessionLimits {
    /// The words of a command, and the bytes of each.
    pub commands: Limits,
    /// The bytes of a command in all, as they come.
    pub command: usize,
    /// What the commands behind MULTI take, each 32 bytes, and each of their words 32 bytes more than it has.
    pub queue: usize,
    /// The names that it watches.
    pub watched: usize,
}
