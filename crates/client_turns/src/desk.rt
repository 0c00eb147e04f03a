use client_sessions::Sessions;
use std::alloc::Global;

/// What a server has heard of its clients and not answered yet.
#[derive(Drop)]
pub struct Desk {
    pub(crate) alloc: Global,
    // The end of the input so far, in which no frame is whole.
    pub(crate) rest: Vec<u8>,
    // What each client has left, in which no command is whole.
    pub(crate) rests: Vec<Vec<u8>>,
    pub(crate) sessions: Sessions,
}
