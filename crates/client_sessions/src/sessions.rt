use crate::session::Session;
use crate::session_limits::SessionLimits;
use std::alloc::Global;

/// What is kept of all clients, each at the number that its frames have.
#[derive(Drop)]
pub struct Sessions {
    pub(crate) alloc: Global,
    pub(crate) limits: SessionLimits,
    pub(crate) sessions: Vec<Session>,
    pub(crate) came: u64,
}
