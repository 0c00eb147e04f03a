use crate::records::Records;
use oper_core::Bounds;

/// What a restart of a store finds whose files have no fault.
#[derive(Clone, Copy)]
pub struct Restart {
    pub bounds: Bounds,
    pub records: Records,
}
