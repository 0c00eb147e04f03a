use op_codec::AllOps;

/// A command of a call, and whether it ends the call.
#[derive(Drop)]
pub struct Turn {
    pub op: AllOps,
    pub last: bool,
}
