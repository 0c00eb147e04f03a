use crate::TaskOutcome;

/// What became of the trim and of the turn of upkeep.
#[derive(Clone, Copy, Debug)]
pub struct UpkeepReport {
    pub trim: TaskOutcome,
    pub turn: TaskOutcome,
}
