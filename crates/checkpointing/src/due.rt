/// What upkeep is due: a trim that leaves a log file of at most so many bytes, and a turn of at most so many nodes.
#[derive(Clone, Copy, Debug)]
pub struct Due {
    pub trim: Option<u64>,
    pub turn: Option<usize>,
}
