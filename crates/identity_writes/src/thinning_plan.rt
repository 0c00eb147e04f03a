use crate::ObjectList;

/// What becomes of objects that have to be flushed together: one is kept to be flushed, the others are logged.
#[derive(Drop)]
pub struct Plan {
    pub keep: Option<u32>,
    pub log: ObjectList,
}
