use crate::descent::Descent;
use crate::due::Due;

/// What a page on the way tells of the page that is to be cut.
#[derive(Drop)]
pub enum Further {
    /// It is no page of its level that has all its cells, or names no child in the range.
    Bad,
    /// The search goes on at a child.
    On(Descent),
    /// What is due.
    Found(Due),
}
