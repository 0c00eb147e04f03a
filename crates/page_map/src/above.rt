use crate::due::Due;

/// The page above one on the way to a leaf: the place of that page in it, how many bytes it has, and what is due where it can't name
/// a new page.
#[derive(Drop)]
pub struct Above {
    pub(crate) page: u32,
    pub(crate) place: u16,
    pub(crate) size: u16,
    pub(crate) due: Due,
}
