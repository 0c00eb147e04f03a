/// A step down from a page to a child.
#[derive(Clone, Copy, Drop)]
pub struct Step<'a> {
    /// The place of the child's cell.
    pub place: u16,
    /// The child.
    pub object: u32,
    /// The least key that the child may have.
    pub from: &'a [u8],
    /// The next key, where the child's span ends there. Else it ends with that of the page.
    pub end: Option<&'a [u8]>,
}
