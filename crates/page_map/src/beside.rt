/// The child beside another in a page.
#[derive(Clone, Copy, Drop)]
pub enum Beside {
    /// The next one.
    Next { object: u32 },
    /// There is none behind it, but one before it.
    Before { object: u32 },
    /// The page has no other child.
    Only,
}
