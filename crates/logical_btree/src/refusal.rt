/// Why a call on a tree is refused.
pub enum TreeRefusal {
    /// The range ends past the last object, or above its own end.
    NoObject,
    /// An object that was met is no node, has a child outside the range or the root as a child, or stands after too long
    /// a way. The one met first is carried.
    BadTree { object: u32 },
    /// A split needs so many objects, and fewer are free.
    TreeFull { need: u32, free: u32 },
    /// The key to delete isn't there.
    NoKey,
}
