use page_map::MapRefusal;

/// Why a call on a map is refused.
pub enum CallRefusal {
    /// The range ends past the last object.
    NoObject,
    /// The store admits no operations on pages, or its values hold fewer than 1,024 bytes: no map of it can be changed.
    NoPages,
    /// The map refuses it. A bad object is one on the way to the key that is no page of the level that the way is on, has a cell
    /// that doesn't fit, or names a child outside the range or the root as a child; the one met first is carried.
    Map(MapRefusal),
}
