/// Why a call on a map is refused.
pub enum MapRefusal {
    /// An object on the way to the key isn't a page of the map. It is carried.
    BadMap { object: u32 },
    /// The key or the value is longer than pages of this store can take, or the key is empty.
    TooLong,
    /// A page has to be cut, and no object is empty, or the map has all its levels.
    MapFull,
    /// The key to delete isn't there.
    NoKey,
}
