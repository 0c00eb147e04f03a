/// Why a call on a hash file is refused.
pub enum HashRefusal {
    /// The range ends past the last object, or has no object behind its first.
    NoObject,
    /// The first object is neither empty nor a directory, or the one that the key's entry names is not in the range behind
    /// it, is no bucket, or is deeper than the directory. The one met first is carried.
    BadHash { object: u32 },
    /// The key's bucket is full, and as deep as can be.
    HashFull { object: u32 },
    /// An object is needed, and none is free.
    NoRoom { free: u32 },
    /// The key to delete isn't there.
    NoKey,
}
