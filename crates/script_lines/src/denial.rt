ghost use Rattle.std.specs.Prelude.{◌≡◌};
ghost use Rattle.script_lines.specs.Replies.{denial_name as name_in_words};

/// Why a call on a hash file or a map is refused, where that is no refusal of a command.
#[derive(Clone, Copy, Debug, PartialEq, Eq)]
pub enum Denial {
    /// The range of objects is no hash file.
    BadHash,
    /// The key's bucket is full, and as deep as can be.
    HashFull,
    /// An object is needed, and none is free.
    NoRoom,
    /// An object on the way in a map is no page of it.
    BadMap,
    /// The map needs more objects than are free, or more levels than it can have.
    MapFull,
    /// The key or the value is too long for the pages of a map, or the key is empty.
    TooLong,
}

/// Its name.
pub fn denial_name(denial: Denial) -> &'static [u8]
    ensures { result.now ≡ name_in_words denial }
{
    match denial {
        Denial::BadHash => b"BadHash",
        Denial::HashFull => b"HashFull",
        Denial::NoRoom => b"NoRoom",
        Denial::BadMap => b"BadMap",
        Denial::MapFull => b"MapFull",
        Denial::TooLong => b"TooLong",
    }
}
