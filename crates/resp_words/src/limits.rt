ghost use Rattle.std.specs.Prelude.{◌<◌, ◌^◌};

/// What a command may have at most. Nothing is taken from memory for a count or a length that a client only says.
#[derive(Clone, Copy)]
pub struct Limits {
    /// The words of a command in the array form. Redis allows 1,048,576.
    pub words: u32,
    /// The bytes of a word in the array form. Redis allows 512 MiB.
    pub bytes: u32,
    /// The bytes of a command in one line, its end included. Redis allows 65,536.
    pub line: u32,
    ghost small_words: { words < 2 ^ 32 },
    ghost small_bytes: { bytes < 2 ^ 32 },
}
