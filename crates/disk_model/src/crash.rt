// What a crash makes of bytes that were not synced.

/// Unsynced ranges get their old bytes (the file its last synced length), their new bytes, or one byte all over. A gap
/// that a write past the file's end leaves is such a range too.
#[derive(Clone, Copy, Debug, PartialEq, Eq)]
pub enum Crash {
    Old,
    New,
    Fill(u8),
}
