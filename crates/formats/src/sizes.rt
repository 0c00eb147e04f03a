// Lengths and limits of the files that several crates need.

/// A record's LSN is below this one, and so is the LSN of a slot. It is the greatest epoch and the greatest base.
pub const LSN_END: u64 = 1 << 62;

/// How long a log may be, with what waits for a force. What stands behind its end does not count.
pub const MAX_LOG: u64 = 1 << 48;

/// How many bytes of records stand in a block at most.
pub const MAX_PAYLOAD: u32 = 1 << 30;

/// How many bytes a log's header has: a gate, the magic, and three numbers.
pub const LOG_HEADER: usize = 33;

/// How many bytes stand in a block before its payload: a gate, and a length.
pub const BLOCK_HEAD: usize = 5;

/// How many bytes stand in a command before its operation: a kind, and a number.
pub const RECORD_HEAD: usize = 9;

/// How many bytes stand in an identity write before its value: a kind, a number, an object, and the value's length.
pub const IDENTITY_HEAD: usize = 17;

/// How many bytes stand in a checkpoint before its redo starts: a kind, a number, and their count.
pub const CHECK_HEAD: usize = 13;

/// How many bytes a redo start has in a checkpoint: an object, and a number.
pub const START_BYTES: usize = 12;
