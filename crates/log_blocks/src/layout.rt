// Where things stand in a log file.

pub const OPEN: u8 = 1;

pub const CLOSED: u8 = 0;

pub const MAGIC: [u8; 8] = *b"RDOLOG01";

pub const MAGIC_PLACE: u64 = 1;

pub const EPOCH_PLACE: u64 = 9;

pub const BASE_PLACE: u64 = 17;

pub const COMMANDS_PLACE: u64 = 25;

// The header: the gate, the magic, and three numbers of eight bytes.
pub const HEADER_BYTES: usize = 33;

pub const FIRST_BLOCK: u64 = 33;

// The bytes of a length, which stand between a block's gate and its payload.
pub const LENGTH_BYTES: usize = 4;
