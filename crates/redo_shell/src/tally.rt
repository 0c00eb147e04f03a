// What was printed is counted.
ghost use Rattle.std.specs.Prelude.{◌≡◌, ◌%◌, ◌^◌, count_by};
ghost use Rattle.redo_shell.specs.Demo.{is_newline, is_refusal, refusal_count, weighed};

/// Whether a text is that of an answer which the status reports.
fn is_refusal(text: &[u8]) -> bool
    ensures { result ≡ is_refusal text.now }
{
    text.starts_with(b"refused ")
        || text.starts_with(b"full ")
        || text.starts_with(b"end ")
        || (text.len() == 3 && text.starts_with(b"bad"))
}

/// How many lines the bytes have, each with its newline.
pub fn line_count(bytes: &[u8]) -> usize
    ensures { result ≡ count_by is_newline bytes.now }
{
    bytes.iter().filter(|byte| **byte == b'\n').count()
}

/// How many of the lines are refusals.
pub fn refusal_count(bytes: &[u8]) -> usize
    ensures { result ≡ refusal_count bytes.now }
{
    bytes
        .split(|byte| *byte == b'\n')
        .filter(|text| is_refusal(text))
        .count()
}

/// The sum, modulo 2^64, of each byte times its offset, counted from 1.
pub fn checksum(bytes: &[u8]) -> u64
    ensures { result ≡ weighed bytes.now % 2 ^ 64 }
{
    let mut sum = 0u64;
    let mut offset = 0u64;
    for byte in bytes {
        offset += 1;
        sum = sum.wrapping_add(offset.wrapping_mul(u64::from(*byte)));
    }
    sum
}
