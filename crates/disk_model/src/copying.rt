// Bytes read at an offset.
ghost use Rattle.std.specs.Prelude.{◌≡◌, ◌≤◌, length, take};
ghost use Rattle.disk_model.specs.Disk.{read_of};

/// Copies the bytes at an offset, as far as there is room for them, and says how many they are.
pub fn copy_from(bytes: &[u8], at: usize, into: &mut [u8]) -> usize
    ensures fits { result ≤ length into.old }
    ensures bytes { take result into.new ≡ read_of bytes.now at (length into.old) }
    ensures count { result ≡ length (read_of bytes.now at (length into.old)) }
{
    if bytes.len() <= at {
        return 0;
    }
    let count = into.len().min(bytes.len() - at);
    into[..count].copy_from_slice(&bytes[at..at + count]);
    count
}
