// What a file holds, seen through the calls that wait.
ghost use Rattle.std.specs.Prelude.{◌≡◌, ◌+◌, ◌-◌, ◌<◌, ◌≤◌, ◌^◌, ◌++◌, ℕ, List, drop, length, min, take};
ghost use Rattle.disk_model.specs.Disk.{read_of, written_over};
ghost use Rattle.disk_model.specs.Padded.{padded};
ghost use Rattle.write_queue.specs.Looking.{file_after, file_step};
ghost use Rattle.write_queue.specs.Waiting.{call_of, calls_in};

use crate::Queued;
use disk_model::FileNo;

// Copies what of a write falls into a window of its file.
fn lay_over(at: u64, bytes: &[u8], from: u64, into: &mut [u8])
    requires { from + length into.old < 2 ^ 64 }
    ensures { (old : List ℕ) → into.old ≡ padded old from (length into.old) → into.new ≡ padded (written_over at bytes.now old) from (length into.old) }
{
    let first = at.max(from);
    let end = at
        .saturating_add(bytes.len() as u64)
        .min(from + into.len() as u64);
    if first < end {
        let part = &bytes[(first - at) as usize..(end - at) as usize];
        copy_into(into, (first - from) as usize, part);
    }
}

fn copy_into(into: &mut [u8], at: usize, bytes: &[u8])
    requires { at + length bytes.now ≤ length into.old }
    ensures { into.new ≡ take at into.old ++ bytes.now ++ drop (at + length bytes.now) into.old }
{
    into[at..at + bytes.len()].copy_from_slice(bytes);
}

// Does a call on a window of a file.
fn do_call(call: &Queued, file: FileNo, from: u64, into: &mut [u8])
    requires { from + length into.old < 2 ^ 64 }
    ensures { (old : List ℕ) → into.old ≡ padded old from (length into.old) → into.new ≡ padded (file_step file (call_of call.now) old) from (length into.old) }
{
    if let Queued::Write {
        file: of,
        at,
        bytes,
    } = call
    {
        if *of == file {
            lay_over(*at, bytes, from, into);
        }
    }
}

// Fills a window with what a file of these bytes holds there, once the calls are made. What is past its end is 0.
fn look(bytes: &[u8], calls: &[Queued], file: FileNo, from: u64, into: &mut [u8])
    requires { from + length into.old < 2 ^ 64 }
    ensures { into.new ≡ padded (file_after file bytes.now (calls_in calls.now)) from (length into.old) }
{
    into.fill(0);
    lay_over(0, bytes, from, into);
    for call in calls {
        do_call(call, file, from, into);
    }
}

// The size of a file of this size, once a call is made. One that 64 bits don't hold is the greatest that they do.
fn size_by(size: u64, call: &Queued, file: FileNo) -> u64
    ensures { (old : List ℕ) → size ≡ min (length old) (2 ^ 64 - 1) → result ≡ min (length (file_step file (call_of call.now) old)) (2 ^ 64 - 1) }
{
    match call {
        Queued::Write {
            file: of,
            at,
            bytes,
        } if *of == file => size.max(at.saturating_add(bytes.len() as u64)),
        _ => size,
    }
}

/// The size of a file of these bytes, once the calls are made. One that 64 bits don't hold is the greatest that they do.
pub fn size_through(bytes: &[u8], calls: &[Queued], file: FileNo) -> u64
    ensures { result ≡ min (length (file_after file bytes.now (calls_in calls.now))) (2 ^ 64 - 1) }
{
    let mut size = bytes.len() as u64;
    for call in calls {
        size = size_by(size, call, file);
    }
    size
}

/// Reads what a file of these bytes holds at a place, once the calls are made, and says how many bytes that are.
pub fn read_through(bytes: &[u8], calls: &[Queued], file: FileNo, at: u64, into: &mut [u8]) -> usize
    requires { length (file_after file bytes.now (calls_in calls.now)) < 2 ^ 64 }
    ensures fits { result ≤ length into.old }
    ensures bytes { take result into.new ≡ read_of (file_after file bytes.now (calls_in calls.now)) at (length into.old) }
    ensures count { result ≡ length (read_of (file_after file bytes.now (calls_in calls.now)) at (length into.old)) }
{
    let size = size_through(bytes, calls, file);
    let count = size.saturating_sub(at).min(into.len() as u64) as usize;
    look(bytes, calls, file, at, &mut into[..count]);
    count
}
