// A standby of a small store in memory, by what it gives a test: numbers.
ghost use Rattle.std.specs.Prelude.{◌<◌};

use disk_model::GrowMem;
use formats::Params;
use op_meaning::PlainOp;
use standby_node::{FollowErr, Standby};
use std::alloc::{AllocError, Global};
use store_engine::{Engine, Tuning};

/// Four objects of at most sixteen bytes.
pub const SMALL: Params = Params {
    objects: 4,
    cap: 16,
    limit: 65536,
    more: false,
};

pub const TUNING: Tuning = Tuning {
    clean: 2,
    clean_bytes: 0,
    redo_dirty: 64,
    redo_bytes: 0,
    redo_most: 64,
    redo_waiting: 1 << 28,
    redo_round: 64,
};

/// An answer as its kind and its numbers.
pub type Told = [u64; 3];

/// No answer came: the standby is broken, or the stream is too long.
pub const NO_ANSWER: Told = [9, 0, 0];

fn told(answer: &Result<u64, FollowErr>) -> Told {
    match answer {
        Ok(commands) => [0, *commands, 0],
        Err(FollowErr::BadFrame { place }) => [1, *place, 0],
        Err(FollowErr::Gap { expected, got }) => [2, *expected, *got],
        Err(FollowErr::Differs { lsn }) => [3, *lsn, 0],
        Err(FollowErr::Stopped { place }) => [4, *place, 0],
        Err(_) => [5, 0, 0],
    }
}

const LONGEST: u64 = 1 << 20;

/// Feeds one piece.
pub fn feed(standby: &mut Standby<PlainOp>, machine: &mut GrowMem, piece: &[u8]) -> Told {
    if standby.is_broken() {
        return NO_ANSWER;
    }
    if standby.taken() > LONGEST || piece.len() as u64 > LONGEST {
        return NO_ANSWER;
    }
    told(&standby.feed(machine, piece))
}

// Feeds a stream in pieces of so many bytes, to its first refusal.
fn feed_pieces(
    standby: &mut Standby<PlainOp>,
    machine: &mut GrowMem,
    stream: &[u8],
    size: usize,
) -> Told
    requires { 0 < size }
{
    let mut last = NO_ANSWER;
    for piece in stream.chunks(size) {
        last = feed(standby, machine, piece);
        if last[0] != 0 {
            return last;
        }
    }
    last
}

/// What a standby says of a stream: the answer to its last piece or its first refusal, the place of an unfinished frame, or the
/// greatest number, how many bytes it took, and the answer to an empty piece after it.
pub type Seen = [u64; 8];

// What a standby says of a stream.
fn seen_of(
    standby: &mut Standby<PlainOp>,
    machine: &mut GrowMem,
    stream: &[u8],
    size: usize,
) -> Seen
    requires { 0 < size }
{
    let [kind, a, b] = feed_pieces(standby, machine, stream, size);
    let place = standby.at_frame_start().unwrap_or(u64::MAX);
    let taken = standby.taken();
    let [next_kind, c, d] = feed(standby, machine, b"");
    [kind, a, b, place, taken, next_kind, c, d]
}

/// A machine with the files of a store without commands.
pub fn made(alloc: Global) -> Result<GrowMem, AllocError> {
    let mut machine = GrowMem::new(alloc)?;
    let _ = Engine::<PlainOp>::init(&mut machine, SMALL);
    Ok(machine)
}

/// What a standby of a new store says of a stream that comes in pieces of so many bytes.
pub fn follows(alloc: Global, stream: &[u8], size: usize) -> Result<Seen, AllocError>
    requires { 0 < size }
{
    let mut machine = made(alloc)?;
    let Ok(mut standby) = Standby::attach(alloc, &mut machine, TUNING) else {
        return Ok([9; 8]);
    };
    let seen = seen_of(&mut standby, &mut machine, stream, size);
    drop(standby);
    Ok(seen)
}
