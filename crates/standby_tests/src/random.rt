// Streams that are drawn at random, and what a standby has to make of them by the records that were put into them.
ghost use Rattle.std.specs.Prelude.{◌<◌};

use crate::standbys::{Seen, Told, follows};
use std::alloc::{AllocError, Global};
use std::test::Fail;

const COMMAND: u8 = 1;

const IDENTITY: u8 = 2;

// An object without a value.
const EMPTY: u64 = 256;

// A stream as it is drawn, and what is followed of it.
#[derive(Drop)]
struct Drawn {
    stream: Vec<u8>,
    // The payload of the frame in hand.
    payload: Vec<u8>,
    // The value of each object, of one byte.
    values: [u64; 4],
    next: u64,
    commands: u64,
    // The first refusal, the place of its frame, and that behind the bytes by which it is known.
    refused: Option<(Told, u64)>,
    end: u64,
    // The place of a frame that is cut short.
    unfinished: u64,
}

// The next number below another that is drawn.
fn draw(seed: &mut u64, below: u64) -> u64
    requires { 0 < below }
    ensures { result < below }
{
    *seed = seed
        .wrapping_mul(6364136223846793005)
        .wrapping_add(1442695040888963407);
    (*seed >> 33) % below
}

// What is made of a record of the frame in hand, which sets an object to a value, or says that it has it.
fn judge(drawn: &mut Drawn, kind: u8, lsn: u64, object: usize, value: u64)
    requires { object < 4 }
{
    if drawn.refused.is_some() || lsn < drawn.next {
        return;
    }
    let start = drawn.stream.len() as u64;
    if lsn > drawn.next {
        drawn.refused = Some(([2, drawn.next, lsn], start));
        return;
    }
    if kind == COMMAND {
        drawn.values[object] = value;
        drawn.commands = drawn.commands.wrapping_add(1);
    } else if drawn.values[object] != value {
        drawn.refused = Some(([3, lsn, 0], start));
        return;
    }
    drawn.next = drawn.next.wrapping_add(1);
}

// Puts a record into the frame in hand: a put of a value of one byte, or an identity write of one.
fn push_record(
    drawn: &mut Drawn,
    kind: u8,
    lsn: u64,
    object: u32,
    value: u8,
) -> Result<(), AllocError>
    requires { object < 4 }
{
    judge(drawn, kind, lsn, object as usize, value as u64);
    drawn.payload.push(kind)?;
    drawn.payload.extend_from_slice(&lsn.to_le_bytes())?;
    if kind == COMMAND {
        drawn.payload.push(1)?;
    }
    drawn.payload.extend_from_slice(&object.to_le_bytes())?;
    drawn.payload.extend_from_slice(&1u32.to_le_bytes())?;
    drawn.payload.push(value)?;
    Ok(())
}

// Puts bytes into the frame in hand that no record begins with.
fn push_fault(drawn: &mut Drawn) -> Result<(), AllocError> {
    if drawn.refused.is_none() {
        let start = drawn.stream.len() as u64;
        let place = start
            .wrapping_add(4)
            .wrapping_add(drawn.payload.len() as u64);
        drawn.refused = Some(([1, place, 0], start));
    }
    drawn.payload.extend_from_slice(b"\x04\x01\x02")?;
    Ok(())
}

// Puts a record that is drawn into the frame in hand; of twenty one is refused.
fn add_record(drawn: &mut Drawn, seed: &mut u64) -> Result<(), AllocError> {
    let object = draw(seed, 4) as u32;
    let value = draw(seed, 256) as u8;
    let next = drawn.next;
    let held = drawn.values[object as usize];
    match draw(seed, 60) {
        0 => push_fault(drawn),
        1 => push_record(drawn, COMMAND, next.wrapping_add(1), object, value),
        2 => push_record(drawn, IDENTITY, next, object, value),
        3..=12 => push_record(drawn, COMMAND, next.wrapping_sub(1), object, value),
        13..=30 if held < EMPTY => push_record(drawn, IDENTITY, next, object, held as u8),
        _ => push_record(drawn, COMMAND, next, object, value),
    }
}

// Ends the frame in hand.
fn end_frame(drawn: &mut Drawn) -> Result<(), AllocError> {
    let length = drawn.payload.len() as u64;
    drawn.stream.extend_from_slice(&length.to_le_bytes()[..4])?;
    drawn.stream.extend_from_slice(&drawn.payload)?;
    drawn.payload.clear();
    if drawn.refused.is_some() && drawn.end == 0 {
        drawn.end = drawn.stream.len() as u64;
    }
    Ok(())
}

// A stream of some frames of one to four records, and what stands behind them.
fn drawn_by(alloc: Global, seed: &mut u64) -> Result<Drawn, AllocError> {
    let mut drawn = Drawn {
        stream: Vec::new(alloc),
        payload: Vec::new(alloc),
        values: [EMPTY; 4],
        next: 1,
        commands: 0,
        refused: None,
        end: 0,
        unfinished: u64::MAX,
    };
    fill(&mut drawn, seed)?;
    if drawn.refused.is_none() {
        end_stream(&mut drawn, alloc, draw(seed, 4))?;
    }
    Ok(drawn)
}

fn fill(drawn: &mut Drawn, seed: &mut u64) -> Result<(), AllocError> {
    let frames = 1 + draw(seed, 6);
    for _ in 0..frames {
        let records = 1 + draw(seed, 4);
        for _ in 0..records {
            add_record(drawn, seed)?;
        }
        end_frame(drawn)?;
    }
    Ok(())
}

// Puts behind frames that are followed: the same frames once more, a length that no payload has, first bytes of a frame, or
// nothing.
fn end_stream(drawn: &mut Drawn, alloc: Global, kind: u64) -> Result<(), AllocError> {
    let start = drawn.stream.len() as u64;
    match kind {
        0 => {
            let mut twice = Vec::new(alloc);
            twice.extend_from_slice(&drawn.stream)?;
            twice.extend_from_slice(&drawn.stream)?;
            drawn.stream = twice;
        }
        1 => {
            drawn.stream.extend_from_slice(b"\0\0\0\0\x01")?;
            drawn.refused = Some(([1, start, 0], start));
            drawn.end = start.wrapping_add(4);
        }
        2 => {
            drawn.stream.extend_from_slice(b"\x09\0\0\0\x01\x02")?;
            drawn.unfinished = start;
        }
        _ => {}
    }
    Ok(())
}

// How much of a stream came with the piece of so many bytes that has the byte before this place.
fn piece_end(place: u64, size: u64, length: u64) -> u64
    requires { 0 < size }
{
    let pieces = place.wrapping_add(size).wrapping_sub(1) / size;
    pieces.wrapping_mul(size).min(length)
}

// What a standby has to say of a stream that comes in pieces of so many bytes.
fn wanted(drawn: &Drawn, size: u64) -> Seen
    requires { 0 < size }
{
    let length = drawn.stream.len() as u64;
    match drawn.refused {
        Some(refused) => {
            let (told, start) = refused;
            let taken = piece_end(drawn.end, size, length);
            [told[0], told[1], told[2], start, taken, 4, start, 0]
        }
        None => [
            0,
            drawn.commands,
            0,
            drawn.unfinished,
            length,
            0,
            drawn.commands,
            0,
        ],
    }
}

// Whether a stream that is drawn is followed as it has to be, in pieces of so many bytes.
fn is_followed(alloc: Global, seed: &mut u64) -> Result<bool, AllocError> {
    let drawn = drawn_by(alloc, seed)?;
    let size = 1 + draw(seed, 40);
    let seen = follows(alloc, drawn.stream.as_slice(), size as usize)?;
    Ok(seen == wanted(&drawn, size))
}

#[test]
fn streams_at_random_are_followed(rt: HostRuntime) -> Result<(), Fail> {
    let mut seed = 20261129;
    for round in 0..200u32 {
        let before = seed;
        assert!(rt;
            is_followed(rt.alloc(), &mut seed)?,
            "round {round}, from {before}"
        );
    }
    Ok(())
}
