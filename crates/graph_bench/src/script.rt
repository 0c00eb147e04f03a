use crate::works::{of_form, put};
use oper_core::Objs;

/// How many rows a script has, each of twelve bits of the script's number, the first of the lowest.
const ROWS: u32 = 5;

/// Operation k of the script: its rows are done in their order and then object 0 is put, over and over.
pub fn scripted(script: u64, k: u32) -> (Objs, Objs) {
    let mut place = (k as u64 % (length(script) as u64 + 1)) as u32;
    let mut rest = script;
    for _ in 0..ROWS {
        let turns = turns(rest);
        if place < turns {
            return in_turn(rest, place, turns);
        }
        place = place.saturating_sub(turns);
        rest >>= 12;
    }
    put(0)
}

/// How many operations the rows of the script have.
fn length(script: u64) -> u32 {
    let mut length = 0u32;
    let mut rest = script;
    for _ in 0..ROWS {
        length = length.saturating_add(turns(rest));
        rest >>= 12;
    }
    length
}

/// How often the row is done in a round.
fn turns(row: u64) -> u32 {
    match row >> 6 & 3 {
        0 => 1,
        1 => 16,
        2 => 256,
        _ => 4096,
    }
}

/// The operation of one turn of a row; a row in a pair does in its odd turns what the next one does.
fn in_turn(row: u64, turn: u32, turns: u32) -> (Objs, Objs) {
    if has(row, 2048) && turn % 2 == 1 {
        operation(row >> 12, turn, turns)
    } else {
        operation(row, turn, turns)
    }
}

/// A put, a copy, an append or a swap over two of the first four objects, or over objects that move up or down by one in each turn.
fn operation(row: u64, turn: u32, turns: u32) -> (Objs, Objs) {
    let moved = if has(row, 1024) {
        turns.saturating_sub(turn)
    } else {
        turn
    };
    let x = object(row >> 2, has(row, 256), moved);
    let y = object(row >> 4, has(row, 512), moved);
    of_form((row & 3) as u32, x, y)
}

/// One of the first four objects, or as far behind it as it has moved.
fn object(first: u64, moves: bool, moved: u32) -> u32 {
    let first = (first & 3) as u32;
    if moves {
        first.saturating_add(moved)
    } else {
        first
    }
}

fn has(row: u64, bit: u64) -> bool {
    row & bit != 0
}
