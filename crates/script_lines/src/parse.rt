ghost use Rattle.std.specs.Prelude.{◌≡◌, IfOk, IsErrOf};
ghost use Rattle.script_lines.specs.Grammar.{AsksFor, IsBad, IsRead, form_in, rows, map_rows, program_rows, made_rows, hash_rows, store_rows, fields_of, without_return, ask_map, change_map};

use crate::fields::{
    map_key, map_limit, map_two, next_field, no_field, object_and_value, one_number, range_and_key,
    range_and_two, three_numbers, two_numbers,
};
use crate::line::{Grouping, Line, Making, MapChange, MapQuestion, Question, Saving, Upkeep};
use app_program::ProgramOp;
use op_codec::{plain_op, program_op};
use op_meaning::PlainOp;
use oper_core::Memory;
use std::alloc::Global;
use thiserror::Error;

/// The most bytes that a line may have, its newline not counted.
pub const MAX_LINE: usize = 40000;

/// Why a line asks nothing.
#[derive(Clone, Copy, Debug, PartialEq, Eq, Error)]
pub enum LineErr {
    /// It is outside the grammar.
    #[error("bad")]
    Bad,
    /// Out of memory.
    #[error("out of memory")]
    Memory,
}

impl From<Memory> for LineErr {
    ghost use Rattle.std.specs.Prelude.{◌≡◌};
    ghost use Rattle.script_lines.specs.declared.parse.LineErr.TheVariants.{Memory as OutOfMemory};

    ghost from_gives = { λ _ e. e ≡ OutOfMemory };

    fn from(_: Memory) -> Self {
        LineErr::Memory
    }
}

/// A line without the byte 13 that may stand at its end.
fn without_return(line: &[u8]) -> &[u8]
    ensures { result.now ≡ without_return line.now }
{
    match line {
        [text @ .., b'\r'] => text,
        _ => line,
    }
}

/// What a line asks of the store: its first field is this word, and the others are in the rest.
fn store_line(word: &[u8], rest: &[u8]) -> Option<Line>
    ensures { IsRead (form_in store_rows word.now) (fields_of rest.now) result }
{
    if word == b"get".as_slice() {
        one_number(rest).map(|object| Line::Ask(Question::Get { object }))
    } else if word == b"force".as_slice() {
        no_field(rest).map(|()| Line::Force)
    } else if word == b"install".as_slice() {
        no_field(rest).map(|()| Line::Keep(Upkeep::Install))
    } else if word == b"drain".as_slice() {
        no_field(rest).map(|()| Line::Keep(Upkeep::Drain))
    } else if word == b"checkpoint".as_slice() {
        no_field(rest).map(|()| Line::Keep(Upkeep::Checkpoint))
    } else if word == b"trim".as_slice() {
        no_field(rest).map(|()| Line::Keep(Upkeep::Trim))
    } else if word == b"begin".as_slice() {
        no_field(rest).map(|()| Line::Group(Grouping::Begin))
    } else if word == b"end".as_slice() {
        no_field(rest).map(|()| Line::Group(Grouping::End))
    } else if word == b"abort".as_slice() {
        no_field(rest).map(|()| Line::Group(Grouping::Abort))
    } else if word == b"stat".as_slice() {
        no_field(rest).map(|()| Line::Stat)
    } else if word == b"bstart".as_slice() {
        no_field(rest).map(|()| Line::Save(Saving::Start))
    } else if word == b"bcopy".as_slice() {
        one_number(rest).map(|count| Line::Save(Saving::Copy { count }))
    } else if word == b"bfinish".as_slice() {
        no_field(rest).map(|()| Line::Save(Saving::Finish))
    } else {
        None
    }
}

/// The same of a line that asks a hash file, too.
fn hash_line(word: &[u8], rest: &[u8]) -> Option<Line>
    ensures { IsRead (form_in hash_rows word.now) (fields_of rest.now) result }
{
    if word == b"hset".as_slice() {
        range_and_two(rest).map(|(low, high, key, value)| {
            Line::Make(Making::HashPut {
                low,
                high,
                key,
                value,
            })
        })
    } else if word == b"hget".as_slice() {
        range_and_key(rest).map(|(low, high, key)| Line::Ask(Question::HashGet { low, high, key }))
    } else if word == b"hdel".as_slice() {
        range_and_key(rest).map(|(low, high, key)| Line::Make(Making::HashDelete {
            low,
            high,
            key,
        }))
    } else {
        store_line(word, rest)
    }
}

/// The same of a line that asks a tree, or for as many steps of an application as it has input, too.
fn made_line(word: &[u8], rest: &[u8]) -> Option<Line>
    ensures { IsRead (form_in made_rows word.now) (fields_of rest.now) result }
{
    if word == b"arun".as_slice() {
        two_numbers(rest).map(|(app, steps)| Line::Make(Making::AppRun { app, steps }))
    } else if word == b"tinsert".as_slice() {
        range_and_two(rest).map(|(low, high, key, value)| {
            Line::Make(Making::TreeInsert {
                low,
                high,
                key,
                value,
            })
        })
    } else if word == b"tget".as_slice() {
        range_and_key(rest).map(|(low, high, key)| Line::Ask(Question::TreeGet { low, high, key }))
    } else if word == b"tdelete".as_slice() {
        range_and_key(rest).map(|(low, high, key)| Line::Make(Making::TreeDelete {
            low,
            high,
            key,
        }))
    } else if word == b"trange".as_slice() {
        range_and_two(rest).map(|(low, high, from, to)| {
            Line::Ask(Question::TreeRange {
                low,
                high,
                from,
                to,
            })
        })
    } else {
        hash_line(word, rest)
    }
}

/// The same of a line that asks an application, too.
fn program_line(word: &[u8], rest: &[u8]) -> Option<Line>
    ensures { IsRead (form_in program_rows word.now) (fields_of rest.now) result }
{
    if word == b"exec".as_slice() {
        one_number(rest).map(|app| Line::Run(plain_op(PlainOp::Exec { app })))
    } else if word == b"aread".as_slice() {
        two_numbers(rest).map(|(app, from)| Line::Run(plain_op(PlainOp::AppRead { app, from })))
    } else if word == b"awrite".as_slice() {
        two_numbers(rest).map(|(app, to)| Line::Run(plain_op(PlainOp::AppWrite { app, to })))
    } else if word == b"pexec".as_slice() {
        two_numbers(rest).map(|(app, program)| {
            Line::Run(program_op(ProgramOp::Step { app, program }))
        })
    } else if word == b"pread".as_slice() {
        two_numbers(rest).map(|(app, from)| Line::Run(program_op(ProgramOp::Feed { app, from })))
    } else if word == b"pwrite".as_slice() {
        two_numbers(rest).map(|(app, to)| Line::Run(program_op(ProgramOp::Drain { app, to })))
    } else if word == b"prun".as_slice() {
        three_numbers(rest).map(|(app, program, steps)| {
            Line::Make(Making::ProgramRun {
                app,
                program,
                steps,
            })
        })
    } else {
        made_line(word, rest)
    }
}

/// What a map of these objects is asked.
fn ask_map(low: u32, high: u32, question: MapQuestion) -> Line
    ensures { result ≡ ask_map low high question }
{
    Line::Ask(Question::Map {
        low,
        high,
        question,
    })
}

/// A map of these objects is changed.
fn change_map(low: u32, high: u32, change: MapChange) -> Line
    ensures { result ≡ change_map low high change }
{
    Line::Make(Making::Map { low, high, change })
}

/// The same of a line that asks a map, too. Out of memory is the only error.
fn map_line(alloc: Global, word: &[u8], rest: &[u8]) -> Result<Option<Line>, Memory>
    ensures { IfOk result (IsRead (form_in map_rows word.now) (fields_of rest.now)) }
{
    if word == b"mset".as_slice() {
        let set = map_two(alloc, rest)?;
        Ok(set.map(|(low, high, key, value)| change_map(low, high, MapChange::Set { key, value })))
    } else if word == b"mget".as_slice() {
        let get = map_key(alloc, rest)?;
        Ok(get.map(|(low, high, key)| ask_map(low, high, MapQuestion::Get { key })))
    } else if word == b"mdel".as_slice() {
        let delete = map_key(alloc, rest)?;
        Ok(delete.map(|(low, high, key)| change_map(low, high, MapChange::Delete { key })))
    } else if word == b"mrange".as_slice() {
        let range = map_limit(alloc, rest)?;
        Ok(range.map(|(low, high, from, to, limit)| {
            ask_map(low, high, MapQuestion::Range { from, to, limit })
        }))
    } else if word == b"mback".as_slice() {
        let back = map_limit(alloc, rest)?;
        Ok(back.map(|(low, high, from, to, limit)| {
            ask_map(low, high, MapQuestion::Back { from, to, limit })
        }))
    } else if word == b"mcount".as_slice() {
        let count = map_two(alloc, rest)?;
        Ok(count.map(|(low, high, from, to)| ask_map(low, high, MapQuestion::Count { from, to })))
    } else if word == b"mnext".as_slice() {
        let next = map_key(alloc, rest)?;
        Ok(next.map(|(low, high, key)| ask_map(low, high, MapQuestion::Next { key })))
    } else if word == b"mprev".as_slice() {
        let prev = map_key(alloc, rest)?;
        Ok(prev.map(|(low, high, key)| ask_map(low, high, MapQuestion::Prev { key })))
    } else {
        Ok(program_line(word, rest))
    }
}

/// The same of any line.
fn line_of(alloc: Global, word: &[u8], rest: &[u8]) -> Result<Option<Line>, Memory>
    ensures { IfOk result (IsRead (form_in rows word.now) (fields_of rest.now)) }
{
    if word == b"put".as_slice() {
        let put = object_and_value(alloc, rest)?;
        Ok(put.map(|(object, value)| Line::Run(plain_op(PlainOp::Put { object, value }))))
    } else if word == b"copy".as_slice() {
        Ok(two_numbers(rest).map(|(from, to)| Line::Run(plain_op(PlainOp::Copy { from, to }))))
    } else if word == b"append".as_slice() {
        Ok(two_numbers(rest).map(|(from, to)| Line::Run(plain_op(PlainOp::Append { from, to }))))
    } else if word == b"cut".as_slice() {
        Ok(three_numbers(rest).map(|(from, to, place)| Line::Run(plain_op(PlainOp::Cut {
            from,
            to,
            place,
        }))))
    } else if word == b"sort".as_slice() {
        Ok(three_numbers(rest).map(|(from, to, width)| Line::Run(plain_op(PlainOp::Sort {
            from,
            to,
            width,
        }))))
    } else if word == b"swap".as_slice() {
        Ok(two_numbers(rest).map(|(first, second)| Line::Run(plain_op(PlainOp::Swap {
            first,
            second,
        }))))
    } else {
        map_line(alloc, word, rest)
    }
}

/// Takes a line apart, its newline not included. [`LineErr::Bad`] exactly where it is outside the grammar.
pub fn parse_line(alloc: Global, line: &[u8]) -> Result<Line, LineErr>
    ensures ok { IfOk result (AsksFor line.now) }
    ensures bad { IsErrOf result LineErr.Bad → IsBad line.now }
{
    if line.len() > MAX_LINE {
        return Err(LineErr::Bad);
    }
    let Some((word, rest)) = next_field(without_return(line)) else {
        return Ok(Line::Skip);
    };
    if word.starts_with(b"#") {
        return Ok(Line::Skip);
    }
    match line_of(alloc, word, rest)? {
        Some(line) => Ok(line),
        None => Err(LineErr::Bad),
    }
}
