// Operations in words.
ghost use Rattle.std.specs.Prelude.{◌≡◌, ◌++◌, OnOk, IfOk, codes};
ghost use Rattle.script_lines.specs.Replies.{hex_text, spaced};
ghost use Rattle.redo_log.specs.Words.{numbers, spaced_hex, plain_words, node_words, program_words, hash_words, page_words, op_words};

use app_program::ProgramOp;
use btree_ops::NodeOp;
use hash_ops::HashOp;
use op_codec::{AllOps, Sum};
use op_meaning::PlainOp;
use oper_core::Memory;
use page_ops::PageOp;
use script_lines::{Answer, answer_text};
use std::alloc::Global;
use tool_output::push_spaced;

/// Bytes in hexadecimal, or `-` for none.
fn hex(alloc: Global, bytes: &[u8]) -> Result<Vec<u8>, Memory>
    ensures { IfOk result (λ text. text.items ≡ hex_text bytes.now) }
{
    let text = answer_text(alloc, &Answer::Value(bytes))?;
    Ok(text)
}

/// Adds bytes in hexadecimal, after a space.
fn push_hex(alloc: Global, text: &mut Vec<u8>, bytes: &[u8]) -> Result<(), Memory>
    ensures { OnOk result (text.new.items ≡ text.old.items ++ spaced_hex bytes.now) }
{
    text.push(b' ')?;
    let hex = hex(alloc, bytes)?;
    text.extend_from_slice(hex.as_slice())?;
    Ok(())
}

/// Adds each number in digits, after a space.
fn push_numbers(alloc: Global, text: &mut Vec<u8>, list: &[u32]) -> Result<(), Memory>
    ensures { OnOk result (text.new.items ≡ text.old.items ++ numbers list.now) }
{
    for number in list {
        push_spaced(alloc, text, u64::from(*number))?;
    }
    Ok(())
}

/// Adds a name, and each number after a space.
fn push_names(alloc: Global, text: &mut Vec<u8>, name: &[u8], list: &[u32]) -> Result<(), Memory>
    ensures { OnOk result (text.new.items ≡ text.old.items ++ name.now ++ numbers list.now) }
{
    text.extend_from_slice(name)?;
    push_numbers(alloc, text, list)?;
    Ok(())
}

/// Adds a name, an object, and bytes.
fn push_value(
    alloc: Global,
    text: &mut Vec<u8>,
    name: &[u8],
    object: u32,
    bytes: &[u8],
) -> Result<(), Memory>
    ensures { OnOk result (text.new.items ≡ text.old.items ++ name.now ++ spaced object ++ spaced_hex bytes.now) }
{
    text.extend_from_slice(name)?;
    push_spaced(alloc, text, u64::from(object))?;
    push_hex(alloc, text, bytes)?;
    Ok(())
}

/// Adds the words of an operation on plain values, or on an application.
fn push_plain(alloc: Global, text: &mut Vec<u8>, op: &PlainOp) -> Result<(), Memory>
    ensures { OnOk result (text.new.items ≡ text.old.items ++ plain_words op.now) }
{
    match op {
        PlainOp::Put { object, value } => push_value(
            alloc,
            text,
            b"put",
            *object,
            value.as_slice(),
        )?,
        PlainOp::Copy { from, to } => push_names(alloc, text, b"copy", &[*from, *to])?,
        PlainOp::Append { from, to } => push_names(alloc, text, b"append", &[*from, *to])?,
        PlainOp::Cut { from, to, place } => push_names(alloc, text, b"cut", &[*from, *to, *place])?,
        PlainOp::Sort { from, to, width } => push_names(
            alloc,
            text,
            b"sort",
            &[*from, *to, *width],
        )?,
        PlainOp::Swap { first, second } => push_names(alloc, text, b"swap", &[*first, *second])?,
        PlainOp::Exec { app } => push_names(alloc, text, b"exec", &[*app])?,
        PlainOp::AppRead { app, from } => push_names(alloc, text, b"aread", &[*app, *from])?,
        PlainOp::AppWrite { app, to } => push_names(alloc, text, b"awrite", &[*app, *to])?,
    }
    Ok(())
}

/// Adds the words of an operation on an interpreted application.
fn push_program(alloc: Global, text: &mut Vec<u8>, op: &ProgramOp) -> Result<(), Memory>
    ensures { OnOk result (text.new.items ≡ text.old.items ++ program_words op.now) }
{
    match op {
        ProgramOp::Step { app, program } => push_names(alloc, text, b"pexec", &[*app, *program])?,
        ProgramOp::Feed { app, from } => push_names(alloc, text, b"pread", &[*app, *from])?,
        ProgramOp::Drain { app, to } => push_names(alloc, text, b"pwrite", &[*app, *to])?,
    }
    Ok(())
}

/// Adds the words of an operation on nodes of a tree.
fn push_node(alloc: Global, text: &mut Vec<u8>, op: &NodeOp) -> Result<(), Memory>
    ensures { OnOk result (text.new.items ≡ text.old.items ++ node_words op.now) }
{
    match op {
        NodeOp::Put { object, key, value } => {
            push_value(alloc, text, b"leaf_put", *object, key.as_slice())?;
            push_hex(alloc, text, value.as_slice())?;
        }
        NodeOp::Delete { object, key } => {
            push_value(alloc, text, b"leaf_delete", *object, key.as_slice())?
        }
        NodeOp::SplitChild { parent, child, new } => {
            push_names(alloc, text, b"split_child", &[*parent, *child, *new])?
        }
        NodeOp::SplitRoot { root, left, right } => {
            push_names(alloc, text, b"split_root", &[*root, *left, *right])?
        }
    }
    Ok(())
}

/// Adds the words of an operation on a hash file.
fn push_hash(alloc: Global, text: &mut Vec<u8>, op: &HashOp) -> Result<(), Memory>
    ensures { OnOk result (text.new.items ≡ text.old.items ++ hash_words op.now) }
{
    match op {
        HashOp::Init { directory, bucket } => {
            push_names(alloc, text, b"hash_begin", &[*directory, *bucket])?
        }
        HashOp::Put { bucket, key, value } => {
            push_value(alloc, text, b"bucket_put", *bucket, key.as_slice())?;
            push_hex(alloc, text, value.as_slice())?;
        }
        HashOp::Delete { bucket, key } => {
            push_value(alloc, text, b"bucket_delete", *bucket, key.as_slice())?
        }
        HashOp::Split {
            directory,
            bucket,
            new,
        } => push_names(alloc, text, b"bucket_split", &[*directory, *bucket, *new])?,
    }
    Ok(())
}

/// Adds a name, a page, and a place or a count.
fn push_at(
    alloc: Global,
    text: &mut Vec<u8>,
    name: &[u8],
    page: u32,
    place: u16,
) -> Result<(), Memory>
    ensures { OnOk result (text.new.items ≡ text.old.items ++ name.now ++ spaced page ++ spaced place) }
{
    text.extend_from_slice(name)?;
    push_spaced(alloc, text, u64::from(page))?;
    push_spaced(alloc, text, u64::from(place))?;
    Ok(())
}

/// Adds a name, a page, a place, and bytes.
fn push_cell(
    alloc: Global,
    text: &mut Vec<u8>,
    name: &[u8],
    page: u32,
    place: u16,
    bytes: &[u8],
) -> Result<(), Memory>
    ensures { OnOk result (text.new.items ≡ text.old.items ++ name.now ++ spaced page ++ spaced place ++ spaced_hex bytes.now) }
{
    push_at(alloc, text, name, page, place)?;
    push_hex(alloc, text, bytes)?;
    Ok(())
}

/// Adds a name, pages, and the places from which and up to which cells are taken.
fn push_cells(
    alloc: Global,
    text: &mut Vec<u8>,
    name: &[u8],
    pages: &[u32],
    from: u16,
    to: u16,
) -> Result<(), Memory>
    ensures { OnOk result (text.new.items ≡ text.old.items ++ name.now ++ numbers pages.now ++ spaced from ++ spaced to) }
{
    push_names(alloc, text, name, pages)?;
    push_spaced(alloc, text, u64::from(from))?;
    push_spaced(alloc, text, u64::from(to))?;
    Ok(())
}

/// Adds the words of an absorb.
fn push_absorb(
    alloc: Global,
    text: &mut Vec<u8>,
    page: u32,
    other: u32,
    count: u16,
) -> Result<(), Memory>
    ensures { OnOk result (text.new.items ≡ text.old.items ++ codes "page_absorb" ++ spaced page ++ spaced other ++ spaced count) }
{
    text.extend_from_slice(b"page_absorb")?;
    push_spaced(alloc, text, u64::from(page))?;
    push_spaced(alloc, text, u64::from(other))?;
    push_spaced(alloc, text, u64::from(count))?;
    Ok(())
}

/// Adds the words of a turn, or those with which one to two children begins.
fn push_turn(
    alloc: Global,
    text: &mut Vec<u8>,
    name: &[u8],
    page: u32,
    place: u16,
    count: u16,
    child: u32,
) -> Result<(), Memory>
    ensures { OnOk result (text.new.items ≡ text.old.items ++ name.now ++ spaced page ++ spaced place ++ spaced count ++ spaced child) }
{
    push_at(alloc, text, name, page, place)?;
    push_spaced(alloc, text, u64::from(count))?;
    push_spaced(alloc, text, u64::from(child))?;
    Ok(())
}

/// Adds the words with which those of a root begin: the page, its level and the left child.
fn push_root(
    alloc: Global,
    text: &mut Vec<u8>,
    page: u32,
    level: u8,
    left: u32,
) -> Result<(), Memory>
    ensures { OnOk result (text.new.items ≡ text.old.items ++ codes "page_root" ++ spaced page ++ spaced level ++ spaced left) }
{
    text.extend_from_slice(b"page_root")?;
    push_spaced(alloc, text, u64::from(page))?;
    push_spaced(alloc, text, u64::from(level))?;
    push_spaced(alloc, text, u64::from(left))?;
    Ok(())
}

/// Adds a key and the child that it leads to.
fn push_child(alloc: Global, text: &mut Vec<u8>, key: &[u8], child: u32) -> Result<(), Memory>
    ensures { OnOk result (text.new.items ≡ text.old.items ++ spaced_hex key.now ++ spaced child) }
{
    push_hex(alloc, text, key)?;
    push_spaced(alloc, text, u64::from(child))?;
    Ok(())
}

/// Adds the words of an operation on pages of a map.
fn push_page(alloc: Global, text: &mut Vec<u8>, op: &PageOp) -> Result<(), Memory>
    ensures { OnOk result (text.new.items ≡ text.old.items ++ page_words op.now) }
{
    match op {
        PageOp::Put {
            page,
            place,
            key,
            value,
        } => {
            push_cell(alloc, text, b"page_put", *page, *place, key.as_slice())?;
            push_hex(alloc, text, value.as_slice())?;
        }
        PageOp::Set { page, place, value } => push_cell(
            alloc,
            text,
            b"page_set",
            *page,
            *place,
            value.as_slice(),
        )?,
        PageOp::Delete { page, place } => { push_at(alloc, text, b"page_delete", *page, *place)? }
        PageOp::Part {
            new,
            page,
            from,
            to,
        } => push_cells(alloc, text, b"page_part", &[*new, *page], *from, *to)?,
        PageOp::Absorb { page, other, count } => {
            push_absorb(alloc, text, *page, *other, *count)?
        }
        PageOp::Join {
            new,
            page,
            other,
            from,
            to,
        } => push_cells(
            alloc,
            text,
            b"page_join",
            &[*new, *page, *other],
            *from,
            *to,
        )?,
        PageOp::Keep { page, count } => push_at(alloc, text, b"page_keep", *page, *count)?,
        PageOp::Turn {
            page,
            place,
            count,
            child,
        } => push_turn(alloc, text, b"page_turn", *page, *place, *count, *child)?,
        PageOp::TurnTwo {
            page,
            place,
            count,
            child,
            key,
            second,
        } => {
            push_turn(alloc, text, b"page_turn_two", *page, *place, *count, *child)?;
            push_child(alloc, text, key.as_slice(), *second)?;
        }
        PageOp::Root {
            page,
            level,
            left,
            key,
            right,
        } => {
            push_root(alloc, text, *page, *level, *left)?;
            push_child(alloc, text, key.as_slice(), *right)?;
        }
        PageOp::Free { page } => push_names(alloc, text, b"page_free", &[*page])?,
    }
    Ok(())
}

/// Adds the words of an operation: those of the line of a script that asks for it, if one asks for it alone.
pub fn push_op(alloc: Global, text: &mut Vec<u8>, op: &AllOps) -> Result<(), Memory>
    ensures { OnOk result (text.new.items ≡ text.old.items ++ op_words op.now) }
{
    match op {
        Sum::First(op) => push_plain(alloc, text, op)?,
        Sum::Second(Sum::First(op)) => push_node(alloc, text, op)?,
        Sum::Second(Sum::Second(Sum::First(op))) => push_program(alloc, text, op)?,
        Sum::Second(Sum::Second(Sum::Second(later))) => match later {
            Sum::First(op) => push_hash(alloc, text, op)?,
            Sum::Second(op) => push_page(alloc, text, op)?,
        },
    }
    Ok(())
}
