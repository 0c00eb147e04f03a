// The kinds of records.
ghost use Rattle.std.specs.Prelude.{◌≡◌};
ghost use Rattle.redo_log.specs.Kinds.{hash_kind, kind_of, node_kind, op_kind, page_kind, plain_kind, program_kind};

use app_program::ProgramOp;
use btree_ops::NodeOp;
use formats::Record;
use hash_ops::HashOp;
use op_codec::{AllOps, Sum};
use op_meaning::PlainOp;
use page_ops::PageOp;

/// The kind of an operation on plain values, or on an application.
fn plain_kind(op: &PlainOp) -> u8
    ensures { result ≡ plain_kind op.now }
{
    match op {
        PlainOp::Put { .. } => 0,
        PlainOp::Copy { .. } => 1,
        PlainOp::Append { .. } => 2,
        PlainOp::Cut { .. } => 3,
        PlainOp::Sort { .. } => 4,
        PlainOp::Swap { .. } => 5,
        PlainOp::Exec { .. } => 6,
        PlainOp::AppRead { .. } => 7,
        PlainOp::AppWrite { .. } => 8,
    }
}

/// That of an operation on a node of a tree.
fn node_kind(op: &NodeOp) -> u8
    ensures { result ≡ node_kind op.now }
{
    match op {
        NodeOp::Put { .. } => 9,
        NodeOp::Delete { .. } => 10,
        NodeOp::SplitChild { .. } => 11,
        NodeOp::SplitRoot { .. } => 12,
    }
}

/// That of an operation of a program.
fn program_kind(op: &ProgramOp) -> u8
    ensures { result ≡ program_kind op.now }
{
    match op {
        ProgramOp::Step { .. } => 13,
        ProgramOp::Feed { .. } => 14,
        ProgramOp::Drain { .. } => 15,
    }
}

/// That of an operation on a bucket.
fn hash_kind(op: &HashOp) -> u8
    ensures { result ≡ hash_kind op.now }
{
    match op {
        HashOp::Init { .. } => 16,
        HashOp::Put { .. } => 17,
        HashOp::Delete { .. } => 18,
        HashOp::Split { .. } => 19,
    }
}

/// That of an operation on a page.
fn page_kind(op: &PageOp) -> u8
    ensures { result ≡ page_kind op.now }
{
    match op {
        PageOp::Put { .. } => 20,
        PageOp::Set { .. } => 21,
        PageOp::Delete { .. } => 22,
        PageOp::Part { .. } => 23,
        PageOp::Absorb { .. } => 24,
        PageOp::Join { .. } => 25,
        PageOp::Keep { .. } => 26,
        PageOp::Turn { .. } => 27,
        PageOp::TurnTwo { .. } => 28,
        PageOp::Root { .. } => 29,
        PageOp::Free { .. } => 30,
    }
}

/// That of an operation of any family.
fn op_kind(op: &AllOps) -> u8
    ensures { result ≡ op_kind op.now }
{
    match op {
        Sum::First(op) => plain_kind(op),
        Sum::Second(Sum::First(op)) => node_kind(op),
        Sum::Second(Sum::Second(Sum::First(op))) => program_kind(op),
        Sum::Second(Sum::Second(Sum::Second(later))) => match later {
            Sum::First(op) => hash_kind(op),
            Sum::Second(op) => page_kind(op),
        },
    }
}

/// The kind of a record: that of its command's operation, an identity write, or a checkpoint.
pub fn kind_of(it: &Record<AllOps>) -> u8
    ensures { result ≡ kind_of it.now }
{
    match it {
        Record::Command(_, op) => op_kind(op),
        Record::Identity(..) => 31,
        Record::Checkpoint(_) => 32,
    }
}
