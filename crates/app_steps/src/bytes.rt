// That what an operation has in the log consists of bytes, for proofs: the types of its texts say so.
ghost use Rattle.std.specs.Prelude.{◌<◌};
ghost use Rattle.oper_core.specs.declared.bounds.Bounds.{Bounds};
ghost use Rattle.op_rows.specs.Rows.{names_code};
ghost use Rattle.op_meaning.specs.Table.{plain_row};
ghost use Rattle.key_entries.specs.Short.{short_code};
ghost use Rattle.btree_ops.specs.Operation as nodes;
ghost use Rattle.hash_ops.specs.Operation as hashes;
ghost use Rattle.page_ops.specs.Operation as pages;
ghost use Rattle.op_codec.specs.AllOps.{all_meaning};
ghost use Rattle.app_program.specs.OneCode.{AreBytes};

use btree_ops::NodeOp;
use hash_ops::HashOp;
use key_entries::Short;
use op_codec::{AllOps, Sum};
use op_meaning::PlainOp;
use page_ops::PageOp;

// A slice consists of bytes.
fn known(_bytes: &[u8])
    ensures { AreBytes _bytes.now }
{}

// So does a key or a value with its length.
fn known_short(bytes: &Short)
    ensures { AreBytes (short_code bytes.now) }
{
    known(bytes.as_slice());
}

// And so does the code of an operation of each family.
fn known_plain(op: &PlainOp)
    ensures { AreBytes (names_code (plain_row op.now).names) }
{
    if let PlainOp::Put { value, .. } = op {
        known(value.as_slice());
    }
}

fn known_node(op: &NodeOp)
    ensures { AreBytes (nodes.op_code op.now) }
{
    match op {
        NodeOp::Put { key, value, .. } => {
            known_short(key);
            known_short(value);
        }
        NodeOp::Delete { key, .. } => known_short(key),
        NodeOp::SplitChild { .. } | NodeOp::SplitRoot { .. } => {}
    }
}

fn known_hash(op: &HashOp)
    ensures { AreBytes (hashes.op_code op.now) }
{
    match op {
        HashOp::Put { key, value, .. } => {
            known_short(key);
            known_short(value);
        }
        HashOp::Delete { key, .. } => known_short(key),
        HashOp::Init { .. } | HashOp::Split { .. } => {}
    }
}

// A level is a byte.
fn known_level(_level: u8)
    ensures { _level < 256 }
{}

fn known_page(op: &PageOp)
    ensures { AreBytes (pages.op_code op.now) }
{
    match op {
        PageOp::Put { key, value, .. } => {
            known(key.as_slice());
            known(value.as_slice());
        }
        PageOp::Set { value, .. } => known(value.as_slice()),
        PageOp::TurnTwo { key, .. } => known(key.as_slice()),
        PageOp::Root { level, key, .. } => {
            known_level(*level);
            known(key.as_slice());
        }
        PageOp::Delete { .. }
        | PageOp::Part { .. }
        | PageOp::Absorb { .. }
        | PageOp::Join { .. }
        | PageOp::Keep { .. }
        | PageOp::Turn { .. }
        | PageOp::Free { .. } => {}
    }
}

/// That what an operation has in the log consists of bytes, for proofs. It does nothing.
pub fn known_as_bytes(op: &AllOps)
    ensures { (b : Bounds) → AreBytes ((all_meaning b).code op.now) }
{
    match op {
        Sum::First(op) => known_plain(op),
        Sum::Second(Sum::First(op)) => known_node(op),
        Sum::Second(Sum::Second(Sum::First(_))) => {}
        Sum::Second(Sum::Second(Sum::Second(later))) => match later {
            Sum::First(op) => known_hash(op),
            Sum::Second(op) => known_page(op),
        },
    }
}
