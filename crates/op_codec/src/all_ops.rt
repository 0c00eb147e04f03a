// The families of a store. One more is a line in the type, an instance that says that its tags are apart, and a function.
ghost use Rattle.std.specs.Prelude.{◌≡◌};
ghost use Rattle.op_codec.specs.AllOps.{hash, node, page, plain, program};
ghost use Rattle.op_codec.specs.Tags.{later_from_nodes, later_from_programs, others_from_plain, pages_from_hashes};

use crate::{ApartFrom, Sum};
use app_program::ProgramOp;
use btree_ops::NodeOp;
use hash_ops::HashOp;
use op_meaning::PlainOp;
use page_ops::PageOp;

/// An operation of a store.
pub type AllOps = Sum<PlainOp, Sum<NodeOp, Sum<ProgramOp, Sum<HashOp, PageOp>>>>;

impl ApartFrom<HashOp> for PageOp {
    ghost apart = { pages_from_hashes };
}

impl ApartFrom<ProgramOp> for Sum<HashOp, PageOp> {
    ghost apart = { later_from_programs };
}

impl ApartFrom<NodeOp> for Sum<ProgramOp, Sum<HashOp, PageOp>> {
    ghost apart = { later_from_nodes };
}

impl ApartFrom<PlainOp> for Sum<NodeOp, Sum<ProgramOp, Sum<HashOp, PageOp>>> {
    ghost apart = { others_from_plain };
}

/// An operation on plain values, or on an application.
pub fn plain_op(op: PlainOp) -> AllOps
    ensures { result ≡ plain op }
{
    Sum::First(op)
}

/// An operation on nodes of a B-tree.
pub fn node_op(op: NodeOp) -> AllOps
    ensures { result ≡ node op }
{
    Sum::Second(Sum::First(op))
}

/// An operation on an interpreted application.
pub fn program_op(op: ProgramOp) -> AllOps
    ensures { result ≡ program op }
{
    Sum::Second(Sum::Second(Sum::First(op)))
}

/// An operation on a hash file.
pub fn hash_op(op: HashOp) -> AllOps
    ensures { result ≡ hash op }
{
    Sum::Second(Sum::Second(Sum::Second(Sum::First(op))))
}

/// An operation on pages of a map. Only a store of version 3 admits one.
pub fn page_op(op: PageOp) -> AllOps
    ensures { result ≡ page op }
{
    Sum::Second(Sum::Second(Sum::Second(Sum::Second(op))))
}
