// What a name is given.
ghost use Rattle.std.specs.Prelude.{◌≡◌, ◌+◌, ◌<◌, ◌^◌};
ghost use Rattle.named_objects.specs.Giving as giving;
ghost use Rattle.named_objects.specs.Records.{given_bytes};

use op_codec::{AllOps, plain_op};
use op_meaning::PlainOp;
use oper_core::ByteList;

/// What a name is given. A value of an object is not moved through memory, and has no bytes in the log.
#[derive(Drop)]
pub enum Given {
    /// A value.
    Bytes(ByteList),
    /// The value of an object.
    CopyOf(u32),
    /// The value that it has, and behind it the value of an object; the latter alone where the name is new.
    Longer(u32),
}

impl Given {
    /// The record of the operation that writes it has so many bytes.
    pub(crate) fn record_length(&self) -> u64
        ensures value { result ≡ given_bytes self.now }
        ensures few { result < 2 ^ 63 + 18 }
    {
        match self {
            Given::Bytes(value) => value.as_slice().len() as u64 + 18,
            Given::CopyOf(_) | Given::Longer(_) => 18,
        }
    }

    /// The operation that writes it to the object of a name.
    pub(crate) fn changed(self, object: u32) -> AllOps
        ensures { result ≡ giving.changed self object }
    {
        match self {
            Given::Bytes(value) => plain_op(PlainOp::Put { object, value }),
            Given::CopyOf(from) => plain_op(PlainOp::Copy { from, to: object }),
            Given::Longer(from) => plain_op(PlainOp::Append { from, to: object }),
        }
    }

    /// The operation that writes it to the object that a new name gets.
    pub(crate) fn fresh(self, object: u32) -> AllOps
        ensures { result ≡ giving.fresh self object }
    {
        match self {
            Given::Bytes(value) => plain_op(PlainOp::Put { object, value }),
            Given::CopyOf(from) | Given::Longer(from) => {
                plain_op(PlainOp::Copy { from, to: object })
            }
        }
    }
}
