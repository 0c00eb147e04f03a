ghost use Rattle.std.specs.Prelude.{◌≡◌, ℕ, true, false};
ghost use Rattle.op_codec.specs.Sum.{sum_meaning, either_tag};
ghost use Rattle.op_codec.specs.SumLaws.{sum_bounded, sum_lawful, sum_widens, sum_tagged};

use oper_core::{Bounds, Family, Memory, Objs, Oper, Refusal, Values};
use std::alloc::Global;

/// A family that shares no tag with another.
pub trait ApartFrom<A: Family>: Family {
    ghost apart: { (tag : ℕ) → A.has_tag tag ≡ true → Self.has_tag tag ≡ false };
}

/// The operations of two families as one type. The tag of a code says of which family it is.
#[derive(Drop)]
pub enum Sum<A, B> {
    First(A),
    Second(B),
}

// What the operation's own family answers.
macro_rules! by_its_family {
    ($sum:expr, $op:ident => $answer:expr) => {
        match $sum {
            Sum::First($op) => $answer,
            Sum::Second($op) => $answer,
        }
    };
}

impl<A: Family, B: ApartFrom<A>> Oper for Sum<A, B> {
    ghost meaning = { sum_meaning A.meaning B.meaning };

    fn reads(&self) -> Objs {
        by_its_family!(self, op => op.reads())
    }

    fn writes(&self) -> Objs {
        by_its_family!(self, op => op.writes())
    }

    fn shape(&self, b: Bounds) -> Result<(), Refusal> {
        by_its_family!(self, op => op.shape(b))
    }

    fn check(&self, b: Bounds, values: &Values) -> Result<(), Refusal> {
        by_its_family!(self, op => op.check(b, values))
    }

    fn apply(&self, alloc: Global, b: Bounds, values: &Values) -> Result<Values, Memory> {
        by_its_family!(self, op => op.apply(alloc, b, values))
    }

    fn apply_in_place(
        self,
        alloc: Global,
        b: Bounds,
        values: &mut Values,
    ) -> Result<Values, Memory> {
        by_its_family!(self, op => op.apply_in_place(alloc, b, values))
    }

    fn code_length(&self) -> u64 {
        by_its_family!(self, op => op.code_length())
    }

    fn encode(&self, out: &mut Vec<u8>) -> Result<(), Memory> {
        by_its_family!(self, op => op.encode(out))
    }

    fn decode(alloc: Global, b: Bounds, bytes: &[u8]) -> Result<Option<(Self, usize)>, Memory> {
        let Some(tag) = bytes.first() else {
            return Ok(None);
        };
        if A::owns(*tag) {
            return match A::decode(alloc, b, bytes)? {
                Some((op, length)) => Ok(Some((Sum::First(op), length))),
                None => Ok(None),
            };
        }
        match B::decode(alloc, b, bytes)? {
            Some((op, length)) => Ok(Some((Sum::Second(op), length))),
            None => Ok(None),
        }
    }

    ghost bounded = { sum_bounded A.meaning B.meaning };

    ghost lawful = { λ b small. sum_lawful A.meaning B.meaning b (A.bounded b) (B.bounded b) (A.lawful b small) (B.lawful b small) A.has_tag B.has_tag (A.tagged b) (B.tagged b) B.apart };

    ghost widens = { λ b c within. sum_widens A.meaning B.meaning b c (A.bounded b) (B.bounded b) (A.widens b c within) (B.widens b c within) };
}

impl<A: Family, B: ApartFrom<A>> Family for Sum<A, B> {
    ghost has_tag = { either_tag A.has_tag B.has_tag };

    fn owns(tag: u8) -> bool {
        A::owns(tag) || B::owns(tag)
    }

    ghost tagged = { λ b. sum_tagged A.meaning B.meaning b A.has_tag B.has_tag (A.tagged b) (B.tagged b) };
}
