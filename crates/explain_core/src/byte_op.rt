ghost use Rattle.std.specs.Prelude.{◌≡◌, [], ◌∷◌, None, IfSome, IfNone};
ghost use Rattle.explain_core.specs.declared.byte_op.ByteOp.{ByteOp};
ghost use Rattle.explain_core.specs.ByteOps.{byte_meaning, byte_code, byte_shape, byte_bounded, byte_lawful, byte_widens};

use oper_core::{Bounds, Memory, Objs, Oper, Refusal, Values};
use std::alloc::Global;

// How many bytes each code has.
const CODE_BYTES: u64 = 3;

/// A small operation type, for worked runs: a write of one byte, and a swap of two objects.
#[derive(Drop)]
pub enum ByteOp {
    Put { object: u8, byte: u8 },
    Swap { left: u8, right: u8 },
}

impl Oper for ByteOp {
    ghost meaning = { byte_meaning };

    ghost bounded = { byte_bounded };

    ghost lawful = { byte_lawful };

    ghost widens = { byte_widens };

    fn reads(&self) -> Objs {
        match *self {
            ByteOp::Put { .. } => Objs::new(),
            ByteOp::Swap { left, right } => both(left, right),
        }
    }

    fn writes(&self) -> Objs {
        match *self {
            ByteOp::Put { object, .. } => Objs::one(u32::from(object)),
            ByteOp::Swap { left, right } => both(left, right),
        }
    }

    fn shape(&self, b: Bounds) -> Result<(), Refusal> {
        match *self {
            ByteOp::Put { object, .. } => {
                if u32::from(object) >= b.objects {
                    return Err(Refusal::NoObject);
                }
                if b.cap == 0 {
                    return Err(Refusal::TooLarge);
                }
                Ok(())
            }
            ByteOp::Swap { left, right } => {
                if u32::from(left) >= b.objects || u32::from(right) >= b.objects {
                    return Err(Refusal::NoObject);
                }
                if left == right {
                    return Err(Refusal::Same);
                }
                Ok(())
            }
        }
    }

    fn check(&self, _b: Bounds, _values: &Values) -> Result<(), Refusal> {
        Ok(())
    }

    fn apply(&self, alloc: Global, _b: Bounds, values: &Values) -> Result<Values, Memory> {
        let mut made = Values::new(alloc);
        match *self {
            ByteOp::Put { byte, .. } => made.push(&[byte])?,
            ByteOp::Swap { .. } => {
                made.push(values.get(1))?;
                made.push(values.get(0))?;
            }
        }
        Ok(made)
    }

    fn code_length(&self) -> u64 {
        CODE_BYTES
    }

    fn encode(&self, out: &mut Vec<u8>) -> Result<(), Memory> {
        let code = match *self {
            ByteOp::Put { object, byte } => [0, object, byte],
            ByteOp::Swap { left, right } => [1, left, right],
        };
        out.extend_from_slice(&code)?;
        Ok(())
    }

    fn decode(_alloc: Global, b: Bounds, bytes: &[u8]) -> Result<Option<(Self, usize)>, Memory> {
        let [tag, first, second, ..] = *bytes else {
            return Ok(None);
        };
        match ByteOp::of_bytes(tag, first, second) {
            Some(op) => Ok(op.in_grammar(b)),
            None => Ok(None),
        }
    }
}

impl ByteOp {
    /// The operation whose code these bytes are.
    fn of_bytes(tag: u8, first: u8, second: u8) -> Option<Self>
        ensures some { IfSome result (λ op. byte_code op ≡ tag ∷ first ∷ second ∷ []) }
        ensures none { IfNone result ((op : ByteOp) → byte_code op ≡ tag ∷ first ∷ second ∷ [] → ⊥) }
    {
        match tag {
            0 => Some(ByteOp::Put {
                object: first,
                byte: second,
            }),
            1 => Some(ByteOp::Swap {
                left: first,
                right: second,
            }),
            _ => None,
        }
    }

    /// The operation and the length of its code, where it is in the grammar.
    fn in_grammar(self, b: Bounds) -> Option<(Self, usize)>
        ensures some { IfSome result (λ pair. (pair.0 ≡ self) × (pair.1 ≡ 3) × (byte_shape b self ≡ None)) }
        ensures none { IfNone result (byte_shape b self ≡ None → ⊥) }
    {
        match self.shape(b) {
            Ok(()) => Some((self, 3)),
            Err(_) => None,
        }
    }
}

/// Two objects.
fn both(left: u8, right: u8) -> Objs
    ensures { result ≡ left ∷ right ∷ [] }
{
    let mut objects = Objs::one(u32::from(left));
    objects.push(u32::from(right));
    objects
}
