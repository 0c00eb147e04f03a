ghost use Rattle.std.specs.Prelude.{◌≡◌, ◌∷◌, [], ℕ, IfOk, length};
ghost use Rattle.std.specs.Result.{result_err};
ghost use Rattle.key_entries.specs.Objects.{values_of};
ghost use Rattle.btree_ops.specs.Effects.{made_by};
ghost use Rattle.btree_ops.specs.Operation.{bytes_of, objects_of, read_by};

use crate::coding::{self, DELETE, PUT, SPLIT_CHILD, SPLIT_ROOT};
use crate::{Made, leaf, split};
use key_entries::{
    LEAST_CAP, Short, no_values, require_three, three, write_delete, write_put, write_three,
};
use oper_core::{Bounds, ByteList, Family, Memory, Objs, Oper, Refusal, Values};
use std::alloc::Global;

/// An operation on the nodes of a B-tree, which names the objects that hold them.
#[derive(Clone, Copy)]
pub enum NodeOp {
    /// Puts a pair into the leaf of an object. A key that is there gets the new value.
    Put {
        object: u32,
        key: Short,
        value: Short,
    },
    /// Deletes a key and its value from the leaf of an object.
    Delete {
        object: u32,
        key: Short,
    },
    /// Splits a full child of an inner node. The upper half goes to the new object.
    SplitChild {
        parent: u32,
        child: u32,
        new: u32,
    },
    /// Splits a full root. Its halves go to two new objects, the lower one to the left.
    SplitRoot {
        root: u32,
        left: u32,
        right: u32,
    },
}

impl NodeOp {
    /// Why it makes nothing of the values that it reads, whatever the length of values may be.
    fn may_make(&self, values: &Values) -> Result<(), Refusal>
        requires { length values.now ≡ length (read_by self.now) }
        ensures { result_err result ≡ result_err (made_by self.now values.now) }
    {
        match self {
            NodeOp::Put { key, .. } => leaf::may_put(values.get(0), *key),
            NodeOp::Delete { key, .. } => leaf::may_delete(values.get(0), *key),
            NodeOp::SplitChild { child, new, .. } => {
                let _made = split::split_child(values.get(0), values.get(1), *child, *new)?;
                Ok(())
            }
            NodeOp::SplitRoot { left, right, .. } => {
                let _made = split::split_root(values.get(0), *left, *right)?;
                Ok(())
            }
        }
    }

    /// The bytes of the nodes that it makes of the values that it reads, whatever the length of values may be. They are
    /// none where it makes no node.
    fn make(&self, alloc: Global, values: &Values) -> Result<Values, Memory>
        requires { length values.now ≡ length (read_by self.now) }
        ensures { IfOk result (λ made. made ≡ values_of bytes_of (objects_of self.now) (made_by self.now values.now)) }
    {
        match self {
            NodeOp::Put { key, value, .. } => {
                let bytes = leaf::put(alloc, values.get(0), *key, *value)?;
                Ok(one_value(alloc, bytes))
            }
            NodeOp::Delete { key, .. } => {
                let bytes = leaf::delete(alloc, values.get(0), *key)?;
                Ok(one_value(alloc, bytes))
            }
            NodeOp::SplitChild { child, new, .. } => {
                let made = split::split_child(values.get(0), values.get(1), *child, *new);
                three_values(alloc, &made)
            }
            NodeOp::SplitRoot { left, right, .. } => {
                let made = split::split_root(values.get(0), *left, *right);
                three_values(alloc, &made)
            }
        }
    }
}

/// The bytes as the one value.
fn one_value(alloc: Global, bytes: Vec<u8>) -> Values
    ensures { result ≡ bytes.items ∷ [] }
{
    let mut values = Values::new(alloc);
    values.push_list(ByteList::new(bytes));
    values
}

/// The bytes of the nodes of a split, or three empty values where there are none.
fn three_values(alloc: Global, made: &Result<Made, Refusal>) -> Result<Values, Memory>
    ensures { (x y z : ℕ) → IfOk result (λ values. values ≡ values_of bytes_of (x ∷ y ∷ z ∷ []) made.now) }
{
    match made {
        Ok(made) => made.values(alloc),
        Err(_) => no_values(alloc, &[0, 0, 0]),
    }
}

impl Oper for NodeOp {
    ghost use Rattle.btree_ops.specs.Operation.{node_meaning};
    ghost use Rattle.btree_ops.specs.OperationLaws.{node_bounded, node_lawful, node_widens};

    ghost meaning = { node_meaning };

    fn reads(&self) -> Objs {
        match self {
            NodeOp::Put { object, .. } => Objs::one(*object),
            NodeOp::Delete { object, .. } => Objs::one(*object),
            NodeOp::SplitChild { parent, child, .. } => {
                let mut objects = Objs::one(*parent);
                objects.push(*child);
                objects
            }
            NodeOp::SplitRoot { root, .. } => Objs::one(*root),
        }
    }

    fn writes(&self) -> Objs {
        match self {
            NodeOp::Put { object, .. } => Objs::one(*object),
            NodeOp::Delete { object, .. } => Objs::one(*object),
            NodeOp::SplitChild { parent, child, new } => three(*parent, *child, *new),
            NodeOp::SplitRoot { root, left, right } => three(*root, *left, *right),
        }
    }

    fn shape(&self, b: Bounds) -> Result<(), Refusal> {
        match self {
            NodeOp::Put { object, key, value } => {
                key.known_as_short();
                value.known_as_short();
                if *object >= b.objects {
                    return Err(Refusal::NoObject);
                }
                Ok(())
            }
            NodeOp::Delete { object, key } => {
                key.known_as_short();
                if *object >= b.objects {
                    return Err(Refusal::NoObject);
                }
                Ok(())
            }
            NodeOp::SplitChild { parent, child, new } => require_three(b, *parent, *child, *new),
            NodeOp::SplitRoot { root, left, right } => require_three(b, *root, *left, *right),
        }
    }

    fn check(&self, b: Bounds, values: &Values) -> Result<(), Refusal> {
        self.may_make(values)?;
        if b.cap < LEAST_CAP {
            return Err(Refusal::TooLarge);
        }
        Ok(())
    }

    fn apply(&self, alloc: Global, b: Bounds, values: &Values) -> Result<Values, Memory> {
        if b.cap < LEAST_CAP {
            return no_values(alloc, self.writes().as_slice());
        }
        self.make(alloc, values)
    }

    fn code_length(&self) -> u64 {
        coding::code_len(self) as u64
    }

    fn encode(&self, out: &mut Vec<u8>) -> Result<(), Memory> {
        match self {
            NodeOp::Put { object, key, value } => write_put(PUT, *object, *key, *value, out),
            NodeOp::Delete { object, key } => write_delete(DELETE, *object, *key, out),
            NodeOp::SplitChild { parent, child, new } => {
                write_three(SPLIT_CHILD, *parent, *child, *new, out)
            }
            NodeOp::SplitRoot { root, left, right } => {
                write_three(SPLIT_ROOT, *root, *left, *right, out)
            }
        }
    }

    fn decode(_alloc: Global, b: Bounds, bytes: &[u8]) -> Result<Option<(Self, usize)>, Memory> {
        let Some(op) = coding::read(bytes) else {
            return Ok(None);
        };
        if op.shape(b).is_err() {
            return Ok(None);
        }
        let length = coding::code_len(&op);
        Ok(Some((op, length)))
    }

    ghost bounded = { node_bounded };

    ghost lawful = { node_lawful };

    ghost widens = { node_widens };
}

impl Family for NodeOp {
    ghost use Rattle.btree_ops.specs.Operation.{is_node_tag};
    ghost use Rattle.btree_ops.specs.OperationLaws.{node_tagged};

    ghost has_tag = { is_node_tag };

    fn owns(tag: u8) -> bool {
        10 <= tag && tag <= 13
    }

    ghost tagged = { node_tagged };
}
