// A pair is inserted.
ghost use Rattle.std.specs.Prelude.{◌≡◌, ◌<◌, List, None, refl};
ghost use Rattle.std.specs.Result.{result_err};
ghost use Rattle.formats.specs.Objects.{bounds_of};
ghost use Rattle.formats.specs.declared.params.Params.{Params};
ghost use Rattle.op_codec.specs.AllOps.{node};
ghost use Rattle.running_store.specs.Taking.Ending.{Done};
ghost use Rattle.store_engine.specs.Lists.{ending_of};
ghost use Rattle.store_calls.specs.Making.{Calls};
ghost use Rattle.btree_ops.specs.Operation.{node_meaning};
ghost use Rattle.logical_btree.specs.Plan.{insert_next, insert_plan, split_with};
ghost use Rattle.range_calls.specs.Free.{free_between};
ghost use Rattle.range_calls.specs.Store.{Command, state_of};
ghost use Rattle.range_calls.specs.Turns.{turn_answer};
ghost use Rattle.tree_client.specs.Answers.{cause_in, made_of, refused_in};

use crate::full::Full;
use crate::splitting::split;
use crate::tree_err::TreeErr;
use crate::walking::{size, walk};
use btree_ops::NodeOp;
use disk_model::Machine;
use key_entries::{Short, has_key};
use logical_btree::{Tree, TreeRefusal, commands_are_accepted};
use op_codec::{AllOps, node_op};
use range_calls::{CallErr, Turn, Turns, reads_go_on, take_turns};
use store_calls::Store;

/// A pair that is inserted.
#[derive(Drop)]
struct NewPair<'a> {
    tree: &'a Tree,
    key: Short,
    value: Short,
}

impl<'a, S: Store<AllOps>> Turns<S> for NewPair<'a> {
    type Op = NodeOp;

    type Refusal = TreeRefusal;

    ghost kind = { node };

    ghost meaning = { node_meaning };

    ghost next = { λ pair b s. insert_next b pair.tree.now.lo pair.tree.now.hi s pair.key pair.value };

    ghost is_there = { λ pair p. pair.tree.now.hi < p.objects };

    fn commands_are_due(&self) {
        commands_are_accepted();
        let _last = self.tree.last();
        let _key = self.key.as_slice();
        let _value = self.value.as_slice();
    }

    /// Finds the command that comes next: the split of the first full node on the way, or the put of the pair, where the key is
    /// there or no node on the way is full.
    fn next_turn<M: Machine>(&self, store: &mut S, machine: &mut M) -> Result<Turn, TreeErr> {
        reads_go_on::<S, M>();
        let found = walk(self.tree, store, machine, self.key)?;
        let put = node_op(NodeOp::Put {
            object: found.leaf,
            key: self.key,
            value: self.value,
        });
        if has_key(found.pairs.as_slice(), self.key) {
            return Ok(Turn {
                op: put,
                last: true,
            });
        }
        match found.full {
            None => Ok(Turn {
                op: put,
                last: true,
            }),
            Some(full) => split_turn(self.tree, store, machine, full),
        }
    }

    ghost means = { λ b s op. refl };
}

/// The turn that splits a full node.
fn split_turn<S: Store<AllOps>, M: Machine>(
    tree: &Tree,
    store: &S,
    machine: &M,
    full: Full,
) -> Result<Turn, TreeErr>
    requires there { tree.now.hi < (S.view.params store.now).objects }
    ensures found { cause_in result ≡ None }
    ensures answer { (p : Params) (commands : List Command) → S.view.holds p (M.disk machine.now) store.now commands → tree.now.hi < p.objects →
        result ≡ turn_answer node (split_with (free_between (state_of p commands) tree.now.lo tree.now.hi) full.child full.parent) }
{
    let split = split(tree, store, machine, full)?;
    let op = node_op(split);
    Ok(Turn { op, last: false })
}

/// Inserts a pair, or gives a key that is there the new value.
///
/// Where the key is absent and a node on the way is full, the first such node is split, the root with the two least free
/// objects and another with the least one, and the insert begins again. It answers `NoObject` exactly where the range ends
/// past the last object, `BadTree` exactly where a way meets a bad object, the one met first, `TreeFull` exactly where a
/// split needs more objects than are free, and `Exec` with what the store answered to a fetch or to a command:
/// `Refused(TooLarge)` exactly where a value may hold fewer than 1,024 bytes and a command is due, and nothing else is
/// refused. The splits made before stay.
pub fn insert<S: Store<AllOps>, M: Machine>(
    tree: &Tree,
    store: &mut S,
    machine: &mut M,
    key: &Short,
    value: &Short,
) -> Result<(), TreeErr>
    requires unbroken { S.view.unbroken store.old }
    ensures calls { Calls S.view (M.disk machine.old) (M.disk machine.new) store.old store.new (cause_in result) }
    ensures adds { (p : Params) (commands : List Command) → S.view.holds p (M.disk machine.old) store.old commands →
        S.view.adds p (M.disk machine.old) (M.disk machine.new) store.old store.new commands
        (made_of p.cap (insert_plan (bounds_of p) tree.now.lo tree.now.hi (state_of p commands) key.now value.now).commands) (ending_of (cause_in result)) }
    ensures answer { (p : Params) (commands : List Command) → S.view.holds p (M.disk machine.old) store.old commands → ending_of (cause_in result) ≡ Done →
        result_err result ≡ refused_in p.cap (insert_plan (bounds_of p) tree.now.lo tree.now.hi (state_of p commands) key.now value.now) }
{
    store.nothing_is_made(machine);
    if tree.last() >= store.params().objects {
        return Err(CallErr::Refused(TreeRefusal::NoObject));
    }
    let pair = NewPair {
        tree,
        key: *key,
        value: *value,
    };
    take_turns(&pair, store, machine, size(tree) + 1)
}
