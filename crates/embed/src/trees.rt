// Ordered maps in ranges of objects.
ghost use Rattle.std.specs.Prelude.{◌≡◌, true, false, List, [], Ok, Err, IfOk, IfErr};
ghost use Rattle.std.specs.Result.{result_err};
ghost use Rattle.disk_model.specs.Disk.{Passes};
ghost use Rattle.execution.specs.declared.exec_err.ExecErr.TheVariants.{DiskFault};
ghost use Rattle.formats.specs.Objects.{bounds_of};
ghost use Rattle.formats.specs.declared.params.Params.{Params};
ghost use Rattle.op_codec.specs.AllOps.{all_meaning};
ghost use Rattle.running_store.specs.Taking.Ending.{Done};
ghost use Rattle.store_engine.specs.Engine.{Holds};
ghost use Rattle.store_engine.specs.Lists.{AddsFront, AreCalls, ending_of};
ghost use Rattle.logical_btree.specs.Plan.{delete_plan, get_answer, insert_plan, range_answer};
ghost use Rattle.logical_btree.specs.Walk.{is_below};
ghost use Rattle.tree_client.specs.Answers.{cause_in, cause_of, made_of, refused_in, told};
ghost use Rattle.tree_client.specs.Pieces.{span_answer};
ghost use Rattle.range_calls.specs.Store.{Command, state_of};
ghost use Rattle.range_calls.specs.declared.call_err.CallErr.TheVariants.{Exec};
ghost use Rattle.embed.specs.Embedded.{IsStillBroken};

use crate::Store;
use disk_model::Machine;
use key_entries::Short;
use logical_btree::Tree;
use range_calls::CallErr;
use std::alloc::Global;
use store_engine::ExecErr;
use tree_client::{Piece, TreeErr};

impl<M: Machine + Drop> Store<M> {
    /// The value of a key of a tree, as `tree_client::get`.
    pub fn tree_get(&mut self, tree: &Tree, key: &Short) -> Result<Option<Short>, TreeErr>
        ensures time { Passes (M.disk self.old.machine) (M.disk self.new.machine) }
        ensures calls { self.old.engine.broken ≡ false → AreCalls all_meaning (M.disk self.old.machine) (M.disk self.new.machine) self.old.engine self.new.engine (cause_in result) }
        ensures adds { (p : Params) (commands : List Command) → (holds : Holds all_meaning p (M.disk self.old.machine) self.old.engine commands) →
            AddsFront all_meaning p (M.disk self.old.machine) (M.disk self.new.machine) self.old.engine self.new.engine holds.world commands
            [] (ending_of (cause_in result)) }
        ensures answer { (p : Params) (commands : List Command) → Holds all_meaning p (M.disk self.old.machine) self.old.engine commands → ending_of (cause_in result) ≡ Done →
            result ≡ told (get_answer (bounds_of p) tree.now.lo tree.now.hi (state_of p commands) key.now) }
        ensures broken { self.old.engine.broken ≡ true → IsStillBroken (Exec DiskFault) self.old self.new result }
    {
        if self.is_broken() {
            return Err(CallErr::Exec(ExecErr::DiskFault));
        }
        tree_client::get(tree, &mut self.engine, &mut self.machine, key)
    }

    /// The pairs of a tree whose keys are not below `from` and are below `to`, rising, as `tree_client::range`.
    pub fn tree_range(
        &mut self,
        alloc: Global,
        tree: &Tree,
        from: &Short,
        to: &Short,
    ) -> Result<Vec<(Short, Short)>, TreeErr>
        ensures time { Passes (M.disk self.old.machine) (M.disk self.new.machine) }
        ensures calls { self.old.engine.broken ≡ false → AreCalls all_meaning (M.disk self.old.machine) (M.disk self.new.machine) self.old.engine self.new.engine (cause_in result) }
        ensures adds { (p : Params) (commands : List Command) → (holds : Holds all_meaning p (M.disk self.old.machine) self.old.engine commands) →
            AddsFront all_meaning p (M.disk self.old.machine) (M.disk self.new.machine) self.old.engine self.new.engine holds.world commands
            [] (ending_of (cause_in result)) }
        ensures pairs { (p : Params) (commands : List Command) → Holds all_meaning p (M.disk self.old.machine) self.old.engine commands →
            IfOk result (λ pairs. range_answer (bounds_of p) tree.now.lo tree.now.hi (state_of p commands) from.now to.now ≡ Ok pairs.items) }
        ensures refused { (p : Params) (commands : List Command) → Holds all_meaning p (M.disk self.old.machine) self.old.engine commands →
            IfErr result (λ e. ending_of (cause_of e) ≡ Done → told (range_answer (bounds_of p) tree.now.lo tree.now.hi (state_of p commands) from.now to.now) ≡ Err e) }
        ensures broken { self.old.engine.broken ≡ true → IsStillBroken (Exec DiskFault) self.old self.new result }
    {
        if self.is_broken() {
            return Err(CallErr::Exec(ExecErr::DiskFault));
        }
        tree_client::range(alloc, tree, &mut self.engine, &mut self.machine, from, to)
    }

    /// The pairs of a tree from a key on that stand in one leaf, at most seven, and the key at which the next piece begins, as
    /// `tree_client::piece_from`.
    pub fn tree_piece(&mut self, tree: &Tree, from: &Short) -> Result<Piece, TreeErr>
        ensures time { Passes (M.disk self.old.machine) (M.disk self.new.machine) }
        ensures calls { self.old.engine.broken ≡ false → AreCalls all_meaning (M.disk self.old.machine) (M.disk self.new.machine) self.old.engine self.new.engine (cause_in result) }
        ensures adds { (p : Params) (commands : List Command) → (holds : Holds all_meaning p (M.disk self.old.machine) self.old.engine commands) →
            AddsFront all_meaning p (M.disk self.old.machine) (M.disk self.new.machine) self.old.engine self.new.engine holds.world commands
            [] (ending_of (cause_in result)) }
        ensures pairs { (p : Params) (commands : List Command) → Holds all_meaning p (M.disk self.old.machine) self.old.engine commands →
            IfOk result (λ piece. span_answer (bounds_of p) tree.now.lo tree.now.hi (state_of p commands) (record { from = from.now; to = piece.next }) ≡ Ok piece.pairs.items) }
        ensures rising { IfOk result (λ piece. is_below from.now piece.next ≡ true) }
        ensures refused { (p : Params) (commands : List Command) → Holds all_meaning p (M.disk self.old.machine) self.old.engine commands →
            IfErr result (λ e. ending_of (cause_of e) ≡ Done → told (get_answer (bounds_of p) tree.now.lo tree.now.hi (state_of p commands) from.now) ≡ Err e) }
        ensures broken { self.old.engine.broken ≡ true → IsStillBroken (Exec DiskFault) self.old self.new result }
    {
        if self.is_broken() {
            return Err(CallErr::Exec(ExecErr::DiskFault));
        }
        tree_client::piece_from(tree, &mut self.engine, &mut self.machine, from)
    }

    /// Gives a key of a tree this value, as `tree_client::insert`.
    pub fn tree_insert(&mut self, tree: &Tree, key: &Short, value: &Short) -> Result<(), TreeErr>
        ensures time { Passes (M.disk self.old.machine) (M.disk self.new.machine) }
        ensures calls { self.old.engine.broken ≡ false → AreCalls all_meaning (M.disk self.old.machine) (M.disk self.new.machine) self.old.engine self.new.engine (cause_in result) }
        ensures adds { (p : Params) (commands : List Command) → (holds : Holds all_meaning p (M.disk self.old.machine) self.old.engine commands) →
            AddsFront all_meaning p (M.disk self.old.machine) (M.disk self.new.machine) self.old.engine self.new.engine holds.world commands
            (made_of p.cap (insert_plan (bounds_of p) tree.now.lo tree.now.hi (state_of p commands) key.now value.now).commands) (ending_of (cause_in result)) }
        ensures answer { (p : Params) (commands : List Command) → Holds all_meaning p (M.disk self.old.machine) self.old.engine commands → ending_of (cause_in result) ≡ Done →
            result_err result ≡ refused_in p.cap (insert_plan (bounds_of p) tree.now.lo tree.now.hi (state_of p commands) key.now value.now) }
        ensures broken { self.old.engine.broken ≡ true → IsStillBroken (Exec DiskFault) self.old self.new result }
    {
        if self.is_broken() {
            return Err(CallErr::Exec(ExecErr::DiskFault));
        }
        tree_client::insert(tree, &mut self.engine, &mut self.machine, key, value)
    }

    /// Deletes a key of a tree and its value, as `tree_client::delete`.
    pub fn tree_delete(&mut self, tree: &Tree, key: &Short) -> Result<(), TreeErr>
        ensures time { Passes (M.disk self.old.machine) (M.disk self.new.machine) }
        ensures calls { self.old.engine.broken ≡ false → AreCalls all_meaning (M.disk self.old.machine) (M.disk self.new.machine) self.old.engine self.new.engine (cause_in result) }
        ensures adds { (p : Params) (commands : List Command) → (holds : Holds all_meaning p (M.disk self.old.machine) self.old.engine commands) →
            AddsFront all_meaning p (M.disk self.old.machine) (M.disk self.new.machine) self.old.engine self.new.engine holds.world commands
            (made_of p.cap (delete_plan (bounds_of p) tree.now.lo tree.now.hi (state_of p commands) key.now).commands) (ending_of (cause_in result)) }
        ensures answer { (p : Params) (commands : List Command) → Holds all_meaning p (M.disk self.old.machine) self.old.engine commands → ending_of (cause_in result) ≡ Done →
            result_err result ≡ refused_in p.cap (delete_plan (bounds_of p) tree.now.lo tree.now.hi (state_of p commands) key.now) }
        ensures broken { self.old.engine.broken ≡ true → IsStillBroken (Exec DiskFault) self.old self.new result }
    {
        if self.is_broken() {
            return Err(CallErr::Exec(ExecErr::DiskFault));
        }
        tree_client::delete(tree, &mut self.engine, &mut self.machine, key)
    }
}
