// Ordered maps in ranges of objects, within a transaction.
ghost use Rattle.std.specs.Prelude.{◌≡◌, true, Ok, Err, IfOk, IfErr};
ghost use Rattle.std.specs.Result.{result_err};
ghost use Rattle.execution.specs.declared.exec_err.ExecErr.TheVariants.{DiskFault};
ghost use Rattle.formats.specs.Objects.{bounds_of};
ghost use Rattle.running_store.specs.Taking.Ending.{Done};
ghost use Rattle.store_engine.specs.Lists.{ending_of};
ghost use Rattle.logical_btree.specs.Plan.{delete_plan, get_answer, insert_plan, range_answer};
ghost use Rattle.logical_btree.specs.Walk.{is_below};
ghost use Rattle.tree_client.specs.Answers.{cause_in, cause_of, made_of, refused_in, told};
ghost use Rattle.tree_client.specs.Pieces.{span_answer};
ghost use Rattle.range_calls.specs.Store.{state_of};
ghost use Rattle.range_calls.specs.declared.call_err.CallErr.TheVariants.{Exec};
ghost use Rattle.embed.specs.Within.{IsCallWithin, stages_none};

use crate::Store;
use disk_model::Machine;
use key_entries::Short;
use logical_btree::Tree;
use op_codec::AllOps;
use range_calls::CallErr;
use std::alloc::Global;
use store_engine::ExecErr;
use transactions::{Transaction, Within};
use tree_client::{Piece, TreeErr};

impl<M: Machine + Drop> Store<M> {
    /// The value that a key of a tree has within a transaction, after the staged commands, as `tree_client::get`.
    pub fn tree_get_within(
        &mut self,
        transaction: &mut Transaction<AllOps>,
        tree: &Tree,
        key: &Short,
    ) -> Result<Option<Short>, TreeErr>
        ensures { IsCallWithin M.disk self.old self.new transaction.old transaction.new
            stages_none
            (λ p commands. ending_of (cause_in result) ≡ Done → result ≡ told (get_answer (bounds_of p) tree.now.lo tree.now.hi (state_of p commands) key.now))
            (Exec DiskFault) (cause_in result) result }
    {
        if self.is_broken() {
            return Err(CallErr::Exec(ExecErr::DiskFault));
        }
        let mut within = Within {
            engine: &mut self.engine,
            transaction,
        };
        tree_client::get(tree, &mut within, &mut self.machine, key)
    }

    /// The pairs that a tree has within a transaction, whose keys are not below `from` and are below `to`, rising, as
    /// `tree_client::range`.
    pub fn tree_range_within(
        &mut self,
        transaction: &mut Transaction<AllOps>,
        alloc: Global,
        tree: &Tree,
        from: &Short,
        to: &Short,
    ) -> Result<Vec<(Short, Short)>, TreeErr>
        ensures { IsCallWithin M.disk self.old self.new transaction.old transaction.new
            stages_none
            (λ p commands. IfOk result (λ pairs. range_answer (bounds_of p) tree.now.lo tree.now.hi (state_of p commands) from.now to.now ≡ Ok pairs.items)
            × IfErr result (λ e. ending_of (cause_of e) ≡ Done → told (range_answer (bounds_of p) tree.now.lo tree.now.hi (state_of p commands) from.now to.now) ≡ Err e))
            (Exec DiskFault) (cause_in result) result }
    {
        if self.is_broken() {
            return Err(CallErr::Exec(ExecErr::DiskFault));
        }
        let mut within = Within {
            engine: &mut self.engine,
            transaction,
        };
        tree_client::range(alloc, tree, &mut within, &mut self.machine, from, to)
    }

    /// The pairs that a tree has within a transaction, from a key on, that stand in one leaf, as `tree_client::piece_from`.
    pub fn tree_piece_within(
        &mut self,
        transaction: &mut Transaction<AllOps>,
        tree: &Tree,
        from: &Short,
    ) -> Result<Piece, TreeErr>
        ensures call { IsCallWithin M.disk self.old self.new transaction.old transaction.new
            stages_none
            (λ p commands. IfOk result (λ piece. span_answer (bounds_of p) tree.now.lo tree.now.hi (state_of p commands) (record { from = from.now; to = piece.next }) ≡ Ok piece.pairs.items)
            × IfErr result (λ e. ending_of (cause_of e) ≡ Done → told (get_answer (bounds_of p) tree.now.lo tree.now.hi (state_of p commands) from.now) ≡ Err e))
            (Exec DiskFault) (cause_in result) result }
        ensures rising { IfOk result (λ piece. is_below from.now piece.next ≡ true) }
    {
        if self.is_broken() {
            return Err(CallErr::Exec(ExecErr::DiskFault));
        }
        let mut within = Within {
            engine: &mut self.engine,
            transaction,
        };
        tree_client::piece_from(tree, &mut within, &mut self.machine, from)
    }

    /// Stages the commands that give a key of a tree this value, as `tree_client::insert` makes them.
    pub fn tree_insert_within(
        &mut self,
        transaction: &mut Transaction<AllOps>,
        tree: &Tree,
        key: &Short,
        value: &Short,
    ) -> Result<(), TreeErr>
        ensures { IsCallWithin M.disk self.old self.new transaction.old transaction.new
            (λ p commands. made_of p.cap (insert_plan (bounds_of p) tree.now.lo tree.now.hi (state_of p commands) key.now value.now).commands)
            (λ p commands. ending_of (cause_in result) ≡ Done → result_err result ≡ refused_in p.cap (insert_plan (bounds_of p) tree.now.lo tree.now.hi (state_of p commands) key.now value.now))
            (Exec DiskFault) (cause_in result) result }
    {
        if self.is_broken() {
            return Err(CallErr::Exec(ExecErr::DiskFault));
        }
        let mut within = Within {
            engine: &mut self.engine,
            transaction,
        };
        tree_client::insert(tree, &mut within, &mut self.machine, key, value)
    }

    /// Stages the commands that delete a key of a tree and its value, as `tree_client::delete` makes them.
    pub fn tree_delete_within(
        &mut self,
        transaction: &mut Transaction<AllOps>,
        tree: &Tree,
        key: &Short,
    ) -> Result<(), TreeErr>
        ensures { IsCallWithin M.disk self.old self.new transaction.old transaction.new
            (λ p commands. made_of p.cap (delete_plan (bounds_of p) tree.now.lo tree.now.hi (state_of p commands) key.now).commands)
            (λ p commands. ending_of (cause_in result) ≡ Done → result_err result ≡ refused_in p.cap (delete_plan (bounds_of p) tree.now.lo tree.now.hi (state_of p commands) key.now))
            (Exec DiskFault) (cause_in result) result }
    {
        if self.is_broken() {
            return Err(CallErr::Exec(ExecErr::DiskFault));
        }
        let mut within = Within {
            engine: &mut self.engine,
            transaction,
        };
        tree_client::delete(tree, &mut within, &mut self.machine, key)
    }
}
