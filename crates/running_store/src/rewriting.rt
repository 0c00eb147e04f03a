// The log of a store is rewritten.
ghost use Rattle.std.specs.Prelude.{◌≡◌, ◌<◌, ◌≤◌, ◌^◌, false, IfErr};
ghost use Rattle.disk_model.specs.Disk.{Rises};
ghost use Rattle.formats.specs.declared.params.Params.{Params as Numbers};
ghost use Rattle.log_records.specs.Loading.{IsTailFault};
ghost use Rattle.log_records.specs.Rewriting.{FindsDamage, IsNewLength, IsRewritable, RewriteFails};
ghost use Rattle.explain_core.specs.World.{World};
ghost use Rattle.running_store.specs.Calls.{IsCall};
ghost use Rattle.running_store.specs.Kept.{HasLog, StopsAt};
ghost use Rattle.running_store.specs.Parts.{Shows, meaning_in};
ghost use Rattle.running_store.specs.Calls.Rewrites.{HasRewritten, IsKeptFrom, ending_of_rewrite, rewrite_within};
ghost use Rattle.running_store.specs.Taking.{Takes};

use crate::fault::note;
use crate::store::Store;
use dirty_page_table::DirtyPageTable;
use disk_model::Machine;
use log_records::RewriteErr;
use oper_core::Oper;

impl<O: Oper> Store<O> {
    /// Puts a new log in the place of this one, of which nothing waits: the commands and identity writes from a base on, and
    /// after them a checkpoint. Where it fails the log is as it was, so also with `LogFull`, where the file of the new one would
    /// have more than `most` bytes.
    pub fn rewrite<M: Machine>(
        &mut self,
        machine: &mut M,
        base: u64,
        table: DirtyPageTable,
        most: u64,
    ) -> Result<(), RewriteErr>
        requires unbroken { self.old.broken ≡ false }
        requires epoch { self.old.parts.log.log.header.epoch < 2 ^ 62 }
        requires rewritable { IsRewritable (O.meaning self.old.parts.log.bounds) self.old.parts.log base table }
        requires most { most ≤ 2 ^ 48 }
        ensures call { IsCall O.meaning (M.disk machine.old) (M.disk machine.new) self.old self.new 0 (StopsAt most) (ending_of_rewrite result) }

        // The checkpoint is the one that each world which the store shows would take now, and the base is where its log begins then.
        ensures takes { ((p : Numbers) (w : World O) → Shows (meaning_in O.meaning p) p (M.disk machine.old) self.old.parts w → IsKeptFrom (meaning_in O.meaning p) w base table) →
            Takes O.meaning (M.disk machine.old) (M.disk machine.new) self.old.parts self.new.parts (λ m w used. rewrite_within m most w used) (ending_of_rewrite result) }

        ensures rewritten { HasRewritten self.old self.new base result }
        ensures undamaged { (M.disk machine.old).tells_files → HasLog (O.meaning self.old.parts.log.bounds) (M.disk machine.old) self.old.parts.log →
            IfErr result (λ e. FindsDamage e → ⊥) }
        ensures cause { IfErr result (RewriteFails (Rises (M.disk machine.old).disk_faults (M.disk machine.new).disk_faults)
            (IsTailFault (O.meaning self.old.parts.log.bounds) (M.disk machine.new) self.old.parts.log.log)
            (IsNewLength (O.meaning self.old.parts.log.bounds) (M.disk machine.old) self.old.parts.log base table) self.old.parts.log.log most) }
    {
        explain_core::header_gate_keeps::<O>();
        let answer = self.log.rewrite(machine, base, table, most);
        note(&mut self.broken, &answer);
        answer
    }
}
