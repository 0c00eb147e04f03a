// A command is judged on the values that are seen.
ghost use Rattle.std.specs.Prelude.{◌≡◌, ◌↔◌, List, false, length, IfOk};
ghost use Rattle.execution.specs.Answers.{ending_of_error, ending_of_exec};
ghost use Rattle.running_store.specs.Calls.{IsFailed};
ghost use Rattle.store_engine.specs.Engine.{Holds, params_of};
ghost use Rattle.store_engine.specs.Lists.{IsCutOff};
ghost use Rattle.store_engine.specs.Store.{meaning_in, state_of};
ghost use Rattle.transactions.specs.Admitted.{IsAdmitted};
ghost use Rattle.transactions.specs.Staged.{OnlyReads, overlaid};

use crate::seeing::values_of;
use dirty_cache::Cache;
use disk_model::Machine;
use oper_core::{Bounds, Oper, Values};
use std::alloc::Global;
use store_engine::{Engine, ExecErr};

// Why values are not read: no refusal, and no stop of the log.
fn unread(e: ExecErr) -> ExecErr
    ensures cut_off { IsCutOff (ending_of_error result) }
    ensures fault { IsFailed (ending_of_error e) ↔ IsFailed (ending_of_error result) }
{
    match e {
        ExecErr::Refused(_) | ExecErr::LogFull { .. } | ExecErr::LsnEnd { .. } => ExecErr::Memory,
        e => e,
    }
}

// What a command makes of the values that are seen, where nothing refuses it on them.
pub(crate) fn admit<O: Oper, M: Machine>(
    alloc: Global,
    made: &Cache,
    engine: &mut Engine<O>,
    machine: &mut M,
    op: &O,
) -> Result<Values, ExecErr>
    requires unbroken { engine.old.broken ≡ false }
    ensures reads { OnlyReads O.meaning (M.disk machine.old) (M.disk machine.new) engine.old engine.new (IsFailed (ending_of_exec result)) }
    ensures count { IfOk result (λ values. length values ≡ length ((meaning_in O.meaning (params_of engine.old)).writes op.now)) }
    ensures admitted { (commands : List O) → Holds O.meaning (params_of engine.old) (M.disk machine.old) engine.old commands →
        IsAdmitted (meaning_in O.meaning (params_of engine.old)) (overlaid made.now (state_of O.meaning (params_of engine.old) commands)) op.now result }
{
    let params = engine.params();
    let bounds = Bounds {
        objects: params.objects,
        cap: params.cap,
        more: params.more,
    };
    if let Err(refusal) = op.shape(bounds) {
        return Err(ExecErr::Refused(refusal));
    }
    match values_of(alloc, made, engine, machine, op.reads().as_slice()) {
        Ok(values) => {
            if let Err(refusal) = op.check(bounds, &values) {
                return Err(ExecErr::Refused(refusal));
            }
            match op.apply(alloc, bounds, &values) {
                Ok(new) => Ok(new),
                Err(_) => Err(ExecErr::Memory),
            }
        }
        Err(e) => Err(unread(e)),
    }
}
