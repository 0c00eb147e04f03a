// A store is laid out, and opened.
ghost use Rattle.std.specs.Prelude.{◌≡◌, false, List, None, length, IfOk, OnOk, IsErrOf};
ghost use Rattle.disk_model.specs.Disk.{Files, IsSettled, LeavesOnly, Passes, Rises, Stays};
ghost use Rattle.disk_model.specs.declared.machine.FileNo.TheVariants.{Objects};
ghost use Rattle.formats.specs.Objects.{BeginsStore, IsInRange};
ghost use Rattle.formats.specs.declared.params.Params.{Params as Numbers};
ghost use Rattle.op_codec.specs.AllOps.{AllOps as Command, all_meaning};
ghost use Rattle.restart.specs.Damage.{IsReported};
ghost use Rattle.restart.specs.Opening.{IsJudged, IsOpening};
ghost use Rattle.restart.specs.Starts.{OrAtStart};
ghost use Rattle.store_engine.specs.Engine.{Between, Holds, InEachImage, IsAttached, IsNew, IsNewStore, Opens, forced_in};
ghost use Rattle.embed.specs.Embedded.{machine_of, opened};

use crate::Store;
use disk_model::Machine;
use formats::Params;
use op_codec::AllOps;
use std::alloc::Global;
use store_engine::{Engine, InitErr, OpenErr, Tuning};

// How much of a store is kept in memory: 16 MiB of clean values, and in a redo 64 MiB of dirty ones, but 64 values of each,
// however long they are.
pub(crate) const TUNING: Tuning = Tuning {
    clean: 64,
    clean_bytes: 1 << 24,
    redo_dirty: 64,
    redo_bytes: 1 << 26,
    redo_most: 1 << 26,
    redo_waiting: 1 << 28,
    redo_round: 64,
};

/// Lays out a store without commands on a machine that has none.
pub fn lay_out<M: Machine>(machine: &mut M, params: Params) -> Result<(), InitErr>
    requires { IsInRange params }
    ensures time { Passes (M.disk machine.old) (M.disk machine.new) }
    ensures quiet { (M.disk machine.old).tells_files → (M.disk machine.new).said ≡ (M.disk machine.old).said }
    ensures ok { (M.disk machine.old).tells_files → OnOk result (InEachImage (M.disk machine.new) (IsNewStore all_meaning params)) }
    ensures settled { OnOk result (IsSettled (M.disk machine.new)) }
    ensures already { IsErrOf result InitErr.AlreadyStore → IsSettled (M.disk machine.new) × ((M.disk machine.old).tells_files → BeginsStore ((M.disk machine.old).reads Objects))
        × ((files : Files) → (M.disk machine.new).agrees files → BeginsStore (files Objects)) }
    // A store that is there is left as it is, and nothing is laid out over it.
    ensures kept { (M.disk machine.old).tells_files → BeginsStore ((M.disk machine.old).reads Objects) → Stays (M.disk machine.old) (M.disk machine.new) }
    ensures fresh { (M.disk machine.old).tells_files → OnOk result (BeginsStore ((M.disk machine.old).reads Objects) → ⊥) }
    ensures images { (M.disk machine.old).tells_moments → (BeginsStore ((M.disk machine.old).reads Objects) → ⊥) →
        LeavesOnly (M.disk machine.old) (M.disk machine.new) (OrAtStart (M.disk machine.old) (λ files said. IsNew all_meaning params files × (said ≡ (M.disk machine.old).said))) }
    ensures fault { IsErrOf result InitErr.DiskFault → Rises (M.disk machine.old).disk_faults (M.disk machine.new).disk_faults }
{
    Engine::<AllOps>::init(machine, params)
}

impl<M: Machine + Drop> Store<M> {
    /// Opens the files of the machine: what is not installed of their commands is done again. It fails as the engine's `restart`, and
    /// gives the machine back then.
    pub fn open(alloc: Global, machine: M) -> Result<Store<M>, (OpenErr, M)>
        ensures opening { IsOpening all_meaning (M.disk machine) (M.disk (machine_of result)) (opened result) }
        ensures judged { (M.disk machine).tells_files → IsJudged all_meaning (M.disk machine) (M.disk (machine_of result)) (opened result) }
        ensures ready { IfOk result (λ store. (store.engine.broken ≡ false) × (store.engine.group ≡ None) × (store.engine.copied ≡ None) × (store.engine.identities ≡ 0) × IsAttached all_meaning (M.disk store.machine) store.engine) }
        ensures reported { IsReported all_meaning (M.disk machine) (M.disk (machine_of result)) (opened result) }
        ensures holds { (p : Numbers) (commands : List Command) → Opens all_meaning p (M.disk machine) commands →
            IfOk result (λ store. Holds all_meaning p (M.disk store.machine) store.engine commands × (forced_in store.engine ≡ length commands)) }
        ensures images { (M.disk machine).tells_moments → (p : Numbers) (commands : List Command) → Opens all_meaning p (M.disk machine) commands →
            LeavesOnly (M.disk machine) (M.disk (machine_of result)) (OrAtStart (M.disk machine) (Between all_meaning p (M.disk machine) None (length commands) (length commands) commands)) }
        // A machine that is given back may be opened again.
        ensures again { (M.disk machine).tells_moments → (p : Numbers) (commands : List Command) → Opens all_meaning p (M.disk machine) commands → Opens all_meaning p (M.disk (machine_of result)) commands }
    {
        let mut machine = machine;
        match Engine::restart(alloc, &mut machine, TUNING) {
            Ok(engine) => Ok(Store { engine, machine }),
            Err(cause) => Err((cause, machine)),
        }
    }
}
