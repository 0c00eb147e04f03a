// What is so of names in files, and of requests in a group.
ghost use Rattle.std.specs.Prelude.{◌≡◌, ◌<◌, ◌^◌, ◌++◌, ℕ, IsTrue, List, Option};
ghost use Rattle.std.specs.Option.{is_some};
ghost use Rattle.disk_model.specs.Disk.{Files};
ghost use Rattle.formats.specs.Objects.{bounds_of};
ghost use Rattle.formats.specs.declared.params.Params.{Params};
ghost use Rattle.op_codec.specs.AllOps.{all_meaning};
ghost use Rattle.running_store.specs.Taking.Ending.{Done};
ghost use Rattle.execution.specs.declared.exec_err.ExecErr.{ExecErr};
ghost use Rattle.store_engine.specs.Engine.{EngineView, Holds as EngineHolds};
ghost use Rattle.store_engine.specs.Lists.{AddsFront, AreCalls, ending_of};
ghost use Rattle.shell_base.specs.Open.{IsOpen, OpensFiles};
ghost use Rattle.shell_base.specs.declared.budget.Budget.{Budget};
ghost use Rattle.shell_base.specs.Store.{Command, Says, state_of};
ghost use Rattle.named_words.specs.Effects.{Names};
ghost use Rattle.name_ranges.specs.Named.{IsNamed};
ghost use Rattle.serving.specs.Calls.{KeepsStable};
ghost use Rattle.serving.specs.Held.{HaveNames, HoldsNames};

use disk_model::Machine;
use name_ranges::a_range_has_one_map_of_names;
use op_codec::AllOps;
use store_engine::one_state;

/// Files have one map of names.
pub fn files_have_one_map_of_names()
    ensures { (lo hi : ℕ) (files : Files) (names others : Names) → hi < 2 ^ 32 → HaveNames lo hi files names → HaveNames lo hi files others → names ≡ others }
{
    one_state::<AllOps>();
    a_range_has_one_map_of_names();
}

/// What is done in an open group a crash does not leave: calls that add commands there, however they end, leave the stable names.
pub fn requests_wait_for_their_group<M: Machine>()
    ensures { (old new : M) (before after : EngineView) (lo hi : ℕ) (p : Params) (commands ops : List Command) (names stable left : Names) (error : Option ExecErr) →
        (h : HoldsNames lo hi p (M.disk old) before commands names stable) → IsTrue (is_some before.group) →
        AreCalls all_meaning (M.disk old) (M.disk new) before after error → AddsFront all_meaning p (M.disk old) (M.disk new) before after h.holds.world commands ops (ending_of error) →
        (EngineHolds all_meaning p (M.disk new) after (commands ++ ops) → Says p (M.disk new) after (commands ++ ops)) →
        (ending_of error ≡ Done → IsNamed (bounds_of p) lo hi (state_of p (commands ++ ops)) left) →
        KeepsStable lo hi p (M.disk old) (M.disk new) after left stable (ending_of error ≡ Done) (commands ++ ops) }
{}

/// A store that was opened has the names that its files had, and a crash leaves them.
pub fn an_opened_store_has_its_names<M: Machine>()
    ensures { (old new : M) (engine : EngineView) (budget : Budget) (lo hi : ℕ) (p : Params) (commands : List Command) (names : Names) →
        OpensFiles budget p commands (M.disk old) (M.disk new) → IsOpen budget p commands (M.disk old) (M.disk new) engine → (M.disk new).tells_moments → hi < 2 ^ 32 →
        IsNamed (bounds_of p) lo hi (state_of p commands) names → HoldsNames lo hi p (M.disk new) engine commands names names }
{}
