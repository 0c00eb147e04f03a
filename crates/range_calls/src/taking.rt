// The commands of a call, round by round.
ghost use Rattle.std.specs.Prelude.{◌≡◌, List, Result, IfOk};
ghost use Rattle.oper_core.specs.State.{State};
ghost use Rattle.oper_core.specs.declared.bounds.Bounds.{Bounds};
ghost use Rattle.formats.specs.Objects.{bounds_of};
ghost use Rattle.formats.specs.declared.params.Params.{Params};
ghost use Rattle.running_store.specs.Taking.Ending.{Done};
ghost use Rattle.store_engine.specs.Lists.{ending_of};
ghost use Rattle.store_calls.specs.Making.{Reads};
ghost use Rattle.range_calls.specs.Answers.{cause_in, told};
ghost use Rattle.range_calls.specs.Rounds.{Comes, in_rounds, is_last_round, tried_round};
ghost use Rattle.range_calls.specs.Store.{Command, state_of};
ghost use Rattle.range_calls.specs.declared.round.Round.{Round as RoundIs};

use crate::running::run_all;
use crate::{CallErr, Round};
use disk_model::Machine;
use op_codec::AllOps;
use store_calls::Store;

/// A call on a store of type `S` that finds at each moment the commands that come next, all of them on one state. The store may refuse
/// any of them.
pub trait Rounds<S: Store<AllOps>> {
    /// Why the range refuses it.
    type Refusal;

    /// What comes next on the values of the objects.
    ghost next: { Self → Bounds → State → Result RoundIs Self.Refusal };

    /// The store has the objects of its range.
    ghost is_there: { Self → Params → Type 0 };

    /// Finds the commands that come next.
    fn next_round<M: Machine>(
        &self,
        store: &mut S,
        machine: &mut M,
    ) -> Result<Round, CallErr<Self::Refusal>>
        requires unbroken { S.view.unbroken store.old }
        requires there { is_there self.now (S.view.params store.old) }
        ensures reads { Reads S.view (M.disk machine.old) (M.disk machine.new) store.old store.new (cause_in result) }
        ensures answer { (p : Params) (commands : List Command) → S.view.holds p (M.disk machine.old) store.old commands → ending_of (cause_in result) ≡ Done →
            result ≡ told (next self.now (bounds_of p) (state_of p commands)) };
}

/// Makes the commands that come next. It reports whether the call ends with them: as the last, or without a command.
fn take_round<S: Store<AllOps>, C: Rounds<S>, M: Machine>(
    call: &C,
    store: &mut S,
    machine: &mut M,
) -> Result<bool, CallErr<C::Refusal>>
    requires unbroken { S.view.unbroken store.old }
    requires there { C.is_there call.now (S.view.params store.old) }
    ensures comes { Comes S.view (M.disk machine.old) (M.disk machine.new) store.old store.new
        (λ p commands. tried_round p (state_of p commands) (C.next call.now (bounds_of p) (state_of p commands))) result }
    ensures last { (p : Params) (commands : List Command) → S.view.holds p (M.disk machine.old) store.old commands →
        IfOk result (λ last. last ≡ is_last_round (C.next call.now (bounds_of p) (state_of p commands))) }
{
    S::calls_go_on::<M>();
    let round = call.next_round(store, machine)?;
    let last = round.is_end();
    run_all(store, machine, round.ops)?;
    Ok(last)
}

/// Makes the commands of a call, in at most so many rounds. It ends after the last round, or one without commands, or where the
/// call is refused or a command fails or is refused: the commands made before stay.
pub fn take_rounds<S: Store<AllOps>, C: Rounds<S>, M: Machine>(
    call: &C,
    store: &mut S,
    machine: &mut M,
    most: u64,
) -> Result<(), CallErr<C::Refusal>>
    requires unbroken { S.view.unbroken store.old }
    requires there { C.is_there call.now (S.view.params store.old) }
    ensures { Comes S.view (M.disk machine.old) (M.disk machine.new) store.old store.new (in_rounds (C.next call.now) most) result }
{
    store.nothing_is_made(machine);
    S::calls_go_on::<M>();
    for _round in 0..most {
        if take_round(call, store, machine)? {
            return Ok(());
        }
    }
    store.nothing_is_made(machine);
    Ok(())
}
