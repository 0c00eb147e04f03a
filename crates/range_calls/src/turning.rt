// The commands of a call, one after the other.
ghost use Rattle.std.specs.Prelude.{◌≡◌, List, IfOk, map};
ghost use Rattle.std.specs.Result.{result_err};
ghost use Rattle.oper_core.specs.State.{State};
ghost use Rattle.oper_core.specs.Meaning.{Meaning, after};
ghost use Rattle.oper_core.specs.declared.bounds.Bounds.{Bounds};
ghost use Rattle.formats.specs.Objects.{bounds_of};
ghost use Rattle.formats.specs.declared.params.Params.{Params};
ghost use Rattle.op_codec.specs.AllOps.{all_meaning};
ghost use Rattle.running_store.specs.Taking.Ending.{Done};
ghost use Rattle.store_engine.specs.Lists.{ending_of};
ghost use Rattle.store_calls.specs.Making.{Calls, Makes, Reads};
ghost use Rattle.call_plans.specs.Plan.{IsNext, Next, plan_from};
ghost use Rattle.range_calls.specs.Answers.{cause_in, made_of, refused_in};
ghost use Rattle.range_calls.specs.Due.{IsDue};
ghost use Rattle.range_calls.specs.Store.{Command, state_of};
ghost use Rattle.range_calls.specs.Turns.{is_last, turn_answer, turn_plan};

use crate::making::make;
use crate::{CallErr, Turn};
use disk_model::Machine;
use op_codec::AllOps;
use store_calls::Store;

/// A call on a store of type `S` that finds at each moment the command that comes next.
pub trait Turns<S: Store<AllOps>> {
    /// Its commands are operations of this kind.
    type Op;

    /// Why the range refuses it.
    type Refusal;

    /// An operation as one of the store.
    ghost kind: { Self.Op → Command };

    /// What operations of the kind mean.
    ghost meaning: { Bounds → Meaning Self.Op };

    /// What comes next on the values of the objects.
    ghost next: { Self → Bounds → State → Next Self.Op Self.Refusal };

    /// The store has the objects of its range.
    ghost is_there: { Self → Params → Type 0 };

    /// Each command that comes next is due.
    fn commands_are_due(&self)
        ensures { (p : Params) (s : State) (op : Self.Op) → is_there self.now p → IsNext (next self.now (bounds_of p)) s op → IsDue p s (kind op) };

    /// Finds the command that comes next.
    fn next_turn<M: Machine>(
        &self,
        store: &mut S,
        machine: &mut M,
    ) -> Result<Turn, CallErr<Self::Refusal>>
        requires unbroken { S.view.unbroken store.old }
        requires there { is_there self.now (S.view.params store.old) }
        ensures reads { Reads S.view (M.disk machine.old) (M.disk machine.new) store.old store.new (cause_in result) }
        ensures answer { (p : Params) (commands : List Command) → S.view.holds p (M.disk machine.old) store.old commands → ending_of (cause_in result) ≡ Done →
            result ≡ turn_answer kind (next self.now (bounds_of p) (state_of p commands)) };

    /// An operation of the store means what it means in its kind.
    ghost means: { (b : Bounds) (s : State) (op : Self.Op) → after (all_meaning b) s (kind op) ≡ after (meaning b) s op };
}

/// Finds the command that comes next, which is due.
fn due_turn<S: Store<AllOps>, C: Turns<S>, M: Machine>(
    call: &C,
    store: &mut S,
    machine: &mut M,
) -> Result<Turn, CallErr<C::Refusal>>
    requires unbroken { S.view.unbroken store.old }
    requires there { C.is_there call.now (S.view.params store.old) }
    ensures reads { Reads S.view (M.disk machine.old) (M.disk machine.new) store.old store.new (cause_in result) }
    ensures answer { (p : Params) (commands : List Command) → S.view.holds p (M.disk machine.old) store.old commands → ending_of (cause_in result) ≡ Done →
        result ≡ turn_answer C.kind (C.next call.now (bounds_of p) (state_of p commands)) }
    ensures due { (p : Params) (commands : List Command) → S.view.holds p (M.disk machine.old) store.old commands →
        IfOk result (λ turn. IsDue p (state_of p commands) turn.op) }
{
    call.commands_are_due();
    call.next_turn(store, machine)
}

/// Makes the command that comes next. It reports whether that was the last.
fn take_turn<S: Store<AllOps>, C: Turns<S>, M: Machine>(
    call: &C,
    store: &mut S,
    machine: &mut M,
) -> Result<bool, CallErr<C::Refusal>>
    requires unbroken { S.view.unbroken store.old }
    requires there { C.is_there call.now (S.view.params store.old) }
    ensures makes { Makes S.view (M.disk machine.old) (M.disk machine.new) store.old store.new
        (λ p commands. made_of p.cap (map C.kind (turn_plan (C.next call.now (bounds_of p) (state_of p commands))).commands)) (cause_in result) }
    ensures answer { (p : Params) (commands : List Command) → S.view.holds p (M.disk machine.old) store.old commands → ending_of (cause_in result) ≡ Done →
        result_err result ≡ refused_in p.cap (turn_plan (C.next call.now (bounds_of p) (state_of p commands))) }
    ensures last { (p : Params) (commands : List Command) → S.view.holds p (M.disk machine.old) store.old commands →
        IfOk result (λ last. last ≡ is_last (C.next call.now (bounds_of p) (state_of p commands))) }
{
    S::calls_go_on::<M>();
    let turn = due_turn(call, store, machine)?;
    make(store, machine, turn.op)?;
    Ok(turn.last)
}

/// Makes the commands of a call, at most so many. It ends after the last, or where the call is refused or a command fails:
/// the commands made before stay.
pub fn take_turns<S: Store<AllOps>, C: Turns<S>, M: Machine>(
    call: &C,
    store: &mut S,
    machine: &mut M,
    most: u64,
) -> Result<(), CallErr<C::Refusal>>
    requires unbroken { S.view.unbroken store.old }
    requires there { C.is_there call.now (S.view.params store.old) }
    ensures calls { Calls S.view (M.disk machine.old) (M.disk machine.new) store.old store.new (cause_in result) }
    ensures adds { (p : Params) (commands : List Command) → S.view.holds p (M.disk machine.old) store.old commands →
        S.view.adds p (M.disk machine.old) (M.disk machine.new) store.old store.new commands
        (made_of p.cap (map C.kind (plan_from (C.meaning (bounds_of p)) (C.next call.now (bounds_of p)) most (state_of p commands)).commands)) (ending_of (cause_in result)) }
    ensures answer { (p : Params) (commands : List Command) → S.view.holds p (M.disk machine.old) store.old commands → ending_of (cause_in result) ≡ Done →
        result_err result ≡ refused_in p.cap (plan_from (C.meaning (bounds_of p)) (C.next call.now (bounds_of p)) most (state_of p commands)) }
{
    store.nothing_is_made(machine);
    S::calls_go_on::<M>();
    for _turn in 0..most {
        if take_turn(call, store, machine)? {
            return Ok(());
        }
    }
    Ok(())
}
