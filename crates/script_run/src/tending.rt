ghost use Rattle.std.specs.Prelude.{◌≡◌, false};
ghost use Rattle.script_run.specs.Tended.{Tends, tending_of};

use disk_model::Machine;
use op_codec::AllOps;
use shell_base::Stop;
use store_engine::{Engine, Pace, calls_go_beside_a_copy, engine_stands, identities_are_counted};

/// How a store is tended while a script is run on it.
#[derive(Clone, Copy, Debug, PartialEq, Eq)]
pub enum Tending {
    /// By the lines of the script alone.
    ByHand,
    /// Before each line is read too, where no group is open.
    ByLine,
}

impl Tending {
    /// By line, where the words ask for it.
    pub fn of(tend: bool) -> Tending
        ensures { result ≡ tending_of tend }
    {
        if tend {
            Tending::ByLine
        } else {
            Tending::ByHand
        }
    }
}

/// Does what upkeep is due, where the store is tended by line and no group is open. Nothing is said of it, not where it is refused
/// either.
pub fn tend<M: Machine>(
    engine: &mut Engine<AllOps>,
    machine: &mut M,
    tending: Tending,
    pace: &mut Pace,
) -> Result<(), Stop>
    requires { engine.old.broken ≡ false }
    ensures { Tends tending (M.disk machine.old) (M.disk machine.new) engine.old engine.new pace.old pace.new result }
{
    identities_are_counted::<AllOps>();
    calls_go_beside_a_copy::<AllOps>();
    match tending {
        Tending::ByHand => Ok(()),
        Tending::ByLine => {
            let kept = engine.keep_up(machine, pace);
            engine_stands(machine, engine);
            match kept {
                Ok(_) => Ok(()),
                Err(error) => Err(Stop::from(error)),
            }
        }
    }
}
