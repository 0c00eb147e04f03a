// Upkeep, at a pace.
ghost use Rattle.std.specs.Prelude.{◌≡◌, ℕ, false, List, None, IfSome};
ghost use Rattle.formats.specs.declared.params.Params.{Params as Numbers};
ghost use Rattle.explain_core.specs.Sound.{IsSound};
ghost use Rattle.explain_core.specs.World.{World};
ghost use Rattle.running_store.specs.Parts.{ShowsVolatile};
ghost use Rattle.checkpointing.specs.Courses.{IsModest};
ghost use Rattle.store_engine.specs.Engine.{group_size, params_of, used_in};
ghost use Rattle.store_engine.specs.Paces.{charged, due_at, full_round, load_of, most_dirty};
ghost use Rattle.store_engine.specs.Store.{meaning_in};
ghost use Rattle.store_engine.specs.Upkept.{IsKeptUp, IsLeftAlone, TakesDue};

use crate::load::Load;
use crate::{Engine, Pace};
use checkpointing::{Due, TaskOutcome, UpkeepReport};
use disk_model::Machine;
use formats::ReadErr;
use oper_core::Oper;
use running_store::objects_within;

// A round installs so many nodes at least, and as many as have objects of at most so many bytes together.
const LEAST: usize = 64;

const BYTES: usize = 1 << 20;

// As many objects may be dirty as have half as many bytes together as the log may have, so many at most and a round's at least.
const DIRTY: usize = 1 << 25;

impl<O: Oper> Engine<O> {
    // How many nodes a full round installs.
    fn round(&self) -> usize
        ensures { result ≡ full_round (params_of self.now) }
    {
        objects_within(LEAST, BYTES, self.params())
    }

    // How many objects may be dirty before a turn is due.
    fn allowed(&self) -> usize
        ensures { result ≡ most_dirty (params_of self.now) }
    {
        let params = self.params();
        let half = params.limit as usize / 2;
        objects_within(LEAST, half.min(DIRTY).max(BYTES), params)
    }

    // How long the log counts.
    fn charged(&self) -> u64
        ensures { result ≡ charged self.now.copied (used_in self.now) }
    {
        match self.copied {
            Some(_) => 0,
            None => self.used(),
        }
    }

    // What makes upkeep due.
    fn load(&self) -> Load
        ensures used { result.used ≡ charged self.now.copied (used_in self.now) }
        ensures round { result.round ≡ full_round (params_of self.now) }
        ensures shown { (p : Numbers) (file : List ℕ) (w : World O) → IsSound (meaning_in O.meaning p) w → ShowsVolatile (meaning_in O.meaning p) p file self.now.parts.volatile w → result ≡ load_of (meaning_in O.meaning p) p self.now.copied w (used_in self.now) }
    {
        Load {
            used: self.charged(),
            limit: self.params().limit as u64,
            dirty: self.dirty(),
            allowed: self.allowed(),
            round: self.round(),
            uninstalled: self.store.graph().len(),
        }
    }

    // What the pace finds due.
    fn due(&self, pace: &Pace) -> Due
        ensures modest { IsModest (params_of self.now) self.now.copied (used_in self.now) result }
        ensures at_pace { (p : Numbers) (file : List ℕ) (w : World O) → IsSound (meaning_in O.meaning p) w → ShowsVolatile (meaning_in O.meaning p) p file self.now.parts.volatile w → result ≡ due_at pace.now (load_of (meaning_in O.meaning p) p self.now.copied w (used_in self.now)) }
    {
        pace.due(&self.load())
    }

    // Takes what is due.
    fn take_due<M: Machine>(&mut self, machine: &mut M, due: Due) -> Result<UpkeepReport, ReadErr>
        requires unbroken { self.old.broken ≡ false }
        requires alone { self.old.group ≡ None }
        requires modest { IsModest (params_of self.old) self.old.copied (used_in self.old) due }
        ensures { TakesDue O.meaning (M.disk machine.old) (M.disk machine.new) self.old self.new due result }
    {
        explain_core::every_run_keeps::<O>();
        standing::image_stands::<O>();
        checkpointing::upkeep_may_be_taken::<O>();
        let copied = self.copied_so_far();
        checkpointing::keep_up(&mut self.store, machine, due, copied)
    }

    /// Upkeep for a caller that makes this call after each of its others: at most one [`trim_within`](Self::trim_within), to 2^20
    /// bytes and to half of what the log has, and after it at most one [`tend`](Self::tend) of a full round, each only where the
    /// pace says that it is due. While the slots are copied no trim is; in a group nothing is, and nothing is done.
    ///
    /// A trim or a turn that is stopped is no failure: it is told what stopped it. It fails with `DiskFault` and with `Memory`;
    /// with `Damaged`, where the log that is read breaks its format, which a log never does that is as the engine left it.
    pub fn keep_up<M: Machine>(
        &mut self,
        machine: &mut M,
        pace: &mut Pace,
    ) -> Result<UpkeepReport, ReadErr>
        requires unbroken { self.old.broken ≡ false }
        ensures in_group { IfSome (group_size self.old) (λ size. IsLeftAlone machine.old machine.new self.old self.new pace.old pace.new result) }
        ensures alone { self.old.group ≡ None → IsKeptUp O.meaning (M.disk machine.old) (M.disk machine.new) self.old self.new pace.old pace.new result }
    {
        if self.group.is_some() {
            return Ok(UpkeepReport {
                trim: TaskOutcome::NotDue,
                turn: TaskOutcome::NotDue,
            });
        }
        let due = self.due(pace);
        let answer = self.take_due(machine, due);
        pace.note(&answer, self.used(), self.params().limit as u64);
        answer
    }
}
