// A standby, and what is asked of it.
ghost use Rattle.std.specs.Prelude.{◌≡◌, ◌<◌, false, true, nat_lt, length, None, List, [], ℕ, IfOk, IsErrOf};
ghost use Rattle.std.specs.Result.{result_err};
ghost use Rattle.disk_model.specs.Disk.{LeavesOnly};
ghost use Rattle.formats.specs.declared.params.Params.{Params as Numbers};
ghost use Rattle.frame_stream.specs.FrameBuffer.{first_kept, taken_by};
ghost use Rattle.explain_core.specs.World.{World, run};
ghost use Rattle.restart.specs.Courses.{redo_marks, restart_course};
ghost use Rattle.restart.specs.Damage.{IsReported};
ghost use Rattle.restart.specs.Opening.{IsJudged, IsOpening, OpensOn, OpensThrough};
ghost use Rattle.restart.specs.Starts.{OrAtStart};
ghost use Rattle.running_store.specs.Laid.{values_in};
ghost use Rattle.store_engine.specs.Commands.{HasFetched};
ghost use Rattle.store_engine.specs.Engine.{Between, Holds, IsCached, Opens, ShowsIn, params_of};
ghost use Rattle.store_engine.specs.Store.{meaning_in, state_of};
ghost use Rattle.standby_node.specs.Attaching.{BeginsOn, attached};
ghost use Rattle.standby_node.specs.Standby.{IsFollowing, StillFollows};

use disk_model::Machine;
use formats::ReadErr;
use frame_stream::FrameBuffer;
use oper_core::Oper;
use std::alloc::Global;
use std::marker::Model;
use store_engine::{Engine, OpenErr, Tuning};

/// A store that follows the log of another one, frame by frame.
///
/// The machine is passed to each call. After a `DiskFault` the standby is broken: only `taken` and `at_frame_start` may be
/// called then, and `feed` too where the fault was its own.
#[derive(Drop)]
pub struct Standby<O: Oper> {
    pub(crate) engine: Engine<O>,
    pub(crate) frames: FrameBuffer,
    // Of the payload of the frame in hand so many bytes were followed.
    pub(crate) done: usize,
    // The place of the frame in which a refusal came.
    pub(crate) stopped: Option<u64>,
}

impl<O: Oper> Model for Standby<O> {
    ghost use Rattle.standby_node.specs.Standby.{IsAlone, IsWithinFrame, StandbyView};

    ghost Value = { StandbyView };

    ghost view = { λ s. record { engine = s.engine; frames = s.frames; done = s.done; stopped = s.stopped } };

    ghost invariant = { λ s. IsAlone s.engine × IsWithinFrame s.frames.kept s.done };
}

impl<O: Oper> Standby<O> {
    /// Opens the files of a store, as [`Engine::restart`] does, at the beginning of a stream. `Memory` comes only where the
    /// objects gate is open.
    pub fn attach<M: Machine>(
        alloc: Global,
        machine: &mut M,
        tuning: Tuning,
    ) -> Result<Standby<O>, OpenErr>
        requires { 0 < tuning.clean }
        ensures opening { IsOpening O.meaning (M.disk machine.old) (M.disk machine.new) (attached result) }
        ensures judged { (M.disk machine.old).tells_files → IsJudged O.meaning (M.disk machine.old) (M.disk machine.new) (attached result) }
        ensures reported { IsReported O.meaning (M.disk machine.old) (M.disk machine.new) (attached result) }
        ensures ready { IfOk result (λ s. (s.engine.broken ≡ false) × (s.stopped ≡ None) × (taken_by s.frames ≡ 0)) }
        ensures begins { (p : Numbers) (commands : List O) → Opens O.meaning p (M.disk machine.old) commands →
            IfOk result (BeginsOn O.meaning p (M.disk machine.new) commands) }
        // Of a world that the files showed it has the history that the restart leads to, and nothing came of a stream yet.
        ensures follows { (p : Numbers) (used : ℕ) (w : World O) → OpensOn (meaning_in O.meaning p) p (M.disk machine.old) used w →
            IfOk result (λ s. IsFollowing O.meaning p (run (meaning_in O.meaning p) w (restart_course (meaning_in O.meaning p) (redo_marks tuning p) w used).steps).history [] (M.disk machine.new) s) }
        // That world engine and files show then; a crash meanwhile leaves the one after some first steps of the restart's course.
        ensures shows { (p : Numbers) (used : ℕ) (w : World O) → OpensOn (meaning_in O.meaning p) p (M.disk machine.old) used w →
            IfOk result (λ s. ShowsIn O.meaning p (M.disk machine.new) s.engine (run (meaning_in O.meaning p) w (restart_course (meaning_in O.meaning p) (redo_marks tuning p) w used).steps)) }
        ensures steps { (M.disk machine.old).tells_moments → (p : Numbers) (used : ℕ) (w : World O) → OpensOn (meaning_in O.meaning p) p (M.disk machine.old) used w →
            OpensThrough (meaning_in O.meaning p) p (M.disk machine.old) (M.disk machine.new) w (restart_course (meaning_in O.meaning p) (redo_marks tuning p) w used).steps }
        ensures images { (M.disk machine.old).tells_moments → (p : Numbers) (commands : List O) → Opens O.meaning p (M.disk machine.old) commands →
            LeavesOnly (M.disk machine.old) (M.disk machine.new) (OrAtStart (M.disk machine.old) (Between O.meaning p (M.disk machine.old) None (length commands) (length commands) commands)) }
        // Whatever it answers, what reads give stands for the same commands, so that the files may be opened again.
        ensures again { (M.disk machine.old).tells_moments → (p : Numbers) (commands : List O) → Opens O.meaning p (M.disk machine.old) commands → Opens O.meaning p (M.disk machine.new) commands }
    {
        standing::files_show_a_world::<O>();
        Ok(Standby {
            engine: Engine::restart(alloc, machine, tuning)?,
            frames: FrameBuffer::new(alloc),
            done: 0,
            stopped: None,
        })
    }

    /// Whether a call was answered that the disk failed. Then only `taken` and `at_frame_start` may be called, and `feed` where the
    /// fault was its own.
    pub fn is_broken(&self) -> bool
        ensures { result ≡ self.now.engine.broken }
    {
        self.engine.is_broken()
    }

    /// How many bytes of the stream came, those that are kept among them.
    pub fn taken(&self) -> u64
        ensures { result ≡ taken_by self.now.frames }
    {
        self.frames.taken()
    }

    /// The place of a frame that is not whole, or not wholly followed; none between two frames.
    pub fn at_frame_start(&self) -> Option<u64>
        ensures { result ≡ first_kept self.now.frames.passed self.now.frames.kept }
    {
        self.frames.at_frame_start()
    }

    /// Sees that an object is cached, so that `get` reports its value, as [`Engine::fetch`] does. It answers whether there is such
    /// an object.
    pub fn fetch<M: Machine>(&mut self, machine: &mut M, object: u32) -> Result<bool, ReadErr>
        requires unbroken { self.old.engine.broken ≡ false }
        ensures fetched { HasFetched O.meaning (M.disk machine.old) (M.disk machine.new) self.old.engine self.new.engine object (result_err result) }
        ensures rest { self.new ≡ record self.old { engine = self.new.engine } }
        ensures kept { StillFollows O.meaning (M.disk machine.old) (M.disk machine.new) self.old self.new (IsErrOf result ReadErr.DiskFault) }
        ensures there { IfOk result (λ there. there ≡ nat_lt object (params_of self.old.engine).objects) }
        ensures cached { IfOk result (λ there. there ≡ true → IsCached self.new.engine object) }
        ensures value { (p : Numbers) (commands : List O) → Holds O.meaning p (M.disk machine.old) self.old.engine commands →
            IfOk result (λ there. there ≡ true → (file : List ℕ) → values_in self.new.engine.parts.volatile.objects file object ≡ state_of O.meaning p commands object) }
    {
        self.engine.fetch(machine, object)
    }

    /// The value of an object that was fetched and is still cached: what the commands make of it that were followed, those among
    /// them that wait for the end of their frame.
    pub fn get(&self, object: u32) -> &[u8]
        requires { IsCached self.now.engine object }
        ensures value { (file : List ℕ) → result.now ≡ values_in self.now.engine.parts.volatile.objects file object }
    {
        self.engine.get(object)
    }

    /// The engine of the store, which now takes commands of its own. A frame that was not wholly followed is dropped; what was
    /// followed of it waits for a force.
    pub fn promote(self) -> Engine<O>
        requires unbroken { self.engine.broken ≡ false }
        ensures { result ≡ self.engine }
    {
        self.engine
    }
}
