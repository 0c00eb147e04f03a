ghost use Rattle.std.specs.Prelude.{◌≡◌, ℕ, List, length};
ghost use Rattle.formats.specs.declared.params.Params.{Params};
ghost use Rattle.dirty_cache.specs.Contents.{AreDirty};
ghost use Rattle.explain_core.specs.Sound.{IsSound};
ghost use Rattle.explain_core.specs.World.{World};
ghost use Rattle.write_graph.specs.Graph.{IsCount, NamesNode};
ghost use Rattle.running_store.specs.Parts.{ShowsVolatile};
ghost use Rattle.store_engine.specs.Engine.{IsStat, accepted_in, forced_in, used_in};
ghost use Rattle.store_engine.specs.Store.{meaning_in};

use crate::Engine;
use oper_core::Oper;

/// What a store in use reports of itself.
#[derive(Clone, Copy, Debug)]
pub struct Stat {
    /// The nodes of the write graph.
    pub nodes: u64,
    /// The objects whose slots do not have the version that is cached.
    pub dirty: u64,
    /// The records in the write graph: those that are not installed.
    pub uninstalled: u64,
    /// The commands that are stable.
    pub forced: u64,
    /// The commands that were accepted.
    pub accepted: u64,
    /// The bytes of the log, what waits for a force counted.
    pub used: u64,
    /// The identity writes since the restart.
    pub identities: u64,
}

impl<O: Oper> Engine<O> {
    /// What the store reports of itself.
    pub fn stat(&self) -> Stat
        ensures counts { (result.used ≡ used_in self.now) × (result.accepted ≡ accepted_in self.now) × (result.forced ≡ forced_in self.now) × (result.identities ≡ self.now.identities) }
        ensures own { (result.uninstalled ≡ length self.now.parts.volatile.entries) × IsCount (NamesNode self.now.parts.volatile.entries) result.nodes }
        ensures dirty { (objects : List ℕ) × AreDirty self.now.parts.volatile.objects.cache objects × (result.dirty ≡ length objects) }
        ensures shown { (p : Params) (file : List ℕ) (w : World O) → IsSound (meaning_in O.meaning p) w → ShowsVolatile (meaning_in O.meaning p) p file self.now.parts.volatile w → IsStat O.meaning p w result }
    {
        running_store::dirty_objects_are_counted::<O>();
        Stat {
            nodes: self.store.graph().node_count(),
            dirty: self.store.objects().dirty_count() as u64,
            uninstalled: self.store.graph().len(),
            forced: self.store.log().forced(),
            accepted: self.store.log().accepted(),
            used: self.store.log().used(),
            identities: self.store.identities(),
        }
    }
}
