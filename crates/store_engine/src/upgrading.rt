// A store of version 1 becomes a larger one of version 2.
ghost use Rattle.std.specs.Prelude.{◌↔◌, IsTrue};
ghost use Rattle.formats.specs.Objects.{IsInRange};
ghost use Rattle.stable_objects.specs.Upgrades.Larger.{IsLarger};
ghost use Rattle.store_engine.specs.Upgrading.{IsUpgrading};

use crate::Engine;
use crate::engine_laws::engine_stands;
use crate::upgrade_err::UpgradeErr;
use disk_model::Machine;
use formats::Params;
use oper_core::Oper;

// Whether a store with these numbers has as many objects as one with the others, values as long, and all its operations.
fn has_room_for(params: Params, stored: Params) -> bool
    ensures { IsTrue result ↔ IsLarger stored params }
{
    stored.objects <= params.objects && stored.cap <= params.cap && (params.more || !stored.more)
}

impl<O: Oper> Engine<O> {
    // Makes its store larger; then the engine is of no use any more.
    fn enlarge<M: Machine>(&self, machine: &mut M, params: Params) -> Result<(), UpgradeErr>
        requires in_range { IsInRange params }
        ensures { IsUpgrading O.meaning (M.disk machine.old) (M.disk machine.new) self.now params result }
    {
        standing::a_changed_objects_file_stands::<O>();
        engine_stands(machine, self);
        let slots = self.store.objects().slots();
        if !slots.is_first() {
            return Err(UpgradeErr::AlreadyTwo);
        }
        let stored = slots.params();
        if !has_room_for(params, stored) {
            return Err(UpgradeErr::Smaller {
                objects: stored.objects,
                cap: stored.cap,
            });
        }
        slots.grow(self.store.alloc(), machine, params)?;
        Ok(())
    }

    /// Makes the store of version 1 one of version 2 with these numbers, in place. The engine is used up.
    ///
    /// The first that applies is answered: `AlreadyTwo`, where the store is of version 2; `Smaller`, with the numbers of
    /// the store, where it has more objects or longer values; `DiskFault`, `Damaged` and `Memory` while its pairs are
    /// moved. A crash at any moment leaves files that stand for the commands that were forced: those of the store that was
    /// there, or, once the version is written, those of the larger one.
    ///
    /// Over a machine that reports its files `Damaged` comes only where the last slot is open and the file ends within its
    /// head. No call of a store leaves one so, by its code: heads are written whole, and synced, before their gates open.
    pub fn upgrade<M: Machine>(self, machine: &mut M, params: Params) -> Result<(), UpgradeErr>
        requires in_range { IsInRange params }
        ensures { IsUpgrading O.meaning (M.disk machine.old) (M.disk machine.new) self params result }
    {
        self.enlarge(machine, params)
    }
}
