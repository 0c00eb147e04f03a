// A stream is compared with what the store has, before it is followed.
ghost use Rattle.std.specs.Prelude.{◌≡◌, ◌<◌, ◌+◌, ◌^◌, [], false, length, IfErr, IfOk, IfSome, IsErrOf};
ghost use Rattle.disk_model.specs.Disk.{Rises};
ghost use Rattle.frame_stream.specs.FrameBuffer.{taken_by};
ghost use Rattle.op_codec.specs.AllOps.{all_meaning};
ghost use Rattle.store_engine.specs.Engine.{IsEngineRead};
ghost use Rattle.shell_base.specs.Store.{IsAttached};
ghost use Rattle.standby_words.specs.Comparing.{ComparesNext, HasMirror, refusal_of_ship};
ghost use Rattle.standby_words.specs.Following.{IsOfMachine};

use disk_model::Machine;
use op_codec::AllOps;
use standby_node::{CompareErr, FollowErr, Mirror, Standby};
use store_engine::ShipErr;

// Why no stream is compared where the log could not be read. It is read from its first record on.
fn unread_log(cause: ShipErr) -> FollowErr
    ensures { result ≡ refusal_of_ship cause }
{
    match cause {
        ShipErr::DiskFault => FollowErr::DiskFault,
        ShipErr::Damaged { file, place } => FollowErr::Damaged { file, place },
        ShipErr::Memory | ShipErr::Gone { .. } => FollowErr::Memory,
    }
}

/// What the store has, in memory, where a stream is compared with it.
pub(crate) fn mirror_for<M: Machine>(
    same: bool,
    standby: &mut Standby<AllOps>,
    machine: &mut M,
) -> Result<Option<Mirror>, FollowErr>
    requires unbroken { standby.old.engine.broken ≡ false }
    ensures read { IsEngineRead all_meaning (M.disk machine.old) (M.disk machine.new) standby.old.engine standby.new.engine (IsErrOf result FollowErr.DiskFault) }
    ensures rest { standby.new ≡ record standby.old { engine = standby.new.engine } }
    ensures attached { IsAttached (M.disk machine.old) standby.old.engine → IsAttached (M.disk machine.new) standby.new.engine }
    ensures mirrors { IfOk result (HasMirror same (M.disk machine.old) standby.old.engine []) }
    ensures fault { IsErrOf result FollowErr.DiskFault → Rises (M.disk machine.old).disk_faults (M.disk machine.new).disk_faults }
    ensures undamaged { (M.disk machine.old).tells_files → IsAttached (M.disk machine.old) standby.old.engine → IfErr result IsOfMachine }
{
    if !same {
        return Ok(None);
    }
    match standby.mirror(machine) {
        Ok(mirror) => Ok(Some(mirror)),
        Err(cause) => Err(unread_log(cause)),
    }
}

/// Compares a piece of the stream, where that is asked.
pub(crate) fn compare_piece(mirror: &mut Option<Mirror>, piece: &[u8]) -> Result<(), CompareErr>
    requires room { IfSome mirror.old (λ it. taken_by it.frames + length piece.now < 2 ^ 64) }
    ensures { ComparesNext mirror.old mirror.new piece.now result }
{
    match mirror {
        None => Ok(()),
        Some(mirror) => mirror.take::<AllOps>(piece),
    }
}
