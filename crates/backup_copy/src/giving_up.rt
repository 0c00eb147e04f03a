// A backup is given up.
ghost use Rattle.std.specs.Prelude.{◌≡◌, false, None, Err, Ok, IfErr, IfOk};
ghost use Rattle.backup_copy.specs.Refusals.{judge_copy};

use crate::BackupErr;
use crate::refusing::copied_in;
use oper_core::Oper;
use store_engine::Engine;

/// Gives up the backup that is being made: the target, whose objects gate is closed, is no store.
///
/// The first that applies is answered: `InGroup`; `NoBackup`.
pub fn give_up<O: Oper>(engine: &mut Engine<O>) -> Result<(), BackupErr>
    requires unbroken { engine.old.broken ≡ false }
    ensures refused { IfErr (judge_copy engine.old) (λ why. (result ≡ Err why) × (engine.new ≡ engine.old)) }
    ensures given_up { IfOk (judge_copy engine.old) (λ copied. (result ≡ Ok tt) × (engine.new ≡ record engine.old { copied = None })) }
{
    copied_in(engine)?;
    engine.set_copied(None);
    Ok(())
}
