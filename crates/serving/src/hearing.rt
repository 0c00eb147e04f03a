// What is done between two turns: upkeep, and a piece more of the input.
ghost use Rattle.std.specs.Prelude.{◌≡◌, ◌≤◌, ◌++◌, [], false, List, ℕ, None, Err, length, IfOk, IsOk, OnOk};
ghost use Rattle.disk_model.specs.Disk.{Rises};
ghost use Rattle.serving.specs.Calls.{GoesOn, KeepsStable, OfNames};

use disk_model::{Machine, Source};
use op_codec::AllOps;
use oper_core::Memory;
use shell_base::Stop;
use std::alloc::Global;
use store_engine::{Engine, Pace, engine_stands};

// So many bytes are asked for at once.
const PIECE: usize = 1 << 16;

// Does what upkeep is due, where no group is open.
fn tend<M: Machine>(
    engine: &mut Engine<AllOps>,
    machine: &mut M,
    pace: &mut Pace,
) -> Result<(), Stop>
    requires unbroken { engine.old.broken ≡ false }
    requires alone { engine.old.group ≡ None }
    ensures call { GoesOn (M.disk machine.old) (M.disk machine.new) engine.new result }
    ensures keeps { OfNames (M.disk machine.old) engine.old (λ lo hi p commands names stable. KeepsStable lo hi p (M.disk machine.old) (M.disk machine.new) engine.new names stable (IsOk result) commands) }
{
    let kept = engine.keep_up(machine, pace);
    engine_stands(machine, engine);
    match kept {
        Ok(_) => Ok(()),
        Err(error) => Err(Stop::from(error)),
    }
}

/// Does what upkeep is due, where no group is open.
pub fn keep_up<M: Machine>(
    engine: &mut Engine<AllOps>,
    machine: &mut M,
    pace: &mut Pace,
) -> Result<(), Stop>
    requires { engine.old.broken ≡ false }
    ensures call { GoesOn (M.disk machine.old) (M.disk machine.new) engine.new result }
    ensures keeps { OfNames (M.disk machine.old) engine.old (λ lo hi p commands names stable. KeepsStable lo hi p (M.disk machine.old) (M.disk machine.new) engine.new names stable (IsOk result) commands) }
{
    match engine.group() {
        Some(_) => Ok(()),
        None => tend(engine, machine, pace),
    }
}

// Room for a piece of the input.
fn empty_piece(alloc: Global) -> Result<Vec<u8>, Memory>
    ensures { IfOk result (λ piece. length piece.items ≡ 65536) }
{
    Ok(vec![in alloc; 0; PIECE]?)
}

// Puts a piece behind the bytes.
fn append(into: &mut Vec<u8>, piece: &[u8]) -> Result<(), Memory>
    ensures { OnOk result (into.new.items ≡ into.old.items ++ piece.now) }
{
    Ok(into.extend_from_slice(piece)?)
}

/// Waits for a piece of the input, and puts it behind the bytes. It answers `false` where the input has ended.
pub fn read_more<S: Source>(alloc: Global, input: &mut S, into: &mut Vec<u8>) -> Result<bool, Stop>
    ensures told { S.tells input.old → S.tells input.new }
    ensures bytes { S.tells input.old → (piece : List ℕ) × (S.left input.old ≡ piece ++ S.left input.new) × OnOk result (into.new.items ≡ into.old.items ++ piece) }
    ensures end { S.tells input.old → IfOk result (λ more. more ≡ false → S.left input.new ≡ []) }
    ensures later { S.faults input.old ≤ S.faults input.new }
    ensures cause { result ≡ Err Stop.ReadFault → Rises (S.faults input.old) (S.faults input.new) }
{
    let mut piece = empty_piece(alloc)?;
    match input.read(piece.as_mut_slice()) {
        Ok(count) => {
            append(into, &piece[..count])?;
            Ok(count > 0)
        }
        Err(_) => Err(Stop::ReadFault),
    }
}
