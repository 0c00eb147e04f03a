// A generated script is run on a store of its own, in memory.
ghost use Rattle.std.specs.Prelude.{◌≡◌, List, [], length, IfOk};
ghost use Rattle.disk_model.specs.Disk.{Passes};
ghost use Rattle.disk_model.specs.Growing.{disk_of};
ghost use Rattle.formats.specs.declared.params.Params.{Params as OfStore};
ghost use Rattle.script_lines.specs.Grammar.{lines_of};
ghost use Rattle.shell_base.specs.Judging.{CountsFaults};
ghost use Rattle.shell_base.specs.Store.{Command, IsNewStore, Opens};
ghost use Rattle.redo_shell.specs.Demo.{demo_params, IsPlayed, AreTotals, SaysTotals, IsDemo};

use crate::tally::{checksum, line_count, refusal_count};
use disk_model::{GrowMem, Machine, MemSource};
use formats::Params;
use oper_core::Memory;
use script_lines::{Answer, Totals, answer_line, demo_script};
use script_run::{Notes, Tending, run};
use shell_base::{Budget, Status, end_with, open_store};
use std::alloc::Global;
use store_words::init;

/// The numbers of the store that a generated script is run on.
const PARAMS: Params = Params {
    objects: 16,
    cap: 64,
    limit: 536_870_912,
    more: false,
};

/// A machine with a new store. It fails only where memory runs out, as each call of it does.
fn new_store(alloc: Global) -> Result<GrowMem, Memory>
    ensures { IfOk result (λ machine. IsNewStore demo_params (disk_of machine).reads × ((disk_of machine).said ≡ [])) }
{
    let mut machine = GrowMem::new(alloc)?;
    match init(&mut machine, PARAMS) {
        Status::Done => Ok(machine),
        _ => Err(Memory),
    }
}

/// How many commands the store on the machine has accepted, as a restart finds them.
fn accepted_count(alloc: Global, machine: &mut GrowMem) -> Result<u64, Memory>
    ensures quiet { (p : OfStore) (commands : List Command) → Opens p (disk_of machine.old) commands → (disk_of machine.new).said ≡ (disk_of machine.old).said }
    ensures count { (p : OfStore) (commands : List Command) → Opens p (disk_of machine.old) commands → IfOk result (λ count. count ≡ length commands) }
{
    match open_store(alloc, Budget::Usual, machine) {
        Ok(engine) => {
            let accepted = engine.accepted();
            drop(engine);
            Ok(accepted)
        }
        Err(_) => Err(Memory),
    }
}

/// Runs a script on a new store. It answers the machine, which has the answers, and how many commands were accepted.
fn play(alloc: Global, script: Vec<u8>) -> Result<(GrowMem, u64), Memory>
    ensures { IfOk result (λ it. IsPlayed (lines_of script.items) (disk_of it.0).said it.1) }
{
    let mut machine = new_store(alloc)?;
    let mut backup = GrowMem::new(alloc)?;
    let mut input = MemSource::new(script, Vec::new(alloc))?;
    let mut notes = Notes::new();
    match run(
        alloc,
        Budget::Usual,
        Tending::ByHand,
        &mut machine,
        &mut backup,
        &mut input,
        &mut notes,
    ) {
        Status::Done | Status::DoneWithRefusals => {
            let accepted = accepted_count(alloc, &mut machine)?;
            Ok((machine, accepted))
        }
        _ => Err(Memory),
    }
}

/// What the script of a seed does.
fn totals(alloc: Global, seed: u64, steps: u32) -> Result<Totals, Memory>
    ensures { IfOk result (AreTotals seed steps) }
{
    let script = demo_script(alloc, seed, steps)?;
    let (machine, accepted) = play(alloc, script)?;
    let said = machine.said();
    Ok(Totals {
        seed,
        steps,
        lines: line_count(said) as u64,
        bytes: said.len() as u64,
        accepted,
        refused: refusal_count(said) as u64,
        sum: checksum(said),
    })
}

/// The line that reports what the script of a seed does.
fn summary_line(alloc: Global, seed: u64, steps: u32) -> Result<Vec<u8>, Memory>
    ensures { IfOk result (λ line. SaysTotals seed steps line.items) }
{
    let totals = totals(alloc, seed, steps)?;
    let line = answer_line(alloc, &Answer::Summary(totals))?;
    Ok(line)
}

/// Runs the script of a seed with so many steps on a store of its own, in memory, and says what it did. The files of the
/// machine are left alone.
pub fn demo<M: Machine>(alloc: Global, machine: &mut M, seed: u64, steps: u32) -> Status
    ensures time { Passes (M.disk machine.old) (M.disk machine.new) }
    ensures demo { IsDemo seed steps (M.disk machine.old) (M.disk machine.new) result }
    ensures faults { CountsFaults (M.disk machine.old) (M.disk machine.new) result }
{
    match summary_line(alloc, seed, steps) {
        Ok(line) => end_with(machine, line.as_slice(), Status::Done),
        Err(Memory) => Status::Memory,
    }
}
