// A store is reported: its objects that are not empty, and how many commands it was given.
ghost use Rattle.std.specs.Prelude.{◌≡◌, ◌≢◌, ◌<◌, ◌++◌, false, List, ℕ, length, take, OnOk, IfOk, IfErr};
ghost use Rattle.std.specs.List.{flat_map};
ghost use Rattle.disk_model.specs.Disk.{Rises, Passes, Stays, LeavesOnly};
ghost use Rattle.formats.specs.declared.params.Params.{Params};
ghost use Rattle.script_lines.specs.Replies.{command_count, said_line};
ghost use Rattle.store_engine.specs.Engine.{forced_in};
ghost use Rattle.shell_base.specs.Store.{IsAttached, Command, Holds, state_of};
ghost use Rattle.shell_base.specs.Judging.{CountsFaults};
ghost use Rattle.shell_base.specs.Keeps.{KeepsFiles};
ghost use Rattle.shell_base.specs.Stops.{IsCaused, IsUndamaged};
ghost use Rattle.shell_base.specs.Status.{IsOfDump, IsOfOpened};
ghost use Rattle.store_words.specs.Dump.{IsDumpCall, row_of, dump_of, DumpMoment};

use disk_model::Machine;
use op_codec::AllOps;
use oper_core::Memory;
use script_lines::{Answer, answer_line};
use shell_base::{Budget, Status, Stop, end_damaged, end_with, fetched, open_store};
use std::alloc::Global;
use store_engine::{Engine, standing_files_meet_their_format};

/// Adds the row of an object that is not empty.
fn push_row(alloc: Global, table: &mut Vec<u8>, object: u32, value: &[u8]) -> Result<(), Memory>
    ensures { OnOk result (table.new.items ≡ table.old.items ++ flat_map said_line (row_of object value.now)) }
{
    if value.is_empty() {
        return Ok(());
    }
    let row = answer_line(alloc, &Answer::Object { object, value })?;
    table.extend_from_slice(row.as_slice())?;
    Ok(())
}

/// Adds the number of commands.
fn push_count(alloc: Global, table: &mut Vec<u8>, commands: u64) -> Result<(), Memory>
    ensures { OnOk result (table.new.items ≡ table.old.items ++ said_line (command_count commands)) }
{
    let count = answer_line(alloc, &Answer::Commands(commands))?;
    table.extend_from_slice(count.as_slice())?;
    Ok(())
}

/// Adds the row of an object of the store, if it is not empty.
fn push_object<M: Machine>(
    alloc: Global,
    engine: &mut Engine<AllOps>,
    machine: &mut M,
    object: u32,
    table: &mut Vec<u8>,
) -> Result<(), Stop>
    requires { engine.old.broken ≡ false }
    ensures kept { Stays (M.disk machine.old) (M.disk machine.new) }
    ensures row { (p : Params) (commands : List Command) → Holds p (M.disk machine.old) engine.old commands → object < p.objects →
        OnOk result (table.new.items ≡ table.old.items ++ flat_map said_line (row_of object (state_of p commands object))) }
    ensures holds { (p : Params) (commands : List Command) → Holds p (M.disk machine.old) engine.old commands → OnOk result (Holds p (M.disk machine.new) engine.new commands) }
    ensures cause { IfErr result (λ stop. IsCaused stop (M.disk machine.old) (M.disk machine.new)) }
    ensures undamaged { (M.disk machine.old).tells_files → IsAttached (M.disk machine.old) engine.old → IfErr result IsUndamaged }
    ensures attached { IsAttached (M.disk machine.old) engine.old → OnOk result (IsAttached (M.disk machine.new) engine.new) }
    ensures unbroken { OnOk result (engine.new.broken ≡ false) }
{
    if fetched(engine, machine, object)? {
        push_row(alloc, table, object, engine.get(object))?;
    }
    Ok(())
}

/// A row for each object that is not empty, rising, and the number of commands.
fn table<M: Machine>(
    alloc: Global,
    engine: &mut Engine<AllOps>,
    machine: &mut M,
) -> Result<Vec<u8>, Stop>
    requires { engine.old.broken ≡ false }
    ensures kept { Stays (M.disk machine.old) (M.disk machine.new) }
    ensures rows { (p : Params) (commands : List Command) → Holds p (M.disk machine.old) engine.old commands →
        IfOk result (λ table. table.items ≡ dump_of p commands) }
    ensures cause { IfErr result (λ stop. IsCaused stop (M.disk machine.old) (M.disk machine.new)) }
    ensures undamaged { (M.disk machine.old).tells_files → IsAttached (M.disk machine.old) engine.old → IfErr result IsUndamaged }
    ensures attached { IsAttached (M.disk machine.old) engine.old → OnOk result (IsAttached (M.disk machine.new) engine.new) }
{
    let mut table = Vec::new(alloc);
    for object in 0..engine.params().objects {
        push_object(alloc, engine, machine, object, &mut table)?;
    }
    push_count(alloc, &mut table, engine.accepted())?;
    Ok(table)
}

/// Says the table of an open store. Where a slot breaks its format it says a line.
fn dump_open<M: Machine>(alloc: Global, engine: &mut Engine<AllOps>, machine: &mut M) -> Status
    requires { engine.old.broken ≡ false }
    ensures time { Passes (M.disk machine.old) (M.disk machine.new) }
    ensures images { (p : Params) (commands : List Command) → Holds p (M.disk machine.old) engine.old commands → forced_in engine.old ≡ length commands → (M.disk machine.old).tells_moments →
        LeavesOnly (M.disk machine.old) (M.disk machine.new) (DumpMoment p commands (M.disk machine.old).said) }
    ensures said { (p : Params) (commands : List Command) → Holds p (M.disk machine.old) engine.old commands →
        (count : ℕ) × ((M.disk machine.new).said ≡ (M.disk machine.old).said ++ take count (dump_of p commands)) }
    ensures all { (p : Params) (commands : List Command) → Holds p (M.disk machine.old) engine.old commands → result ≡ Status.Done →
        (M.disk machine.new).said ≡ (M.disk machine.old).said ++ dump_of p commands }
    ensures keeps { KeepsFiles (M.disk machine.old) (M.disk machine.new) }
    // No slot of the files that were opened is damaged.
    ensures store { (M.disk machine.old).tells_files → IsAttached (M.disk machine.old) engine.old → (result ≢ Status.NotAStore) × (result ≢ Status.Damaged) }
    ensures status { IsOfDump result }
    ensures found { IsOfOpened result }
    ensures disk_fault { result ≡ Status.DiskFault → Rises (M.disk machine.old).disk_faults (M.disk machine.new).disk_faults }
    ensures say_fault { result ≡ Status.SayFault → Rises (M.disk machine.old).say_faults (M.disk machine.new).say_faults }
{
    match table(alloc, engine, machine) {
        Ok(table) => end_with(machine, table.as_slice(), Status::Done),
        Err(Stop::Damaged { file, place }) => end_damaged(alloc, machine, file, place),
        Err(stop) => stop.status(),
    }
}

/// Opens the store with this budget, and says its table. Where there is no store to open it says a line.
pub fn dump<M: Machine>(alloc: Global, budget: Budget, machine: &mut M) -> Status
    ensures time { Passes (M.disk machine.old) (M.disk machine.new) }
    ensures call { IsDumpCall budget (M.disk machine.old) (M.disk machine.new) result }
    ensures faults { CountsFaults (M.disk machine.old) (M.disk machine.new) result }
{
    standing_files_meet_their_format::<AllOps>();
    match open_store(alloc, budget, machine) {
        Ok(mut engine) => {
            let status = dump_open(alloc, &mut engine, machine);
            drop(engine);
            status
        }
        Err(status) => status,
    }
}
