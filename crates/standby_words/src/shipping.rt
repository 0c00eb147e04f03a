// The log is said for a standby.
ghost use Rattle.std.specs.Prelude.{◌≡◌, ◌≢◌, ◌++◌, ℕ, List, false, OnOk, IfErr};
ghost use Rattle.disk_model.specs.Disk.{LeavesOnly, Passes, Runs, Same, SaysFront};
ghost use Rattle.formats.specs.declared.params.Params.{Params};
ghost use Rattle.frame_stream.specs.Frames.{frame, frames};
ghost use Rattle.log_records.specs.BlockReader.{AreAllBlocks};
ghost use Rattle.op_codec.specs.AllOps.{all_meaning};
ghost use Rattle.store_engine.specs.Shipping.{IsReaderFrom};
ghost use Rattle.shell_base.specs.Judging.{CountsFaults};
ghost use Rattle.shell_base.specs.Keeps.{KeepsFiles};
ghost use Rattle.shell_base.specs.Stops.{IsCaused, IsUndamaged};
ghost use Rattle.shell_base.specs.Status.{IsOfOpened, IsOfShip};
ghost use Rattle.shell_base.specs.Store.{Command, Holds, IsAttached};
ghost use Rattle.standby_words.specs.Shipping.{IsShipCall, SaysBlocks, SaysFrames, SaysGone, SaysOfLog};

use disk_model::Machine;
use frame_stream::frame_head;
use log_records::BlockReader;
use op_codec::AllOps;
use shell_base::{Budget, Status, Stop, end_damaged, end_numbered, open_store, say_line};
use std::alloc::Global;
use store_engine::{Engine, ShipErr, standing_files_meet_their_format};

/// Says the frame of a payload. Fails where the output does.
fn say_frame<M: Machine>(machine: &mut M, payload: &[u8]) -> Result<(), Stop>
    ensures says { Runs Same (SaysFront (frame payload.now)) (M.disk machine.old) (M.disk machine.new) }
    ensures all { (M.disk machine.old).tells_files → OnOk result ((M.disk machine.new).said ≡ (M.disk machine.old).said ++ frame payload.now) }
    ensures cause { IfErr result (λ stop. IsCaused stop (M.disk machine.old) (M.disk machine.new)) }
    ensures undamaged { IfErr result IsUndamaged }
{
    say_line(machine, &frame_head(payload))?;
    say_line(machine, payload)?;
    Ok(())
}

/// Says a frame for each block that a reader of the log gives. One block is in memory.
fn say_frames<M: Machine>(
    alloc: Global,
    engine: &mut Engine<AllOps>,
    machine: &mut M,
    reader: BlockReader<AllOps>,
) -> Result<(), Stop>
    requires unbroken { engine.old.broken ≡ false }
    requires reads { IsReaderFrom all_meaning (M.disk machine.old) engine.old reader.from reader }
    ensures says { SaysBlocks (all_meaning engine.old.parts.log.bounds) (M.disk machine.old) (M.disk machine.new) engine.old.parts.log.log reader.from }
    ensures all { (M.disk machine.old).tells_files →
        OnOk result ((given : List (List ℕ)) × AreAllBlocks (all_meaning engine.old.parts.log.bounds) (M.disk machine.new) engine.old.parts.log.log reader.from given × ((M.disk machine.new).said ≡ (M.disk machine.old).said ++ frames given)) }
    ensures cause { IfErr result (λ stop. IsCaused stop (M.disk machine.old) (M.disk machine.new)) }
    ensures undamaged { (M.disk machine.old).tells_files → IsAttached (M.disk machine.old) engine.old → IfErr result IsUndamaged }
{
    let mut reader = reader;
    let mut payload = Vec::new(alloc);
    while engine.next_shipped(machine, &mut reader, &mut payload)? {
        say_frame(machine, payload.as_slice())?;
    }
    Ok(())
}

/// Says what the log of an open store has from a number on, or where it begins if that is later.
fn ship_open<M: Machine>(
    alloc: Global,
    engine: &mut Engine<AllOps>,
    machine: &mut M,
    from: u64,
) -> Status
    requires { engine.old.broken ≡ false }
    ensures time { Passes (M.disk machine.old) (M.disk machine.new) }
    ensures keeps { KeepsFiles (M.disk machine.old) (M.disk machine.new) }
    ensures done { (p : Params) (commands : List Command) → Holds p (M.disk machine.old) engine.old commands → result ≡ Status.Done → SaysFrames p from (M.disk machine.old) (M.disk machine.new) }
    ensures gone { (p : Params) (commands : List Command) → Holds p (M.disk machine.old) engine.old commands → result ≡ Status.Gone → SaysGone p from (M.disk machine.old) (M.disk machine.new) }
    // No more is said than of the log in the files.
    ensures said { (p : Params) (commands : List Command) → Holds p (M.disk machine.old) engine.old commands → SaysOfLog p from (M.disk machine.old).said (M.disk machine.new).reads (M.disk machine.new).said }
    ensures images { (p : Params) (commands : List Command) → Holds p (M.disk machine.old) engine.old commands → (M.disk machine.old).tells_moments →
        LeavesOnly (M.disk machine.old) (M.disk machine.new) (λ files said. (files ≡ (M.disk machine.old).reads) × SaysOfLog p from (M.disk machine.old).said files said) }
    // No block of the log that was opened is damaged.
    ensures store { (M.disk machine.old).tells_files → IsAttached (M.disk machine.old) engine.old → (result ≢ Status.NotAStore) × (result ≢ Status.Damaged) }
    ensures status { IsOfShip result }
    ensures found { IsOfOpened result }
    ensures faults { CountsFaults (M.disk machine.old) (M.disk machine.new) result }
{
    let reader = match engine.ship(machine, from) {
        Ok(reader) => reader,
        Err(ShipErr::Gone { base }) => {
            return end_numbered(alloc, machine, b"gone", &[base], Status::Gone);
        }
        Err(ShipErr::DiskFault) => return Status::DiskFault,
        Err(ShipErr::Damaged { file, place }) => return end_damaged(alloc, machine, file, place),
        Err(ShipErr::Memory) => return Status::Memory,
    };
    match say_frames(alloc, engine, machine, reader) {
        Ok(()) => Status::Done,
        Err(Stop::Damaged { file, place }) => end_damaged(alloc, machine, file, place),
        Err(stop) => stop.status(),
    }
}

/// Opens the store with this budget, and says as frames the commands and identity writes of its log from a number on. Where the
/// log begins later, or there is no store to open, it says a line.
pub fn ship<M: Machine>(alloc: Global, budget: Budget, machine: &mut M, from: u64) -> Status
    ensures time { Passes (M.disk machine.old) (M.disk machine.new) }
    ensures call { IsShipCall budget from (M.disk machine.old) (M.disk machine.new) result }
    ensures faults { CountsFaults (M.disk machine.old) (M.disk machine.new) result }
{
    standing_files_meet_their_format::<AllOps>();
    match open_store(alloc, budget, machine) {
        Ok(mut engine) => {
            let status = ship_open(alloc, &mut engine, machine, from);
            drop(engine);
            status
        }
        Err(status) => status,
    }
}
