// The program.
ghost use Rattle.std.specs.Prelude.{◌≡◌, ◌^◌, map, string_bytes};
ghost use Rattle.disk_model.specs.Disk.{Passes, Rises};
ghost use Rattle.script_lines.specs.Grammar.{lines_of};
ghost use Rattle.script_lines.specs.Reading.{ReadsOn};
ghost use Rattle.command_words.specs.Words.{IsAllowed};
ghost use Rattle.shell_base.specs.Judging.{CountsFaults};
ghost use Rattle.script_run.specs.Noted.{none_noted};
ghost use Rattle.script_run.specs.Saving.{IsBesideRun};
ghost use Rattle.redo_shell.specs.Calls.{IsCall, IsCallFor, GoesOn};
ghost use Rattle.redo_shell.specs.Causes.{ComesByCause};
ghost use Rattle.redo_shell.specs.Exactly.{IsFaultless, ComesExactly};
ghost use Rattle.redo_shell.specs.Beside.{IsNotedCall, IsNotedFor, IsBackupCall, IsBackupFor};
ghost use Rattle.redo_shell.specs.Sessions.{AddsNothing};

use crate::demo::demo;
use command_words::{Asked, Unread, read_words, words_ask_one_thing};
use disk_model::{Machine, Source};
use op_codec::AllOps;
use script_run::{Notes, Tending, run};
use shell_base::{Budget, Status, end_with};
use standby_words::{follow, ship};
use std::alloc::Global;
use store_engine::{one_damage, standing_files_meet_their_format};
use store_words::{dump, init, upgrade};

/// What is printed where the words ask nothing.
const USAGE: &[u8] =
    b"usage: redo init N CAP LIMIT [--pages] | run [--tend] | dump | demo --seed S --steps T | upgrade N CAP LIMIT [--pages] | ship FROM | follow [--same]\n";

/// Does what was asked, with the files of the machine, its output, and the script that the source gives, of which a run takes
/// notes.
fn serve<M: Machine, T: Machine, S: Source>(
    alloc: Global,
    budget: Budget,
    asked: Asked,
    machine: &mut M,
    backup: &mut T,
    input: &mut S,
    notes: &mut Notes,
) -> Status
    requires allowed { IsAllowed asked }
    requires fresh { notes.old ≡ none_noted }
    ensures time { Passes (M.disk machine.old) (M.disk machine.new) }
    ensures beside { IsBesideRun (T.disk backup.old) (T.disk backup.new) result }
    ensures backup { IsBackupFor budget T.disk asked (S.tells input.old) (lines_of (S.left input.old)) (M.disk machine.old) (M.disk machine.new) backup.old backup.new }
    ensures call { IsCallFor budget asked (S.tells input.old) (S.left input.old) (S.left input.new) (M.disk machine.old) (M.disk machine.new) result }
    ensures noted { IsNotedFor asked (S.tells input.old) (lines_of (S.left input.old)) notes.new result }
    ensures unopened { result ≡ Status.RestartMemory → (input.new ≡ input.old) × (backup.new ≡ backup.old) }
    ensures faults { CountsFaults (M.disk machine.old) (M.disk machine.new) result }
    ensures read_fault { result ≡ Status.ReadFault → Rises (S.faults input.old) (S.faults input.new) }
    ensures too_long { S.tells input.old → result ≡ Status.TooLong → ReadsOn (S.left input.old) (S.left input.new) 0 (2 ^ 40) }
{
    match asked {
        Asked::Run { tend } => run(
            alloc,
            budget,
            Tending::of(tend),
            machine,
            backup,
            input,
            notes,
        ),
        Asked::Dump => dump(alloc, budget, machine),
        Asked::Init(params) => init(machine, params),
        Asked::Demo { seed, steps } => demo(alloc, machine, seed, steps),
        Asked::Upgrade(params) => upgrade(alloc, budget, machine, params),
        Asked::Ship { from } => ship(alloc, budget, machine, from),
        Asked::Follow { same } => follow(alloc, budget, same, machine, input),
    }
}

/// The program: does what the words ask, the program's name first, with the files of the machine, its output, and the
/// script that the source gives. A store is opened with this budget. A run whose script asks for a backup makes it in the files
/// of the other machine. The notes that there were are thrown away, and those of a run tell which line of its script was the first
/// that was bad.
pub fn top<M: Machine, T: Machine, S: Source>(
    alloc: Global,
    budget: Budget,
    words: &[String],
    machine: &mut M,
    backup: &mut T,
    input: &mut S,
    notes: &mut Notes,
) -> Status
    // Any call, by what it was asked. What a crash at any moment of a run leaves a crash at the start could leave, or it stands for
    // the commands of the start and a beginning of those that the script has added, which splits no group; they all together are no
    // fewer than any number that was printed to be forced (`a_run_is_a_call` has that by itself). A dump and a shipment say what
    // they find and change nothing but for the restart; an `init` makes a store where there is none; an upgrade leaves files that
    // stand for the same commands at every moment, and with status 0 those of the larger store; a standby's files stand at every
    // moment for what some first whole frames of the stream make of its commands, and with status 0 for what all of it makes; a
    // demo leaves the files alone, and says what the plain map's answers to the generated script count to.
    ensures call { IsCall budget (map string_bytes words.now) (S.tells input.old) (S.left input.old) (S.left input.new) (M.disk machine.old) (M.disk machine.new) result }
    // What the answers of a run say of the backup is true of its files: where a line `saved n` was said, they stand for the n
    // commands that were accepted up to it; before a line that ends a backup they are no store at any moment. No other call does
    // anything with them, nor does a run without such lines.
    ensures backup { IsBackupCall budget T.disk (map string_bytes words.now) (S.tells input.old) (lines_of (S.left input.old)) (M.disk machine.old) (M.disk machine.new) backup.old backup.new }
    // What a run notes of its script is of some first lines, and with status 0 or 1 of all: how many they are, and which of them
    // is the first that is bad, if one is. No other call notes anything.
    ensures noted { IsNotedCall (map string_bytes words.now) (S.tells input.old) (lines_of (S.left input.old)) notes.new result }
    // Each status of trouble comes only with its cause, and, where no count of faults rises, exactly there. Where there is no
    // memory to read the words, the status is 8 and nothing is done: that is `OrUnread` in these and above.
    ensures cause { ComesByCause (map string_bytes words.now) (S.tells input.old) (S.left input.old) (S.left input.new) (S.faults input.old) (S.faults input.new) (T.disk backup.old) (T.disk backup.new) (M.disk machine.old) (M.disk machine.new) result }
    ensures exactly { IsFaultless (M.disk machine.old) (M.disk machine.new) (S.faults input.old) (S.faults input.new) (T.disk backup.old) (T.disk backup.new) →
        ComesExactly (map string_bytes words.now) (S.tells input.old) (S.left input.old) (M.disk machine.old) (M.disk machine.new) result }
    // The machine goes on through the call, and what the call does goes on any calls of the program before it.
    ensures session { GoesOn M.disk (map string_bytes words.now) (S.tells input.old) (S.left input.old) (S.left input.new) machine.old machine.new }
    // Where the restart is refused memory the status is one of its own. Nothing is said then, as `call` has it, the input and the
    // backup are as they were, and the call adds nothing to any calls before it: so it may be made again with the least budget, and
    // the two are as one call (`a_second_start_goes_on`).
    ensures unopened { result ≡ Status.RestartMemory → (input.new ≡ input.old) × (backup.new ≡ backup.old) × AddsNothing M.disk machine.old machine.new }
{
    standing_files_meet_their_format::<AllOps>();
    one_damage::<AllOps>();
    words_ask_one_thing();
    *notes = Notes::new();
    match read_words(alloc, words) {
        Ok(asked) => serve(alloc, budget, asked, machine, backup, input, notes),
        Err(Unread::Refused(_)) => end_with(machine, USAGE, Status::Usage),
        Err(Unread::Memory) => Status::Memory,
    }
}
