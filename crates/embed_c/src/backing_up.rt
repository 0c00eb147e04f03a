// Backups, on a session and the files of the backup.
ghost use Rattle.std.specs.Prelude.{◌≡◌};
ghost use Rattle.write_queue.specs.Handed.{handed};
ghost use Rattle.embed_c.specs.Answers.{alone, told};
ghost use Rattle.embed_c.specs.Backups.{ClosesTarget, DoesCopy, DoesFinish, DoesGiveUp, DoesStart, IsCalledWith, OnBoth, OnTarget, OpensTarget, TellsNextOf, TellsNumber, no_target, of_backup, target_of};
ghost use Rattle.embed_c.specs.Calls.{DoesNothing, IsCalled};
ghost use Rattle.embed_c.specs.Handles.{OnSession, session_of};

use crate::answer::{Answer, file_number};
use crate::handle::Redo;
use crate::session::Session;
use crate::taken::Call;
use crate::target::Target;
use crate::target_handle::RedoTarget;
use backup_copy::BackupErr;
use std::alloc::Global;

const NOT_OPEN: u32 = 64;

const ALREADY_OPEN: u32 = 65;

const NO_TARGET: u32 = 21;

const MEMORY: u32 = 8;

// What C is told of a backup's call that was not done.
fn failure(cause: BackupErr) -> Answer
    ensures { result ≡ of_backup cause }
{
    match cause {
        BackupErr::InGroup { commands } => Answer::telling(18, commands, 0, 0),
        BackupErr::InBackup { copied } => Answer::telling(20, u64::from(copied), 0, 0),
        BackupErr::NoBackup => Answer::alone(21),
        BackupErr::AlreadyStore => Answer::alone(6),
        BackupErr::NotCopied { copied } => Answer::telling(22, u64::from(copied), 0, 0),
        BackupErr::DiskFault => Answer::alone(5),
        BackupErr::TargetFault => Answer::alone(11),
        BackupErr::Damaged { file, place } => {
            Answer::telling(4, u64::from(file_number(file)), place, 0)
        }
        BackupErr::LogFull { used, need, limit } => Answer::telling(16, used, need, limit),
        BackupErr::Memory => Answer::alone(8),
    }
}

// What C is told of a call on a backup.
fn backup_answer<T: Drop>(made: Result<T, BackupErr>) -> Answer
    ensures { result ≡ told of_backup made }
{
    match made {
        Ok(_) => Answer::done(),
        Err(cause) => failure(cause),
    }
}

// Writes how many objects are copied.
fn put_copied(made: &Result<u32, BackupErr>, copied: &mut u64)
    ensures { TellsNumber made.now copied.new }
{
    if let Ok(n) = made {
        *copied = u64::from(*n);
    }
}

// Writes how many commands are saved.
fn put_saved(made: &Result<u64, BackupErr>, commands: &mut u64)
    ensures { TellsNumber made.now commands.new }
{
    if let Ok(n) = made {
        *commands = *n;
    }
}

impl Session {
    // Tells that the files of a backup are not there.
    fn refuse_backup(&mut self) -> u32
        ensures { DoesNothing (alone no_target) self.old self.new result }
    {
        let answer = Answer::alone(NO_TARGET);
        self.detail = answer.detail;
        answer.number
    }

    /// Starts a backup to the target, once C has made the calls that wait on the store.
    pub fn start_backup(&mut self, target: &mut Target) -> u32
        ensures { IsCalledWith (told of_backup) DoesStart self.old self.new target.old target.new result }
    {
        let answer = backup_answer(self.store.start_backup(&mut target.machine));
        self.detail = answer.detail;
        answer.number
    }

    /// Copies so many objects more to the target, and says how many are copied.
    pub fn copy_backup(&mut self, target: &mut Target, count: u32, copied: &mut u64) -> u32
        ensures { IsCalledWith (told of_backup) (λ from to old new made. DoesCopy count from to old new made × TellsNumber made copied.new) self.old self.new target.old target.new result }
    {
        let made = self.store.copy_backup(&mut target.machine, count);
        put_copied(&made, copied);
        let answer = backup_answer(made);
        self.detail = answer.detail;
        answer.number
    }

    /// Finishes the backup, and says how many commands it has.
    pub fn finish_backup(&mut self, target: &mut Target, commands: &mut u64) -> u32
        ensures { IsCalledWith (told of_backup) (λ from to old new made. DoesFinish from to old new made × TellsNumber made commands.new) self.old self.new target.old target.new result }
    {
        let made = self.store.finish_backup(&mut target.machine);
        put_saved(&made, commands);
        let answer = backup_answer(made);
        self.detail = answer.detail;
        answer.number
    }

    /// Gives the backup up that is being made.
    pub fn give_up_backup(&mut self) -> u32
        ensures { IsCalled (told of_backup) DoesGiveUp self.old self.new result }
    {
        let answer = backup_answer(self.store.give_up_backup());
        self.detail = answer.detail;
        answer.number
    }
}

/// Opens a handle on the files of a backup, as they were read.
#[unsafe(no_mangle)]
pub extern "C" fn redo_core_target_open(
    alloc: Global,
    handle: &mut RedoTarget,
    objects: &[u8],
    log_a: &[u8],
    log_b: &[u8],
) -> u32
    ensures { OpensTarget (handed objects.now log_a.now log_b.now) (target_of handle.old) (target_of handle.new) result }
{
    if handle.is_open() {
        return ALREADY_OPEN;
    }
    let Some(target) = Target::over(alloc, objects, log_a, log_b) else {
        return MEMORY;
    };
    match Box::new(alloc, target) {
        Ok(target) => {
            handle.put_back(target);
            0
        }
        Err(_) => MEMORY,
    }
}

#[unsafe(no_mangle)]
pub extern "C" fn redo_core_target_close(alloc: Global, handle: &mut RedoTarget) -> u32
    ensures { ClosesTarget (target_of handle.old) (target_of handle.new) result }
{
    match handle.take(alloc) {
        None => NO_TARGET,
        Some(target) => {
            drop(target);
            0
        }
    }
}

/// Tells the next call that C has to make on the files of a backup, as `redo_core_next` tells those on the files of the store.
#[unsafe(no_mangle)]
pub extern "C" fn redo_core_target_next(
    alloc: Global,
    handle: &mut RedoTarget,
    call: &mut Call,
    into: &mut [u8],
) -> u32
    ensures { OnTarget (TellsNextOf call.new into.old into.new) (target_of handle.old) (target_of handle.new) result }
{
    match handle.take(alloc) {
        None => NO_TARGET,
        Some(mut target) => {
            let answer = target.next_call(call, into);
            handle.put_back(target);
            answer
        }
    }
}

#[unsafe(no_mangle)]
pub extern "C" fn redo_core_backup_start(
    alloc: Global,
    redo: &mut Redo,
    handle: &mut RedoTarget,
) -> u32
    ensures { OnBoth (IsCalledWith (told of_backup) DoesStart) (session_of redo.old) (session_of redo.new) (target_of handle.old) (target_of handle.new) result }
{
    let Some(mut session) = redo.take(alloc) else {
        return NOT_OPEN;
    };
    let Some(mut target) = handle.take(alloc) else {
        let answer = session.refuse_backup();
        redo.put_back(session);
        return answer;
    };
    let answer = session.start_backup(&mut target);
    redo.put_back(session);
    handle.put_back(target);
    answer
}

#[unsafe(no_mangle)]
pub extern "C" fn redo_core_backup_copy(
    alloc: Global,
    redo: &mut Redo,
    handle: &mut RedoTarget,
    count: u32,
    copied: &mut u64,
) -> u32
    ensures { OnBoth (IsCalledWith (told of_backup) (λ from to old new made. DoesCopy count from to old new made × TellsNumber made copied.new)) (session_of redo.old) (session_of redo.new) (target_of handle.old) (target_of handle.new) result }
{
    let Some(mut session) = redo.take(alloc) else {
        return NOT_OPEN;
    };
    let Some(mut target) = handle.take(alloc) else {
        let answer = session.refuse_backup();
        redo.put_back(session);
        return answer;
    };
    let answer = session.copy_backup(&mut target, count, copied);
    redo.put_back(session);
    handle.put_back(target);
    answer
}

#[unsafe(no_mangle)]
pub extern "C" fn redo_core_backup_finish(
    alloc: Global,
    redo: &mut Redo,
    handle: &mut RedoTarget,
    commands: &mut u64,
) -> u32
    ensures { OnBoth (IsCalledWith (told of_backup) (λ from to old new made. DoesFinish from to old new made × TellsNumber made commands.new)) (session_of redo.old) (session_of redo.new) (target_of handle.old) (target_of handle.new) result }
{
    let Some(mut session) = redo.take(alloc) else {
        return NOT_OPEN;
    };
    let Some(mut target) = handle.take(alloc) else {
        let answer = session.refuse_backup();
        redo.put_back(session);
        return answer;
    };
    let answer = session.finish_backup(&mut target, commands);
    redo.put_back(session);
    handle.put_back(target);
    answer
}

#[unsafe(no_mangle)]
pub extern "C" fn redo_core_backup_give_up(alloc: Global, redo: &mut Redo) -> u32
    ensures { OnSession (IsCalled (told of_backup) DoesGiveUp) (session_of redo.old) (session_of redo.new) result }
{
    match redo.take(alloc) {
        None => NOT_OPEN,
        Some(mut session) => {
            let answer = session.give_up_backup();
            redo.put_back(session);
            answer
        }
    }
}
