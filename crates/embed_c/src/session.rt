// A store in memory, the calls that C has to make, and what its last answer said.
ghost use Rattle.std.specs.Prelude.{◌≡◌, ◌⊎◌, ℕ, false, List, [], length, IfErr, IfOk, IfSome, IsTrue};
ghost use Rattle.disk_model.specs.Disk.{Files};
ghost use Rattle.formats.specs.Objects.{IsInRange};
ghost use Rattle.formats.specs.declared.params.Params.{Params as Numbers};
ghost use Rattle.op_codec.specs.AllOps.{AllOps as Command, all_meaning, plain};
ghost use Rattle.op_meaning.specs.declared.plain_op.PlainOp.TheVariants.{Put as PutOp};
ghost use Rattle.app_steps.specs.Steps.{program_step, step_of};
ghost use Rattle.store_engine.specs.Engine.{Holds, Opens, forced_in, params_of};
ghost use Rattle.store_engine.specs.Store.{Stands};
ghost use Rattle.write_queue.specs.Handed.{handed};
ghost use Rattle.write_queue.specs.Memory.{IsLeftByFront, disk_of, first_files, taken_from, waiting_in};
ghost use Rattle.embed.specs.Embedded.{Reports};
ghost use Rattle.embed_c.specs.Answers.{alone, of_exec, of_work, told, told_end, told_value};
ghost use Rattle.embed_c.specs.Calls.{DoesBegin, DoesCheckpoint, DoesDrain, DoesEnd, DoesExec, DoesForce, DoesGet, DoesInstall, DoesNothing, DoesRun, DoesTrim, IsCalled, StagesRun, TellsCount, TellsInstall, TellsLength, TellsSteps};
ghost use Rattle.embed_c.specs.Next.{left_in};
ghost use Rattle.embed_c.specs.Opening.{IsCreated, IsFailure, IsHanded, IsOpened, IsReady, IsUncreated, IsUnopened};
ghost use Rattle.embed_c.specs.Staging.{Gets, Runs};
ghost use Rattle.embed_c.specs.Waiting.{KeepsStore, TellsNext, pending};
ghost use Rattle.embed_c.specs.Within.{Tells};

use crate::answer::{Answer, Detail, end_answer, exec_answer, value_answer, work_answer};
use crate::pairs::Pairs;
use crate::taken::{Call, Taken};
use app_steps::{App, ProgApp};
use embed::{Store, lay_out};
use formats::Params;
use op_codec::{AllOps, plain_op};
use op_meaning::PlainOp;
use oper_core::ByteList;
use std::alloc::Global;
use store_engine::{ExecErr, Install, Pace, Stat, WorkErr, standing_files_meet_their_format};
use transactions::{Snapshot, Transaction};
use write_queue::{QueueMem, fronts_are_what_is_left};

/// A store in use, as one value behind a handle.
#[derive(Drop)]
pub struct Session {
    pub(crate) alloc: Global,
    pub(crate) store: Store<QueueMem>,
    pub(crate) taken: Taken,
    pub(crate) detail: Detail,
    // The pairs of a tree and those of a map that were found last.
    pub(crate) pairs: Pairs,
    // The transaction that is open.
    pub(crate) staging: Option<Transaction<AllOps>>,
    // The snapshot that is open.
    pub(crate) snapshot: Option<Snapshot>,
    // When upkeep is due.
    pub(crate) pace: Pace,
}

// Whether a store may have these numbers.
fn is_in_range(params: &Params) -> bool
    ensures yes { IsTrue result → IsInRange params.now }
    ensures no { result ≡ false → IsInRange params.now → ⊥ }
{
    (1..=65535).contains(&params.objects)
        && (16..=1048576).contains(&params.cap)
        && (2 * params.cap + 4096..=536870912).contains(&params.limit)
}

// A machine to which these files are handed; none where memory is refused.
fn machine(alloc: Global, objects: &[u8], log_a: &[u8], log_b: &[u8]) -> Option<QueueMem>
    ensures { IfSome result (IsHanded (handed objects.now log_a.now log_b.now)) }
{
    match QueueMem::new(alloc, objects, log_a, log_b) {
        Ok(machine) => Some(machine),
        Err(_) => None,
    }
}

// Writes the count of a call that was done.
pub(crate) fn put_count(made: &Result<u64, WorkErr>, count: &mut u64)
    ensures { TellsCount made.now count.new }
{
    if let Ok(n) = made {
        *count = *n;
    }
}

// Writes how many steps were done.
fn put_steps(made: &Result<u64, ExecErr>, steps: &mut u64)
    ensures { TellsSteps made.now steps.new }
{
    if let Ok(n) = made {
        *steps = *n;
    }
}

// Writes how long the value is that was read.
pub(crate) fn put_length<E>(made: &Result<Option<usize>, E>, length: &mut u64)
    ensures { TellsLength made.now length.new }
{
    if let Ok(Some(n)) = made {
        *length = *n as u64;
    }
}

// Writes whether a node was installed.
fn put_install(made: &Result<Install, WorkErr>, installed: &mut u64)
    ensures { TellsInstall made.now installed.new }
{
    match made {
        Ok(Install::Installed { .. }) => *installed = 1,
        Ok(Install::Clean) => *installed = 0,
        Err(_) => {}
    }
}

impl Session {
    // Opens the store of a machine. At each moment since the machine was handed its files, a crash leaves what it left before,
    // or files that stand for the store's commands.
    fn over(alloc: Global, machine: QueueMem) -> Result<Session, Answer>
        ensures ready { taken_from machine ≡ [] → IfOk result (IsReady (first_files machine)) }
        ensures holds { (p : Numbers) (commands : List Command) → Opens all_meaning p (disk_of machine) commands →
            IfOk result (λ s. Holds all_meaning p (disk_of s.store.machine) s.store.engine commands × (forced_in s.store.engine ≡ length commands)) }
        ensures kept { (p : Numbers) (commands : List Command) → Opens all_meaning p (disk_of machine) commands →
            IfOk result (λ s. (left : Files) (said : List ℕ) → IsLeftByFront s.store.machine left said → (disk_of machine).left_since 0 left said ⊎ Stands all_meaning p left commands) }
        ensures err { IfErr result IsFailure }
        ensures why { IfErr result (IsUnopened (disk_of machine).reads) }
    {
        fronts_are_what_is_left();
        match Store::open(alloc, machine) {
            Ok(store) => Ok(Session {
                alloc,
                store,
                taken: Taken::new(alloc),
                detail: Answer::done().detail,
                pairs: Pairs::none(alloc),
                staging: None,
                snapshot: None,
                pace: Pace::new(),
            }),
            Err((cause, _)) => Err(Answer::of_open(cause)),
        }
    }

    /// Opens the store that these files are, all of which are on the disk.
    pub fn open(
        alloc: Global,
        objects: &[u8],
        log_a: &[u8],
        log_b: &[u8],
    ) -> Result<Session, Answer>
        ensures ok { IfOk result (IsOpened (handed objects.now log_a.now log_b.now)) }
        ensures err { IfErr result IsFailure }
        ensures why { IfErr result (IsUnopened (handed objects.now log_a.now log_b.now)) }
    {
        let Some(machine) = machine(alloc, objects, log_a, log_b) else {
            return Err(Answer::alone(8));
        };
        Session::over(alloc, machine)
    }

    /// Lays out a store over these files, all of which are on the disk, and opens it.
    pub fn create(
        alloc: Global,
        objects: &[u8],
        log_a: &[u8],
        log_b: &[u8],
        params: Params,
    ) -> Result<Session, Answer>
        ensures ok { IfOk result (IsCreated params (handed objects.now log_a.now log_b.now)) }
        ensures err { IfErr result IsFailure }
        ensures why { IfErr result (IsUncreated params (handed objects.now log_a.now log_b.now)) }
    {
        standing_files_meet_their_format::<AllOps>();
        if !is_in_range(&params) {
            return Err(Answer::alone(2));
        }
        let Some(mut machine) = machine(alloc, objects, log_a, log_b) else {
            return Err(Answer::alone(8));
        };
        match lay_out(&mut machine, params) {
            Ok(()) => Session::over(alloc, machine),
            Err(cause) => Err(Answer::of_init(cause)),
        }
    }

    // Takes the calls that wait from the machine, where C was given all that were taken.
    fn refill(&mut self)
        ensures pending { pending self.new ≡ pending self.old }
        ensures first { left_in self.new.taken ≡ [] → waiting_in self.new.store.machine ≡ [] }
        ensures store { KeepsStore self.old.store self.new.store }
        ensures detail { self.new.detail ≡ self.old.detail }
        ensures pairs { self.new.pairs ≡ self.old.pairs }
        ensures staging { self.new.staging ≡ self.old.staging }
        ensures snapshot { self.new.snapshot ≡ self.old.snapshot }
    {
        if !self.taken.is_empty() {
            return;
        }
        self.taken = Taken::of(self.store.take());
    }

    /// Tells the next call that C has to make, and answers 1; 0 where none waits. It gives its bytes where there is room for
    /// them; else it is told again.
    pub fn next_call(&mut self, call: &mut Call, into: &mut [u8]) -> u32
        ensures { TellsNext call.new into.old into.new self.old self.new result }
    {
        self.refill();
        self.taken.next(call, into)
    }

    /// What the last answer said beside its number.
    pub fn detail(&self) -> Detail
        ensures { result ≡ self.now.detail }
    {
        self.detail
    }

    // Does a command at once.
    fn run(&mut self, op: AllOps) -> u32
        ensures { IsCalled (told of_exec) (DoesExec op) self.old self.new result }
    {
        let answer = exec_answer(self.store.exec(op));
        self.detail = answer.detail;
        answer.number
    }

    /// Does a command, or stages it, where a transaction is open.
    pub fn exec(&mut self, op: AllOps) -> u32
        ensures { Runs op self.old self.new result }
    {
        if self.in_transaction() {
            return self.stage(op);
        }
        self.run(op)
    }

    /// Gives an object a value.
    pub fn put(&mut self, object: u32, value: &[u8]) -> u32
        ensures { Runs (plain (PutOp object value.now)) self.old self.new result ⊎ DoesNothing (alone 8) self.old self.new result }
    {
        match Vec::from_slice(self.alloc, value) {
            Ok(value) => self.exec(plain_op(PlainOp::Put {
                object,
                value: ByteList::new(value),
            })),
            Err(_) => {
                self.detail = Answer::alone(8).detail;
                8
            }
        }
    }

    /// Does steps of an application until `most` are done or one is refused; where a transaction is open, within it.
    pub fn app_run(&mut self, app: u32, most: u64, steps: &mut u64) -> u32
        ensures { Tells (DoesRun (step_of app) most) (StagesRun (step_of app) most) (told of_exec) (λ made. TellsSteps made steps.new) self.old self.new result }
    {
        let made = self.run_app(&App { app }, most);
        put_steps(&made, steps);
        let answer = exec_answer(made);
        self.detail = answer.detail;
        answer.number
    }

    /// Does steps of an interpreted application until `most` are done or one is refused; where a transaction is open, within it.
    pub fn program_run(&mut self, app: u32, program: u32, most: u64, steps: &mut u64) -> u32
        ensures { Tells (DoesRun (program_step app program) most) (StagesRun (program_step app program) most) (told of_exec) (λ made. TellsSteps made steps.new) self.old self.new result }
    {
        let made = self.run_program(&ProgApp { app, program }, most);
        put_steps(&made, steps);
        let answer = exec_answer(made);
        self.detail = answer.detail;
        answer.number
    }

    // Copies the front of the value that an object of the store has.
    fn read(&mut self, object: u32, into: &mut [u8], length: &mut u64) -> u32
        ensures { IsCalled told_value (λ old new made. DoesGet object into.old into.new old new made × TellsLength made length.new) self.old self.new result }
    {
        let made = self.store.get(object, into);
        put_length(&made, length);
        let answer = value_answer(made);
        self.detail = answer.detail;
        answer.number
    }

    /// Copies the front of an object's value, as much as there is room for: where a transaction is open, of the value that it has
    /// after the staged commands.
    pub fn get(&mut self, object: u32, into: &mut [u8], length: &mut u64) -> u32
        ensures { Gets object into.old into.new length.new self.old self.new result }
    {
        if self.in_transaction() {
            return self.see(object, into, length);
        }
        self.read(object, into, length)
    }

    /// Makes all commands durable, once C has made the calls that wait.
    pub fn force(&mut self, count: &mut u64) -> u32
        ensures { IsCalled (told of_work) (λ old new made. DoesForce old new made × TellsCount made count.new) self.old self.new result }
    {
        let made = self.store.force();
        put_count(&made, count);
        let answer = work_answer(made);
        self.detail = answer.detail;
        answer.number
    }

    /// Opens a group.
    pub fn begin(&mut self) -> u32
        ensures { IsCalled (told of_work) DoesBegin self.old self.new result }
    {
        let answer = work_answer(self.store.begin());
        self.detail = answer.detail;
        answer.number
    }

    /// Closes the open group.
    pub fn end(&mut self) -> u32
        ensures { IsCalled told_end DoesEnd self.old self.new result }
    {
        let answer = end_answer(self.store.end());
        self.detail = answer.detail;
        answer.number
    }

    /// Installs one node of the write graph; `installed` is 0 where there was none.
    pub fn install(&mut self, installed: &mut u64) -> u32
        ensures { IsCalled (told of_work) (λ old new made. DoesInstall old new made × TellsInstall made installed.new) self.old self.new result }
    {
        let made = self.store.install();
        put_install(&made, installed);
        let answer = work_answer(made);
        self.detail = answer.detail;
        answer.number
    }

    /// Installs all nodes of the write graph.
    pub fn drain(&mut self) -> u32
        ensures { IsCalled (told of_work) DoesDrain self.old self.new result }
    {
        let answer = work_answer(self.store.drain());
        self.detail = answer.detail;
        answer.number
    }

    /// Logs a checkpoint.
    pub fn checkpoint(&mut self) -> u32
        ensures { IsCalled (told of_work) DoesCheckpoint self.old self.new result }
    {
        let answer = work_answer(self.store.checkpoint());
        self.detail = answer.detail;
        answer.number
    }

    /// Rewrites the log.
    pub fn trim(&mut self) -> u32
        ensures { IsCalled (told of_work) DoesTrim self.old self.new result }
    {
        let answer = work_answer(self.store.trim());
        self.detail = answer.detail;
        answer.number
    }

    /// What the store reports of itself.
    pub fn stat(&self) -> Stat
        ensures { Reports self.now.store.engine (disk_of self.now.store.machine) result }
    {
        self.store.stat()
    }

    /// How many objects the store has, how many bytes each may hold, and how long the log may be.
    pub fn params(&self) -> Params
        ensures { result ≡ params_of self.now.store.engine }
    {
        self.store.params()
    }
}
