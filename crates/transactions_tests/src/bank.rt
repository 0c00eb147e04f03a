// A bank: each transfer is a transaction, some of them are given up half way, and the log is short.
use disk_model::{Crash, Fuse, GrowMem, Machine, MemMachine};
use formats::Params;
use op_meaning::PlainOp;
use oper_core::{ByteList, Values};
use std::alloc::Global;
use std::test::Fail;
use store_engine::{Engine, OpenErr, Tuning};
use transactions::{CommitErr, Transaction, reopen, roll_back};

const BANK: Params = Params {
    objects: 8,
    cap: 16,
    limit: 4128,
    more: false,
};

const TUNING: Tuning = Tuning {
    clean: 2,
    clean_bytes: 0,
    redo_dirty: 64,
    redo_bytes: 0,
    redo_most: 64,
    redo_waiting: 1 << 28,
    redo_round: 64,
};

// What came of a transfer.
#[derive(Clone, Copy, PartialEq, Eq)]
enum Outcome {
    // It is done.
    Done,
    // The payer is too poor: what was staged is dropped.
    GivenUp,
    // The log had no room.
    Full,
    Failed,
}

// How transfers are committed: what was before is forced, or nothing is.
#[derive(Clone, Copy, Debug, PartialEq, Eq)]
enum Mode {
    Eager,
    Lazy,
}

// So much goes from an account to another one.
#[derive(Clone, Copy)]
struct Transfer {
    from: u32,
    to: u32,
    amount: u8,
}

// How transfers are committed, what comes next, and how many had each outcome.
#[derive(Clone, Copy)]
struct Teller {
    mode: Mode,
    seed: u32,
    done: u64,
    given_up: u64,
    full: u64,
    failed: u64,
}

fn new_teller(mode: Mode) -> Teller {
    Teller {
        mode,
        seed: 20261130,
        done: 0,
        given_up: 0,
        full: 0,
        failed: 0,
    }
}

// A transfer as chance will have it.
fn next_transfer(teller: &mut Teller) -> Transfer {
    let seed = teller.seed.wrapping_mul(1664525).wrapping_add(1013904223);
    teller.seed = seed;
    let from = (seed >> 8) % 8;
    Transfer {
        from,
        to: from.wrapping_add(1).wrapping_add((seed >> 16) % 7) % 8,
        amount: ((seed >> 24) % 40) as u8,
    }
}

fn note(teller: &mut Teller, outcome: Outcome) {
    match outcome {
        Outcome::Done => teller.done = teller.done.wrapping_add(1),
        Outcome::GivenUp => teller.given_up = teller.given_up.wrapping_add(1),
        Outcome::Full | Outcome::Failed => teller.failed = teller.failed.wrapping_add(1),
    }
}

fn balance<M: Machine>(
    alloc: Global,
    transaction: &Transaction<PlainOp>,
    engine: &mut Engine<PlainOp>,
    machine: &mut M,
    account: u32,
) -> u8 {
    if engine.is_broken() {
        return 0;
    }
    let mut values = Values::new(alloc);
    let _ = transaction.value(engine, machine, account, &mut values);
    if values.len() == 1 && values.get(0).len() == 1 {
        return values.get(0)[0];
    }
    0
}

fn set<M: Machine>(
    alloc: Global,
    transaction: &mut Transaction<PlainOp>,
    engine: &mut Engine<PlainOp>,
    machine: &mut M,
    account: u32,
    amount: u8,
) -> bool {
    let Ok(value) = [amount].as_slice().to_vec(alloc) else {
        return false;
    };
    let op = PlainOp::Put {
        object: account,
        value: ByteList::new(value),
    };
    if engine.is_broken() {
        return false;
    }
    transaction.exec(engine, machine, op).is_ok()
}

// Adds what is staged.
fn commit<M: Machine>(
    mode: Mode,
    transaction: &mut Transaction<PlainOp>,
    engine: &mut Engine<PlainOp>,
    machine: &mut M,
) -> Outcome {
    if engine.is_broken() {
        return Outcome::Failed;
    }
    if let Some(_) = engine.group() {
        return Outcome::Failed;
    }
    let made = match mode {
        Mode::Eager => transaction.commit(engine, machine),
        Mode::Lazy => transaction.commit_lazily(engine, machine),
    };
    match made {
        Ok(()) => Outcome::Done,
        Err(CommitErr::LogFull) => Outcome::Full,
        Err(_) => Outcome::Failed,
    }
}

// Empties the log.
fn make_room<M: Machine>(engine: &mut Engine<PlainOp>, machine: &mut M) {
    if engine.is_broken() {
        return;
    }
    let _ = engine.drain(machine);
    if engine.is_broken() {
        return;
    }
    let _ = engine.trim(machine);
}

// The gain is staged before the loss.
fn pay<M: Machine>(
    alloc: Global,
    mode: Mode,
    transaction: &mut Transaction<PlainOp>,
    engine: &mut Engine<PlainOp>,
    machine: &mut M,
    transfer: Transfer,
) -> Outcome {
    let Transfer { from, to, amount } = transfer;
    let rich = balance(alloc, transaction, engine, machine, to);
    let gained = set(
        alloc,
        transaction,
        engine,
        machine,
        to,
        rich.wrapping_add(amount),
    );
    let poor = balance(alloc, transaction, engine, machine, from);
    if gained && (poor < amount || rich > 200) {
        return Outcome::GivenUp;
    }
    let paid = set(
        alloc,
        transaction,
        engine,
        machine,
        from,
        poor.wrapping_sub(amount),
    );
    if gained && paid {
        commit(mode, transaction, engine, machine)
    } else {
        Outcome::Failed
    }
}

// One transfer. Where the log is full it is made empty, and what is still staged is added then.
fn make_transfer<M: Machine>(
    alloc: Global,
    engine: &mut Engine<PlainOp>,
    machine: &mut M,
    teller: &mut Teller,
) {
    let next = next_transfer(teller);
    let Ok(mut transaction) = Transaction::new(alloc) else {
        return;
    };
    let mut outcome = pay(alloc, teller.mode, &mut transaction, engine, machine, next);
    if outcome == Outcome::Full {
        teller.full = teller.full.wrapping_add(1);
        make_room(engine, machine);
        outcome = commit(teller.mode, &mut transaction, engine, machine);
    }
    drop(transaction);
    note(teller, outcome);
}

fn transfers<M: Machine>(
    alloc: Global,
    engine: &mut Engine<PlainOp>,
    machine: &mut M,
    teller: &mut Teller,
    times: u32,
) {
    for _ in 0..times {
        make_transfer(alloc, engine, machine, teller);
    }
}

// Gives each account 100.
fn endow<M: Machine>(alloc: Global, engine: &mut Engine<PlainOp>, machine: &mut M) {
    let Ok(mut transaction) = Transaction::new(alloc) else {
        return;
    };
    for account in 0..8u32 {
        let _ = set(alloc, &mut transaction, engine, machine, account, 100);
    }
    let _ = commit(Mode::Eager, &mut transaction, engine, machine);
}

// What the accounts have: together, and each in a byte of its own.
#[derive(Clone, Copy, Debug, PartialEq, Eq)]
struct Funds {
    all: u64,
    each: u64,
}

fn funds_of<M: Machine>(alloc: Global, engine: &mut Engine<PlainOp>, machine: &mut M) -> Funds {
    let mut all: u64 = 0;
    let mut each: u64 = 0;
    let Ok(transaction) = Transaction::new(alloc) else {
        return Funds { all, each };
    };
    for account in 0..8u32 {
        let has = balance(alloc, &transaction, engine, machine, account) as u64;
        all = all.wrapping_add(has);
        each = each.wrapping_mul(256).wrapping_add(has);
    }
    Funds { all, each }
}

fn force<M: Machine>(engine: &mut Engine<PlainOp>, machine: &mut M) {
    if engine.is_broken() {
        return;
    }
    let _ = engine.force(machine);
}

// The transfers of a new bank, and the sum after them, which is forced.
fn run<M: Machine>(alloc: Global, machine: &mut M, teller: &mut Teller, times: u32) -> u64 {
    let Ok(mut engine) = Engine::<PlainOp>::restart(alloc, machine, TUNING) else {
        return 0;
    };
    endow(alloc, &mut engine, machine);
    transfers(alloc, &mut engine, machine, teller, times);
    let Funds { all, .. } = funds_of(alloc, &mut engine, machine);
    force(&mut engine, machine);
    drop(engine);
    all
}

// The sum after a restart. A log that is nearly full is emptied then: each restart adds a checkpoint.
fn sum_again<M: Machine>(alloc: Global, machine: &mut M) -> Result<u64, OpenErr> {
    match Engine::<PlainOp>::restart(alloc, machine, TUNING) {
        Ok(mut engine) => {
            let Funds { all, .. } = funds_of(alloc, &mut engine, machine);
            if engine.used() > 3900 {
                make_room(&mut engine, machine);
            }
            drop(engine);
            Ok(all)
        }
        Err(e) => Err(e),
    }
}

// The sums after so many transfers and after a restart.
fn sums_after(alloc: Global, teller: &mut Teller, times: u32) -> Result<[u64; 2], Fail> {
    let mut machine = GrowMem::new(alloc)?;
    let _ = Engine::<PlainOp>::init(&mut machine, BANK);
    let end = run(alloc, &mut machine, teller, times);
    let later = sum_again(alloc, &mut machine)?;
    Ok([end, later])
}

// Some transfers, with a force after each four, on a machine that stops after so many calls.
fn go_on(alloc: Global, machine: MemMachine, teller: &mut Teller, calls: u64) -> MemMachine {
    let mut machine = machine;
    let Ok(mut engine) = Engine::<PlainOp>::restart(alloc, &mut machine, TUNING) else {
        return machine;
    };
    let mut fuse = Fuse::new(machine, calls);
    for _ in 0..2u32 {
        transfers(alloc, &mut engine, &mut fuse, teller, 4);
        force(&mut engine, &mut fuse);
    }
    drop(engine);
    fuse.into_inner()
}

// A restart on a machine that stops after so many calls.
fn cut_short(alloc: Global, machine: MemMachine, calls: u64) -> MemMachine {
    let mut fuse = Fuse::new(machine, calls);
    let _ = sum_again(alloc, &mut fuse);
    fuse.into_inner()
}

// The bank goes on, stops and crashes, and so does the restart after that: what is left, and the sum after one more.
fn crashed(
    alloc: Global,
    machine: MemMachine,
    teller: &mut Teller,
    calls: u64,
    how: Crash,
) -> (MemMachine, Result<u64, OpenErr>) {
    let left = go_on(alloc, machine, teller, calls).crash(how);
    let mut left = cut_short(alloc, left, calls.wrapping_mul(2)).crash(how);
    let all = sum_again(alloc, &mut left);
    (left, all)
}

// A crash after so many calls, another one in the restart, and the sum after one more.
type Found = (Crash, u64, Result<u64, OpenErr>);

// The first of 480 crashes after which the accounts had more or less.
fn crashes(alloc: Global, teller: &mut Teller) -> Result<Option<Found>, Fail> {
    let mut machine = MemMachine::new(
        alloc,
        [1024, 8192, 8192],
        1 << 12,
        1 << 18,
        Vec::new(alloc),
    )?;
    let _ = Engine::<PlainOp>::init(&mut machine, BANK);
    run(alloc, &mut machine, teller, 0);
    let mut wrong = None;
    for how in [Crash::Old, Crash::New, Crash::Fill(165)] {
        for calls in 0..80u64 {
            let (left, all) = crashed(alloc, machine, teller, calls, how);
            machine = left;
            if wrong.is_none() && all != Ok(800) {
                wrong = Some((how, calls, all));
            }
        }
    }
    Ok(wrong)
}

// Takes what the first account has.
fn lose<M: Machine>(alloc: Global, engine: &mut Engine<PlainOp>, machine: &mut M) {
    if engine.is_broken() {
        return;
    }
    let op = PlainOp::Put {
        object: 0,
        value: ByteList::new(Vec::new(alloc)),
    };
    let _ = engine.exec(machine, op);
}

fn begin<M: Machine>(engine: &mut Engine<PlainOp>, machine: &mut M) {
    if engine.is_broken() {
        return;
    }
    if let None = engine.group() {
        let _ = engine.begin(machine);
    }
}

// What the accounts have after some transfers, of which none is forced; once a group after them is given up; after more
// transfers; and once these are given up.
fn undone(alloc: Global) -> Result<[Funds; 4], Fail> {
    let mut machine = GrowMem::new(alloc)?;
    let _ = Engine::<PlainOp>::init(&mut machine, BANK);
    let mut teller = new_teller(Mode::Lazy);
    let mut engine = Engine::<PlainOp>::restart(alloc, &mut machine, TUNING)?;
    endow(alloc, &mut engine, &mut machine);
    transfers(alloc, &mut engine, &mut machine, &mut teller, 20);
    let before = funds_of(alloc, &mut engine, &mut machine);
    begin(&mut engine, &mut machine);
    lose(alloc, &mut engine, &mut machine);
    let mut engine = roll_back(alloc, &mut machine, TUNING, engine)?;
    let back = funds_of(alloc, &mut engine, &mut machine);
    transfers(alloc, &mut engine, &mut machine, &mut teller, 20);
    let moved = funds_of(alloc, &mut engine, &mut machine);
    let mut engine = reopen(alloc, &mut machine, TUNING, engine)?;
    let again = funds_of(alloc, &mut engine, &mut machine);
    drop(engine);
    Ok([before, back, moved, again])
}

#[test]
fn no_money_is_lost(rt: HostRuntime) -> Result<(), Fail> {
    for mode in [Mode::Eager, Mode::Lazy] {
        let mut teller = new_teller(mode);
        let [end, later] = sums_after(rt.alloc(), &mut teller, 50000)?;
        let Teller {
            given_up,
            full,
            failed,
            ..
        } = teller;
        assert!(rt;
            given_up > 5000 && full > 200 && failed == 0 && end == 800 && later == 800,
            "{mode:?}: given up {given_up}, full {full}, failed {failed}, sum {end}, sum after a restart {later}"
        );
    }
    Ok(())
}

#[test]
fn a_crash_at_any_call_loses_no_money(rt: HostRuntime) -> Result<(), Fail> {
    for mode in [Mode::Eager, Mode::Lazy] {
        let mut teller = new_teller(mode);
        let wrong = crashes(rt.alloc(), &mut teller)?;
        let Teller {
            done,
            full,
            failed,
            ..
        } = teller;
        assert!(rt;
            wrong.is_none() && done > 1000 && full > 2 && failed > 100,
            "{mode:?}: {done} done, {full} full logs, {failed} failed, another sum {wrong:?}"
        );
    }
    Ok(())
}

#[test]
fn what_is_not_kept_is_undone(rt: HostRuntime) -> Result<(), Fail> {
    let [before, back, moved, again] = undone(rt.alloc())?;
    assert!(rt;
        back == before && moved != before && again == before,
        "{before:?}, rolled back {back:?}, moved {moved:?}, reopened {again:?}"
    );
    Ok(())
}
