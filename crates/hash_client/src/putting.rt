// A pair is put.
ghost use Rattle.std.specs.Prelude.{◌≡◌, ◌<◌, List, [], None, suc, map, refl};
ghost use Rattle.std.specs.Result.{result_err};
ghost use Rattle.formats.specs.Objects.{bounds_of};
ghost use Rattle.formats.specs.declared.params.Params.{Params};
ghost use Rattle.op_codec.specs.AllOps.{hash};
ghost use Rattle.running_store.specs.Taking.Ending.{Done};
ghost use Rattle.store_engine.specs.Lists.{ending_of};
ghost use Rattle.store_calls.specs.Making.{Calls};
ghost use Rattle.hash_ops.specs.Operation.{hash_meaning};
ghost use Rattle.hash_file.specs.Find as finding;
ghost use Rattle.hash_file.specs.Plan.{put_next, put_on, put_plan};
ghost use Rattle.range_calls.specs.Answers.{cause_in, made_of, refused_in};
ghost use Rattle.range_calls.specs.Free.{free_between};
ghost use Rattle.range_calls.specs.Store.{Command, state_of};
ghost use Rattle.range_calls.specs.Turns.{turn_answer};
ghost use Rattle.hash_client.specs.Finding.{free_answer};

use crate::finding::{Found, HashErr, find_bucket};
use disk_model::Machine;
use hash_file::{HashFile, HashRefusal, commands_are_accepted, has_room};
use hash_ops::{HashOp, MOST_DEPTH};
use key_entries::Short;
use op_codec::{AllOps, hash_op};
use range_calls::{CallErr, Turn, Turns, least_free, reads_go_on, take_turns};
use store_calls::Store;

/// At most so many commands: six splits, each of which makes the key's bucket deeper, and the put.
const MOST_COMMANDS: u64 = 7;

/// A pair that is put.
#[derive(Drop)]
struct NewPair<'a> {
    file: &'a HashFile,
    key: Short,
    value: Short,
}

impl<'a, S: Store<AllOps>> Turns<S> for NewPair<'a> {
    type Op = HashOp;

    type Refusal = HashRefusal;

    ghost kind = { hash };

    ghost meaning = { hash_meaning };

    ghost next = { λ pair b s. put_next b pair.file.now.lo pair.file.now.hi pair.key pair.value s };

    ghost is_there = { λ pair p. pair.file.now.hi < p.objects };

    fn commands_are_due(&self) {
        commands_are_accepted();
        let _last = self.file.last();
        let _key = self.key.as_slice();
        let _value = self.value.as_slice();
    }

    fn next_turn<M: Machine>(&self, store: &mut S, machine: &mut M) -> Result<Turn, HashErr> {
        reads_go_on::<S, M>();
        let met = find_bucket(self.file, store, machine, self.key)?;
        match met {
            Some(found) => put_turn(self, store, machine, found),
            None => begin_turn(self.file, store, machine),
        }
    }

    ghost means = { λ b s op. refl };
}

/// The least free object of the range behind the directory.
fn free_object<S: Store<AllOps>, M: Machine>(
    file: &HashFile,
    store: &S,
    machine: &M,
) -> Result<u32, HashErr>
    ensures found { cause_in result ≡ None }
    ensures answer { (p : Params) (commands : List Command) → S.view.holds p (M.disk machine.now) store.now commands → file.now.hi < p.objects →
        result ≡ free_answer (free_between (state_of p commands) (suc file.now.lo) file.now.hi) }
{
    let last = file.last();
    match least_free(store, machine, file.directory() + 1, last) {
        Some(object) => Ok(object),
        None => Err(CallErr::Refused(HashRefusal::NoRoom { free: 0 })),
    }
}

/// The beginning of a file.
fn begin_turn<S: Store<AllOps>, M: Machine>(
    file: &HashFile,
    store: &S,
    machine: &M,
) -> Result<Turn, HashErr>
    ensures found { cause_in result ≡ None }
    ensures answer { (p : Params) (commands : List Command) → S.view.holds p (M.disk machine.now) store.now commands → file.now.hi < p.objects →
        result ≡ turn_answer hash (put_on file.now.lo [] [] (free_between (state_of p commands) (suc file.now.lo) file.now.hi) finding.unused) }
{
    let bucket = free_object(file, store, machine)?;
    let op = hash_op(HashOp::Init {
        directory: file.directory(),
        bucket,
    });
    Ok(Turn { op, last: false })
}

/// The put where the key's bucket has room for it, or else a split of the bucket.
fn put_turn<S: Store<AllOps>, M: Machine>(
    pair: &NewPair,
    store: &S,
    machine: &M,
    found: Found,
) -> Result<Turn, HashErr>
    ensures found { cause_in result ≡ None }
    ensures answer { (p : Params) (commands : List Command) → S.view.holds p (M.disk machine.now) store.now commands → pair.now.file.now.hi < p.objects →
        result ≡ turn_answer hash (put_on pair.now.file.now.lo pair.now.key pair.now.value (free_between (state_of p commands) (suc pair.now.file.now.lo) pair.now.file.now.hi)
        (finding.found found.object found.bucket)) }
{
    let Found { object, bucket } = found;
    if has_room(&bucket, pair.key) {
        let put = hash_op(HashOp::Put {
            bucket: object,
            key: pair.key,
            value: pair.value,
        });
        return Ok(Turn {
            op: put,
            last: true,
        });
    }
    if bucket.depth == MOST_DEPTH {
        return Err(CallErr::Refused(HashRefusal::HashFull { object }));
    }
    let new = free_object(pair.file, store, machine)?;
    let op = hash_op(HashOp::Split {
        directory: pair.file.directory(),
        bucket: object,
        new,
    });
    Ok(Turn { op, last: false })
}

/// Puts a pair, or gives a key that is there the new value.
///
/// A range that is not begun begins with its least free object behind the first as its one bucket. Where the key is absent
/// and its bucket full, the bucket is split with the least free object, and the put begins again. It is refused as `NoObject`
/// exactly where the range ends past the last object, as `BadHash` exactly where the first object is neither empty nor a
/// directory, or the one that the key's entry names is no bucket of the range; the one met first is reported. It is refused
/// as `HashFull` exactly where the full bucket is as deep as can be, and as `NoRoom` exactly where an object is needed and
/// none is free. `Exec` has what the store answered to a fetch or to a command: `Refused(TooLarge)` exactly where a value
/// may hold fewer than 1,024 bytes and a command is due, and nothing else is refused. The splits made before stay.
pub fn put<S: Store<AllOps>, M: Machine>(
    file: &HashFile,
    store: &mut S,
    machine: &mut M,
    key: &Short,
    value: &Short,
) -> Result<(), HashErr>
    requires unbroken { S.view.unbroken store.old }
    ensures calls { Calls S.view (M.disk machine.old) (M.disk machine.new) store.old store.new (cause_in result) }
    ensures adds { (p : Params) (commands : List Command) → S.view.holds p (M.disk machine.old) store.old commands →
        S.view.adds p (M.disk machine.old) (M.disk machine.new) store.old store.new commands
        (made_of p.cap (map hash (put_plan (bounds_of p) file.now.lo file.now.hi (state_of p commands) key.now value.now).commands)) (ending_of (cause_in result)) }
    ensures answer { (p : Params) (commands : List Command) → S.view.holds p (M.disk machine.old) store.old commands → ending_of (cause_in result) ≡ Done →
        result_err result ≡ refused_in p.cap (put_plan (bounds_of p) file.now.lo file.now.hi (state_of p commands) key.now value.now) }
{
    store.nothing_is_made(machine);
    if file.last() >= store.params().objects {
        return Err(CallErr::Refused(HashRefusal::NoObject));
    }
    let pair = NewPair {
        file,
        key: *key,
        value: *value,
    };
    take_turns(&pair, store, machine, MOST_COMMANDS)
}
