//! What holds of hash files, as laws on definitions.

ghost use Rattle.std.specs.Prelude.{◌≡◌, ◌≤◌, ◌<◌, ℕ, IsTrue, None, Some, is_some, List, if◌then◌else◌};
ghost use Rattle.std.specs.FinMap.{get};
ghost use Rattle.oper_core.specs.State.{State};
ghost use Rattle.oper_core.specs.declared.bounds.Bounds.{Bounds};
ghost use Rattle.key_entries.specs.Short.{is_short};
ghost use Rattle.call_plans.specs.Plan.{goes_on};
ghost use Rattle.call_plans.specs.Laws.{AllAccepted, DependOn, FirstTooLarge, EndsWith};
ghost use Rattle.hash_ops.specs.Operation.{hash_meaning};
ghost use Rattle.hash_ops.specs.declared.hash_op.HashOp.{HashOp};
ghost use Rattle.hash_ops.specs.declared.hash_op.HashOp.TheVariants.{Put};
ghost use Rattle.hash_file.specs.File.{IsHash, content_of};
ghost use Rattle.hash_file.specs.Plan.{put_next, put_plan, delete_plan, is_there};
ghost use Rattle.hash_file.specs.Laws.{IsRange, IsFull, GrowthKeeps, PutActs, DeleteActs, GetTells};
ghost use Rattle.hash_file.specs.declared.refusal.HashRefusal.{HashRefusal};
ghost use Rattle.hash_file.specs.declared.refusal.HashRefusal.TheVariants.{NoKey};

/// On a hash file the calls act on the map of all its pairs: a get reports what the map has, a put and a delete change the map
/// by their last command alone, or leave it as it was.
pub fn a_hash_file_is_a_map()
    ensures get { (b : Bounds) (lo hi : ℕ) (s : State) (key : List ℕ) → IsTrue (is_there b lo hi) → IsHash lo hi s → GetTells b lo hi s key }
    ensures put { (b : Bounds) (lo hi : ℕ) (s : State) (key value : List ℕ) → IsRange b lo hi → IsTrue (is_short key) → IsTrue (is_short value)
        → IsHash lo hi s → PutActs b lo hi s key value }
    ensures delete { (b : Bounds) (lo hi : ℕ) (s : State) (key : List ℕ) → IsRange b lo hi → IsHash lo hi s → DeleteActs b lo hi s key }
{}

/// The beginning of a file and each split that a put makes leave a hash file with the same pairs, and fewer objects free.
pub fn growth_keeps_the_file()
    ensures { (b : Bounds) (lo hi : ℕ) (s : State) (key value : List ℕ) (op : HashOp) → IsRange b lo hi → IsHash lo hi s
        → put_next b lo hi key value s ≡ goes_on op → GrowthKeeps b lo hi s op }
{}

/// On every state, whether the range is a hash file or not, the commands of a call are accepted one after the other where a
/// value holds 1,024 bytes; where it holds fewer, the first of them is refused as too large.
pub fn commands_are_accepted()
    ensures put { (b : Bounds) (lo hi : ℕ) (s : State) (key value : List ℕ) → IsTrue (is_short key) → IsTrue (is_short value)
        → 1024 ≤ b.cap → AllAccepted (hash_meaning b) s (put_plan b lo hi s key value).commands }
    ensures delete { (b : Bounds) (lo hi : ℕ) (s : State) (key : List ℕ) → IsTrue (is_short key)
        → 1024 ≤ b.cap → AllAccepted (hash_meaning b) s (delete_plan b lo hi s key).commands }
    ensures put_too_large { (b : Bounds) (lo hi : ℕ) (s : State) (key value : List ℕ) → IsTrue (is_short key) → IsTrue (is_short value)
        → b.cap < 1024 → FirstTooLarge (hash_meaning b) s (put_plan b lo hi s key value).commands }
    ensures delete_too_large { (b : Bounds) (lo hi : ℕ) (s : State) (key : List ℕ) → IsTrue (is_short key)
        → b.cap < 1024 → FirstTooLarge (hash_meaning b) s (delete_plan b lo hi s key).commands }
{}

/// On every state a put that is not refused ends with its put: each split before it makes the key's bucket deeper.
pub fn a_put_ends_with_its_put()
    ensures { (b : Bounds) (lo hi : ℕ) (s : State) (key value : List ℕ) → IsRange b lo hi
        → EndsWith (λ op. (x : ℕ) × (op ≡ Put x key value)) (put_plan b lo hi s key value) }
{}

/// On a hash file a put is refused for lack of room alone, and a delete exactly where the map lacks the key.
pub fn a_hash_file_refuses_by_cause()
    ensures put { (b : Bounds) (lo hi : ℕ) (s : State) (key value : List ℕ) (r : HashRefusal) → IsRange b lo hi → IsHash lo hi s
        → (put_plan b lo hi s key value).refusal ≡ Some r → IsFull r }
    ensures delete { (b : Bounds) (lo hi : ℕ) (s : State) (key : List ℕ) → IsTrue (is_there b lo hi) → IsHash lo hi s
        → (delete_plan b lo hi s key).refusal ≡ (if is_some (get (content_of lo s) key) then None else Some NoKey) }
{}

/// Whether a range is a hash file, and what it holds, depends on its own objects alone.
pub fn a_hash_file_depends_on_its_range()
    ensures { (lo hi : ℕ) → lo ≤ hi → DependOn lo hi (IsHash lo hi) (content_of lo) }
{}
