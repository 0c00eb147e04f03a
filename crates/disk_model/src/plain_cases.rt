// What the definitions say, in the plainest cases.
ghost use Rattle.std.specs.Prelude.{◌≡◌, ◌↔◌, ◌⊎◌, ◌≤◌, ◌+◌, ◌++◌, ℕ, List, [], length, take, drop};
ghost use Rattle.disk_model.specs.Disk.{Files, Torn};
ghost use Rattle.disk_model.specs.Calls.{IsImage};
ghost use Rattle.disk_model.specs.Unsynced.{IsUnsynced, IsFilled};
ghost use Rattle.disk_model.specs.declared.machine.FileNo.{FileNo};
ghost use Rattle.disk_model.specs.Recorded.{calls_of};
ghost use Rattle.disk_model.specs.Store.{state_of};
ghost use Rattle.disk_model.specs.Memory.{disk_of, store_of};
ghost use Rattle.disk_model.specs.declared.mem_machine.MemMachine.{MemMachine};

/// A crash now leaves of a machine in memory what the disk model gives for its calls, and nothing else.
pub fn memory_leaves_exactly()
    ensures { (m : MemMachine) (c : Files) (s : List ℕ) →
        (disk_of m).left_since (disk_of m).clock c s ↔ (IsImage (state_of (store_of m)) c × (s ≡ (disk_of m).said)) }
{}

/// A crash that fills with a byte puts it at each offset of a file that no sync has reached, and leaves the others.
pub fn fill_leaves_exactly()
    ensures { (m : MemMachine) (byte : ℕ) (file : FileNo) → let st = state_of (store_of m) in
        IsFilled byte (λ i. IsUnsynced file i (calls_of (store_of m).history) ⊎ (length (st.synced file) ≤ i)) (st.reads file) (st.filled byte file) }
{}

/// A write into an empty file that was not synced leaves any bytes up to its end, and nothing else.
pub fn write_on_empty_leaves_exactly()
    ensures { (at n : ℕ) (left : List ℕ) → Torn at n [] left ↔ (length left ≤ at + n) }
{}

/// A write within a file that was not synced leaves any bytes in its range, and nothing else.
pub fn write_within_leaves_exactly()
    ensures { (at n : ℕ) (old left : List ℕ) → at + n ≤ length old →
        (Torn at n old left ↔ ((bytes : List ℕ) × (length bytes ≡ n) × (left ≡ take at old ++ bytes ++ drop (at + n) old))) }
{}
