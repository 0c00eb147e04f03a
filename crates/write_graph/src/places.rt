ghost use Rattle.std.specs.Prelude.{ℕ, ◌<◌, ◌≤◌, ◌^◌, IsTrue, length, slice_index};
ghost use Rattle.write_graph.specs.Places.{NeverFall, IsSlotOfLsn};

/// The first slot with the LSN or a greater one.
pub(crate) fn slot_from(n: u64, lsns: &[u64]) -> u32
    requires rising { NeverFall lsns.now }
    requires small { length lsns.now ≤ 2 ^ 28 }
    ensures below { result ≤ length lsns.now }
    ensures before { (i : ℕ) → i < result → slice_index lsns.now i < n }
    ensures after { (i : ℕ) → result ≤ i → i < length lsns.now → n ≤ slice_index lsns.now i }
{
    match n.checked_sub(1) {
        None => 0,
        Some(below) => slot_after(below, lsns),
    }
}

/// The first slot whose entry has a greater LSN.
pub(crate) fn slot_after(n: u64, lsns: &[u64]) -> u32
    requires rising { NeverFall lsns.now }
    requires small { length lsns.now ≤ 2 ^ 28 }
    ensures below { result ≤ length lsns.now }
    ensures before { (i : ℕ) → i < result → slice_index lsns.now i ≤ n }
    ensures after { (i : ℕ) → result ≤ i → i < length lsns.now → n < slice_index lsns.now i }
{
    if none_is_after(n, lsns) {
        return lsns.len() as u32;
    }
    let slot = slot_without_gaps(n, lsns);
    if is_last_up_to(n, slot, lsns) {
        return slot as u32 + 1;
    }
    lsns.partition_point(|k| *k <= n) as u32
}

/// The slot that would have the LSN, if each LSN were one above that before it.
fn slot_without_gaps(n: u64, lsns: &[u64]) -> usize {
    match lsns.first() {
        None => 0,
        Some(first) => n.saturating_sub(*first) as usize,
    }
}

/// Whether the slot is the last one whose entry has no greater LSN. Where LSNs have few gaps, as those of a log, it spares a
/// search, which would look at LSNs in many places.
fn is_last_up_to(n: u64, slot: usize, lsns: &[u64]) -> bool
    requires rising { NeverFall lsns.now }
    ensures below { IsTrue result → slot < length lsns.now }
    ensures before { IsTrue result → (i : ℕ) → i ≤ slot → slice_index lsns.now i ≤ n }
    ensures after { IsTrue result → (i : ℕ) → slot < i → i < length lsns.now → n < slice_index lsns.now i }
{
    let next = slot.saturating_add(1);
    if next >= lsns.len() {
        return false;
    }
    is_between(lsns[slot], n, lsns[next])
}

/// Whether the LSN is at or above one, and below another.
fn is_between(low: u64, n: u64, high: u64) -> bool
    ensures { IsTrue result → (low ≤ n) × (n < high) }
{
    low <= n && n < high
}

/// Whether no entry has a greater LSN, which the last one tells. So it is where entries are added, and a search would
/// look at LSNs in many places.
fn none_is_after(n: u64, lsns: &[u64]) -> bool
    requires rising { NeverFall lsns.now }
    ensures { IsTrue result → (i : ℕ) → i < length lsns.now → slice_index lsns.now i ≤ n }
{
    let count = lsns.len();
    if count == 0 {
        return true;
    }
    lsns[count - 1] <= n
}

/// The last slot whose entry has the LSN.
pub(crate) fn slot_of(n: u64, lsns: &[u64]) -> u32
    requires rising { NeverFall lsns.now }
    requires small { length lsns.now ≤ 2 ^ 28 }
    ensures { IsSlotOfLsn lsns.now n result }
{
    slot_after(n, lsns).saturating_sub(1)
}
