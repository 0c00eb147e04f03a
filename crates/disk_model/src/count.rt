// Counts that never fall, and the numbers of calls that fail.
ghost use Rattle.std.specs.Prelude.{◌≡◌, ◌↔◌, ◌+◌, ◌-◌, ◌^◌, ◌≤◌, min, Contains, IsTrue, IsErr, OnOk, OnErr};
ghost use Rattle.disk_model.specs.Disk.{Rises};

use crate::Failed;

/// Counts one more. A count at its last value stays.
pub fn increment(count: &mut u64)
    ensures value { count.new ≡ min (count.old + 1) (2 ^ 64 - 1) }
    ensures no_lower { count.old ≤ count.new }
{
    *count = count.saturating_add(1);
}

pub fn is_among(numbers: &[u64], number: u64) -> bool
    ensures { IsTrue result ↔ Contains numbers.now number }
{
    numbers.contains(&number)
}

/// Counts one call, and its fault where it fails.
pub fn count_call(calls: &mut u64, faults: &mut u64, fails: bool) -> Result<(), Failed>
    ensures fails { IsErr result ↔ IsTrue fails }
    ensures calls { calls.new ≡ min (calls.old + 1) (2 ^ 64 - 1) }
    ensures ok { OnOk result (faults.new ≡ faults.old) }
    ensures err { OnErr result (faults.new ≡ min (faults.old + 1) (2 ^ 64 - 1)) }
    ensures no_lower { faults.old ≤ faults.new }
{
    increment(calls);
    if fails {
        increment(faults);
        return Err(Failed);
    }
    Ok(())
}

/// An answer, with an error counted.
pub fn counted<T: Drop, E: Drop>(faults: &mut u64, answer: Result<T, E>) -> Result<T, Failed>
    ensures value { (value : T) → result ≡ Ok value → answer ≡ Ok value }
    ensures fails { IsErr result ↔ IsErr answer }
    ensures ok { OnOk result (faults.new ≡ faults.old) }
    ensures err { OnErr result (faults.new ≡ min (faults.old + 1) (2 ^ 64 - 1)) }
    ensures cause { IsErr result → Rises faults.old faults.new }
    ensures later { faults.old ≤ faults.new }
{
    match answer {
        Ok(value) => Ok(value),
        Err(_) => {
            increment(faults);
            Err(Failed)
        }
    }
}
