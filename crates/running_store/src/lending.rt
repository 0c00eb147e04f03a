// Values are lent from the cache to a command, and come back.
ghost use Rattle.std.specs.Prelude.{◌≡◌, ◌≤◌, ℕ, true, [], length, map, nat_eq, IfOk, IsSome, OnErr, OnOk};
ghost use Rattle.std.specs.List.{IsDistinct};
ghost use Rattle.std.specs.Result.{result_err};
ghost use Rattle.oper_core.specs.Meaning.{FitsReads, IsInGrammar, IsSmall};
ghost use Rattle.oper_core.specs.State.{is_among, value_for};
ghost use Rattle.dirty_cache.specs.Contents.{held};
ghost use Rattle.running_store.specs.Laid.Lent.{KeepsOthers, cached_values, inputs_in};

use dirty_cache::Cache;
use oper_core::{Bounds, ByteList, Memory, Oper, Refusal, Values};
use std::alloc::Global;

/// Lends the values of these objects; each that is cached is empty until it comes back. No memory.
fn lend(alloc: Global, cache: &mut Cache, objects: &[u32]) -> Values
    requires few { length objects.now ≤ 4 }
    requires apart { IsDistinct nat_eq objects.now }
    ensures values { result ≡ map (cached_values cache.old) objects.now }
    ensures kept { KeepsOthers objects.now cache.old cache.new }
{
    let mut values = Values::new(alloc);
    for object in objects {
        let mut value = ByteList::new(Vec::new(alloc));
        cache.swap(*object, &mut value);
        values.push_list(value);
    }
    values
}

/// Takes values back, which stand side by side with these objects. No memory.
fn give_back(cache: &mut Cache, objects: &[u32], values: Values)
    requires count { length values ≡ length objects.now }
    ensures kept { KeepsOthers objects.now cache.old cache.new }
    ensures values { (x : ℕ) → is_among x objects.now ≡ true → IsSome (held cache.old x) → cached_values cache.new x ≡ value_for x objects.now values }
{
    let mut values = values;
    while let Some(value) = values.pop() {
        let mut value = value;
        cache.swap(objects[values.len()], &mut value);
    }
}

/// The answer of a command's check on the cached values, which are lent to it.
fn check_lent<O: Oper>(
    alloc: Global,
    bounds: Bounds,
    cache: &mut Cache,
    op: &O,
) -> Result<(), Refusal>
    requires small { IsSmall bounds }
    requires grammar { IsInGrammar (O.meaning bounds) op.now }
    requires fits { FitsReads (O.meaning bounds) op.now (map (cached_values cache.old) ((O.meaning bounds).reads op.now)) }
    ensures answer { result_err result ≡ (O.meaning bounds).check op.now (map (cached_values cache.old) ((O.meaning bounds).reads op.now)) }
    ensures same { KeepsOthers [] cache.old cache.new }
{
    let reads = op.reads();
    let values = lend(alloc, cache, reads.as_slice());
    let answer = op.check(bounds, &values);
    give_back(cache, reads.as_slice(), values);
    answer
}

/// What a command makes of the cached values, which are lent to it: those of objects that it does not write come back, and
/// without memory all do.
fn apply_lent<O: Oper>(
    alloc: Global,
    bounds: Bounds,
    cache: &mut Cache,
    op: O,
) -> Result<Values, Memory>
    requires small { IsSmall bounds }
    requires grammar { IsInGrammar (O.meaning bounds) op }
    requires fits { FitsReads (O.meaning bounds) op (map (cached_values cache.old) ((O.meaning bounds).reads op)) }
    ensures made { IfOk result (λ made. made ≡ (O.meaning bounds).effect op (map (cached_values cache.old) ((O.meaning bounds).reads op))) }
    ensures kept { OnOk result (KeepsOthers ((O.meaning bounds).writes op) cache.old cache.new) }
    ensures same { OnErr result (KeepsOthers [] cache.old cache.new) }
{
    let reads = op.reads();
    let mut lent = lend(alloc, cache, reads.as_slice());
    let answer = op.apply_in_place(alloc, bounds, &mut lent);
    give_back(cache, reads.as_slice(), lent);
    answer
}

/// The answer of a command's check on copies, or else on what the cache has.
pub(crate) fn check_inputs<O: Oper>(
    alloc: Global,
    bounds: Bounds,
    cache: &mut Cache,
    op: &O,
    copies: &Option<Values>,
) -> Result<(), Refusal>
    requires small { IsSmall bounds }
    requires grammar { IsInGrammar (O.meaning bounds) op.now }
    requires fits { FitsReads (O.meaning bounds) op.now (inputs_in cache.old ((O.meaning bounds).reads op.now) copies.now) }
    ensures answer { result_err result ≡ (O.meaning bounds).check op.now (inputs_in cache.old ((O.meaning bounds).reads op.now) copies.now) }
    ensures same { KeepsOthers [] cache.old cache.new }
{
    match copies {
        Some(values) => op.check(bounds, values),
        None => check_lent(alloc, bounds, cache, op),
    }
}

/// What a command makes of copies, or else of what the cache has. The values of objects that it does not write stay in the
/// cache, and without memory all do.
pub(crate) fn apply_inputs<O: Oper>(
    alloc: Global,
    bounds: Bounds,
    cache: &mut Cache,
    op: O,
    copies: Option<Values>,
) -> Result<Values, Memory>
    requires small { IsSmall bounds }
    requires grammar { IsInGrammar (O.meaning bounds) op }
    requires fits { FitsReads (O.meaning bounds) op (inputs_in cache.old ((O.meaning bounds).reads op) copies) }
    ensures made { IfOk result (λ made. made ≡ (O.meaning bounds).effect op (inputs_in cache.old ((O.meaning bounds).reads op) copies)) }
    ensures kept { OnOk result (KeepsOthers ((O.meaning bounds).writes op) cache.old cache.new) }
    ensures same { OnErr result (KeepsOthers [] cache.old cache.new) }
{
    match copies {
        Some(values) => {
            let mut values = values;
            op.apply_in_place(alloc, bounds, &mut values)
        }
        None => apply_lent(alloc, bounds, cache, op),
    }
}
