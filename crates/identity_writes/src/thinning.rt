ghost use Rattle.std.specs.Prelude.{◌≡◌, ◌≤◌, ◌<◌, ◌++◌, ◌↔◌, [], ℕ, All, length, slice_index, IfOk, IfSome, IfNone, IsNone, option_to_list};
ghost use Rattle.std.specs.List.Sorted.{IsPermutation, IsStrictlyIncreasing};
ghost use Rattle.identity_writes.specs.Plan.{IsKeptBeside, IsFirstLongest, but_kept};

use crate::{ObjectList, Plan};
use oper_core::Memory;
use std::alloc::Global;

/// Of the objects that a copy of the slots does not have yet, those from a number on, keeps the one with the longest value,
/// of several such the one with the least number, and logs all others, rising. None is kept exactly where all are copied.
/// `lengths` has the length of each object's value, in the order of the objects. Where nothing is copied, the number is 0.
pub fn plan(alloc: Global, objects: &[u32], lengths: &[u32], copied: u32) -> Result<Plan, Memory>
    requires rising { IsStrictlyIncreasing objects.now }
    requires beside { length lengths.now ≡ length objects.now }
    ensures keep { IfOk result (λ plan. IfSome plan.keep (IsKeptBeside copied objects.now lengths.now)) }
    ensures none { IfOk result (λ plan. IsNone plan.keep ↔ All (λ x. x < copied) objects.now) }
    ensures others { IfOk result (λ plan. plan.log ≡ but_kept plan.keep objects.now) }
    ensures rising { IfOk result (λ plan. IsStrictlyIncreasing plan.log) }

    // What is kept and what is logged are the objects, each once.
    ensures together { IfOk result (λ plan. IsPermutation objects.now (option_to_list plan.keep ++ plan.log)) }
{
    let first = first_from(objects, copied);
    let mut others = Vec::from_slice(alloc, objects)?;
    match first_longest(&lengths[first..]) {
        Some(place) => {
            let keep = Some(others.remove(first + place));
            Ok(Plan {
                keep,
                log: ObjectList::new(others),
            })
        }
        None => Ok(Plan {
            keep: None,
            log: ObjectList::new(others),
        }),
    }
}

/// How many of the rising objects are below a number.
fn first_from(objects: &[u32], least: u32) -> usize
    requires rising { IsStrictlyIncreasing objects.now }
    ensures within { result ≤ length objects.now }
    ensures below { (k : ℕ) → k < result → slice_index objects.now k < least }
    ensures above { (k : ℕ) → result ≤ k → k < length objects.now → least ≤ slice_index objects.now k }
{
    objects.partition_point(|x| *x < least)
}

/// The first place of the greatest length; none exactly where there is no length.
fn first_longest(lengths: &[u32]) -> Option<usize>
    ensures some { IfSome result (IsFirstLongest lengths.now) }
    ensures none { IfNone result (lengths.now ≡ []) }
{
    let longest = lengths.iter().max()?;
    lengths.iter().position(|n| n == longest)
}
