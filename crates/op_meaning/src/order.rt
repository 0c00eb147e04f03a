// Records of one width, and their order.
ghost use Rattle.std.specs.Prelude.{◌≡◌, ◌<◌, List, ℕ, IfOk, map};
ghost use Rattle.std.specs.List.{concat};
ghost use Rattle.std.specs.List.Sorted.{IsPermutation, IsSorted};
ghost use Rattle.op_meaning.specs.Order.{byte_order, in_order, records};

use oper_core::Memory;
use std::alloc::Global;

/// The records of so many bytes, in byte order, one after the other. Records that are equal keep their order.
pub(crate) fn sorted(alloc: Global, bytes: &[u8], width: usize) -> Result<Vec<u8>, Memory>
    requires { 0 < width }
    ensures { IfOk result (λ made. made.items ≡ concat (in_order (records width bytes.now))) }
{
    let mut found = cut_up(alloc, bytes, width)?;
    found.sort()?;
    join(alloc, found.as_slice())
}

// The records of so many bytes; a rest that is shorter is left out.
fn cut_up(alloc: Global, bytes: &[u8], width: usize) -> Result<Vec<&[u8]>, Memory>
    requires { 0 < width }
    ensures { IfOk result (λ found. map (λ r. r.now) found.items ≡ records width bytes.now) }
{
    let mut found = Vec::with_capacity(alloc, bytes.len() / width)?;
    let mut rest = bytes;
    while rest.len() >= width {
        let (first, more) = rest.split_at(width);
        found.push(first)?;
        rest = more;
    }
    Ok(found)
}

// The records, one after the other.
fn join(alloc: Global, found: &[&[u8]]) -> Result<Vec<u8>, Memory>
    ensures { IfOk result (λ made. made.items ≡ concat (map (λ r. r.now) found.now)) }
{
    let mut made = Vec::new(alloc);
    for one in found {
        made.extend_from_slice(one)?;
    }
    Ok(made)
}

/// Records in order are a permutation of the records, and sorted; and no other list is.
pub fn in_order_is_the_sorted_permutation()
    ensures permutation { (rs : List (List ℕ)) → IsPermutation rs (in_order rs) }
    ensures order { (rs : List (List ℕ)) → IsSorted byte_order (in_order rs) }
    ensures only { (rs others : List (List ℕ)) → IsPermutation rs others → IsSorted byte_order others → others ≡ in_order rs }
{}
