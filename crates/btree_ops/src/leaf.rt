//! What is done to a leaf in its bytes, of which no node is made.

ghost use Rattle.std.specs.Prelude.{◌≡◌, ◌≤◌, ◌∷◌, ◌==◌, if◌then◌else◌, [], suc, ℕ, List, None, IfErr, IfNone, IfOk, IfSome, length};
ghost use Rattle.std.specs.Result.{result_err};
ghost use Rattle.key_entries.specs.Entries.{short_field, entry_code};
ghost use Rattle.key_entries.specs.Objects.{values_of};
ghost use Rattle.key_entries.specs.Spots.{pairs_in};
ghost use Rattle.btree_ops.specs.Node.{node_in};
ghost use Rattle.btree_ops.specs.Head.{leaf_with_pair};
ghost use Rattle.btree_ops.specs.Effects as effects;
ghost use Rattle.btree_ops.specs.Effects.{put_made, delete_made};
ghost use Rattle.btree_ops.specs.Operation.{bytes_of};

use crate::node::LEAF;
use crate::reading::{LeafHead, leaf_head};
use key_entries::{EntryField, MOST_ENTRIES, Short, Spot, spot_of};
use oper_core::{Memory, Refusal};
use std::alloc::Global;

/// A leaf whose pair of a key is to be changed, and how many pairs it has then.
#[derive(Clone, Copy)]
struct Change<'a> {
    pairs: &'a [u8],
    spot: Spot,
    count: usize,
}

/// Why a pair can't be put into the leaf that a value is, whatever stands beside its key.
pub(crate) fn may_put(value: &[u8], key: Short) -> Result<(), Refusal>
    ensures { (new : List ℕ) → result_err result ≡ result_err (put_made key new (effects.pairs_to_fill value.now)) }
{
    let _change = put_into(value, key)?;
    Ok(())
}

/// The bytes of the leaf that a value is once a pair is put into it. They are none where it can't be.
pub(crate) fn put(alloc: Global, value: &[u8], key: Short, new: Short) -> Result<Vec<u8>, Memory>
    ensures { (x : ℕ) → IfOk result (λ out. out.items ∷ [] ≡ values_of bytes_of (x ∷ []) (put_made key new (effects.pairs_to_fill value.now))) }
{
    match put_into(value, key) {
        Ok(change) => {
            let out = with_pair(alloc, &change, key, new)?;
            Ok(out)
        }
        Err(_) => Ok(Vec::new(alloc)),
    }
}

/// Why a key can't be deleted from the leaf that a value is.
pub(crate) fn may_delete(value: &[u8], key: Short) -> Result<(), Refusal>
    ensures { result_err result ≡ result_err (delete_made key (effects.pairs_of (node_in value.now))) }
{
    let _change = delete_from(value, key)?;
    Ok(())
}

/// The bytes of the leaf that a value is once a key and its value are gone. They are none where the key isn't there.
pub(crate) fn delete(alloc: Global, value: &[u8], key: Short) -> Result<Vec<u8>, Memory>
    ensures { (x : ℕ) → IfOk result (λ out. out.items ∷ [] ≡ values_of bytes_of (x ∷ []) (delete_made key (effects.pairs_of (node_in value.now)))) }
{
    match delete_from(value, key) {
        Ok(change) => {
            let out = without_pair(alloc, &change)?;
            Ok(out)
        }
        Err(_) => Ok(Vec::new(alloc)),
    }
}

/// The change that puts a pair into the leaf that a value is. The empty value counts as a leaf without pairs.
fn put_into(value: &[u8], key: Short) -> Result<Change, Refusal>
    ensures refusal { (new : List ℕ) → result_err result ≡ result_err (put_made key new (effects.pairs_to_fill value.now)) }
    ensures refused { IfErr result (λ _. (x : ℕ) (new : List ℕ) → values_of bytes_of (x ∷ []) (put_made key new (effects.pairs_to_fill value.now)) ≡ [] ∷ []) }
    ensures made { IfOk result (λ change. (x : ℕ) (new : List ℕ) → values_of bytes_of (x ∷ []) (put_made key new (effects.pairs_to_fill value.now))
        ≡ leaf_with_pair change.count change.pairs.now change.spot (entry_code short_field (key, new)) ∷ []) }
    ensures within { IfOk result (λ change. (change.count ≤ 7) × (change.spot.start ≤ change.spot.end) × (change.spot.end ≤ length change.pairs.now)) }
{
    let Some(head) = head_to_fill(value) else {
        return Err(Refusal::NotNode);
    };
    let Some(spot) = spot_of(key, head.count, head.pairs) else {
        return Err(Refusal::NotNode);
    };
    let count = count_after(head.count, spot);
    if count > MOST_ENTRIES {
        return Err(Refusal::NodeFull);
    }
    Ok(Change {
        pairs: head.pairs,
        spot,
        count,
    })
}

/// How many pairs there are once one is put into its spot.
fn count_after(count: usize, spot: Spot) -> usize
    requires { count ≤ 7 }
    ensures { result ≡ (if spot.start == spot.end then suc count else count) }
{
    if spot.start == spot.end {
        count + 1
    } else {
        count
    }
}

/// The change that deletes a key and its value from the leaf that a value is.
fn delete_from(value: &[u8], key: Short) -> Result<Change, Refusal>
    ensures refusal { result_err result ≡ result_err (delete_made key (effects.pairs_of (node_in value.now))) }
    ensures refused { IfErr result (λ _. (x : ℕ) → values_of bytes_of (x ∷ []) (delete_made key (effects.pairs_of (node_in value.now))) ≡ [] ∷ []) }
    ensures made { IfOk result (λ change. (x : ℕ) → values_of bytes_of (x ∷ []) (delete_made key (effects.pairs_of (node_in value.now)))
        ≡ leaf_with_pair change.count change.pairs.now change.spot [] ∷ []) }
    ensures within { IfOk result (λ change. (change.count ≤ 7) × (change.spot.start ≤ change.spot.end) × (change.spot.end ≤ length change.pairs.now)) }
{
    let Some(head) = leaf_head(value) else {
        return Err(Refusal::NotNode);
    };
    let Some(spot) = spot_of(key, head.count, head.pairs) else {
        return Err(Refusal::NotNode);
    };
    if spot.start == spot.end {
        return Err(Refusal::NoKey);
    }
    Ok(Change {
        pairs: head.pairs,
        spot,
        count: head.count - 1,
    })
}

/// The head of the leaf that a value is, also of the empty value, which has no pairs.
fn head_to_fill(value: &[u8]) -> Option<LeafHead>
    ensures some { IfSome result (λ head. effects.pairs_to_fill value.now ≡ pairs_in head.count head.pairs.now) }
    ensures few { IfSome result (λ head. head.count ≤ 7) }
    ensures none { IfNone result (effects.pairs_to_fill value.now ≡ None) }
{
    if value.is_empty() {
        return Some(LeafHead {
            count: 0,
            pairs: value,
        });
    }
    let head = leaf_head(value)?;
    Some(head)
}

/// The bytes of a leaf with a pair in the spot.
fn with_pair(alloc: Global, change: &Change, key: Short, new: Short) -> Result<Vec<u8>, Memory>
    requires few { change.now.count ≤ 7 }
    requires order { change.now.spot.start ≤ change.now.spot.end }
    requires within { change.now.spot.end ≤ length change.now.pairs.now }
    ensures { IfOk result (λ out. out.items ≡ leaf_with_pair change.now.count change.now.pairs.now change.now.spot (entry_code short_field (key, new))) }
{
    let before = &change.pairs[..change.spot.start];
    let behind = &change.pairs[change.spot.end..];
    let mut out = Vec::new(alloc);
    out.reserve(2 + before.len() + key.code_len() + new.code_len() + behind.len())?;
    out.push(LEAF)?;
    out.push(change.count as u8)?;
    out.extend_from_slice(before)?;
    key.write(&mut out)?;
    new.write(&mut out)?;
    out.extend_from_slice(behind)?;
    Ok(out)
}

/// The bytes of a leaf with nothing in the spot.
fn without_pair(alloc: Global, change: &Change) -> Result<Vec<u8>, Memory>
    requires few { change.now.count ≤ 7 }
    requires order { change.now.spot.start ≤ change.now.spot.end }
    requires within { change.now.spot.end ≤ length change.now.pairs.now }
    ensures { IfOk result (λ out. out.items ≡ leaf_with_pair change.now.count change.now.pairs.now change.now.spot []) }
{
    let before = &change.pairs[..change.spot.start];
    let behind = &change.pairs[change.spot.end..];
    let mut out = Vec::new(alloc);
    out.reserve(2 + before.len() + behind.len())?;
    out.push(LEAF)?;
    out.push(change.count as u8)?;
    out.extend_from_slice(before)?;
    out.extend_from_slice(behind)?;
    Ok(out)
}
