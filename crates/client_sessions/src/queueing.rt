ghost use Rattle.std.specs.Prelude.{◌≡◌, ◌+◌, ◌<◌, ◌≤◌, ◌++◌, IfNone, IfOk, IfSome, OnOk, map};
ghost use Rattle.named_words.specs.Forms.{texts};
ghost use Rattle.client_sessions.specs.Sessions;

use oper_core::Memory;
use std::alloc::Global;

// What a word and what stands before it take, where that is not too much.
fn with_word(held: usize, length: usize, most: usize) -> Option<usize>
    ensures some { IfSome result (λ sum. (sum ≡ held + (32 + length)) × (sum ≤ most)) }
    ensures none { IfNone result (most < held + (32 + length)) }
{
    if held > most || most - held < 32 || most - held - 32 < length {
        return None;
    }
    Some(held + 32 + length)
}

/// What a command and those that are queued before it take, where that is not too much.
pub(crate) fn with_command(held: usize, words: &[&[u8]], most: usize) -> Option<usize>
    ensures some { IfSome result (λ sum. (sum ≡ held + Sessions.cost (texts words.now)) × (sum ≤ most)) }
    ensures none { IfNone result (most < held + Sessions.cost (texts words.now)) }
{
    let mut sum = held;
    for word in words {
        match with_word(sum, word.len(), most) {
            Some(more) => sum = more,
            None => return None,
        }
    }
    with_word(sum, 0, most)
}

/// A text as it stands.
pub(crate) fn copied(alloc: Global, text: &[u8]) -> Result<Vec<u8>, Memory>
    ensures { IfOk result (λ copy. copy.items ≡ text.now) }
{
    Ok(Vec::from_slice(alloc, text)?)
}

/// The words of a command, kept.
pub(crate) fn kept(alloc: Global, words: &[&[u8]]) -> Result<Vec<Vec<u8>>, Memory>
    ensures { IfOk result (λ kept. map (λ word. word.items) kept.items ≡ texts words.now) }
{
    let mut kept = Vec::new(alloc);
    for word in words {
        kept.push(word.to_vec(alloc)?)?;
    }
    Ok(kept)
}

/// Names more.
pub(crate) fn append(alloc: Global, names: &mut Vec<Vec<u8>>, words: &[&[u8]]) -> Result<(), Memory>
    ensures { OnOk result (map (λ name. name.items) names.new.items ≡ map (λ name. name.items) names.old.items ++ texts words.now) }
{
    for word in words {
        names.push(word.to_vec(alloc)?)?;
    }
    Ok(())
}

/// The words of a command that was kept.
pub(crate) fn lent<'a>(alloc: Global, words: &'a [Vec<u8>]) -> Result<Vec<&'a [u8]>, Memory>
    ensures { IfOk result (λ lent. texts lent.items ≡ map (λ word. word.items) words.now) }
{
    let mut lent = Vec::with_capacity(alloc, words.len())?;
    for word in words {
        lent.push(word.as_slice())?;
    }
    Ok(lent)
}
