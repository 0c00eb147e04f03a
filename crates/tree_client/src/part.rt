// What is left of a scan.
ghost use Rattle.std.specs.Prelude.{◌≡◌, if◌then◌else◌};
ghost use Rattle.std.specs.Ordering.{is_lt};
ghost use Rattle.key_entries.specs.Entries.{byte_order};

use btree_ops::Branches;
use key_entries::Short;

/// Children of a node that are to be met: the first, and after it those of the branches. Of their keys those from `from` on
/// and below `to` are asked for, and their ways may have `depth` objects.
#[derive(Drop)]
pub(crate) struct Part {
    pub(crate) child: u32,
    pub(crate) branches: Branches,
    pub(crate) depth: u64,
    pub(crate) from: Short,
    pub(crate) to: Short,
}

/// Whether a key is below another.
pub(crate) fn is_below(key: Short, end: Short) -> bool
    ensures { result ≡ is_lt (byte_order key end) }
{
    key < end
}

/// The lesser of two keys.
pub(crate) fn lesser(key: Short, other: Short) -> Short
    ensures { result ≡ (if is_lt (byte_order key other) then key else other) }
{
    if key < other { key } else { other }
}

/// The greater of two keys.
pub(crate) fn greater(key: Short, other: Short) -> Short
    ensures { result ≡ (if is_lt (byte_order key other) then other else key) }
{
    if key < other { other } else { key }
}

/// A scan: the parts that are left, the next one last, and the pairs that were found.
#[derive(Drop)]
pub(crate) struct Scan {
    pub(crate) parts: Vec<Part>,
    pub(crate) pairs: Vec<(Short, Short)>,
}
