ghost use Rattle.std.specs.Prelude.{◌≡◌};
ghost use Rattle.logical_btree.specs.Walk as walks;

use key_entries::Short;

/// The child under which a key stands. A key that is equal to a separator stands to its right.
pub fn child_for(key: Short, first: u32, branches: &[(Short, u32)]) -> u32
    ensures { result ≡ walks.child_for key first branches.now }
{
    let mut child = first;
    for i in 0..branches.len() {
        if key < branches[i].0 {
            return child;
        }
        child = branches[i].1;
    }
    child
}
