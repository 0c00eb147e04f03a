// Lists of numbers, and sets of them.
use number_lists::{Chains, NumberSet, NumberTree};
use oper_core::Memory;
use std::alloc::Global;
use std::test::Fail;

#[test]
fn a_number_is_poured(rt: HostRuntime) -> Result<(), Fail> {
    let first = poured(rt.alloc())?;
    assert!(rt; first == Some(0));
    Ok(())
}

/// What is first in a list into which another was poured.
fn poured(alloc: Global) -> Result<Option<u32>, Memory> {
    let mut chains = Chains::new(alloc);
    chains.make_room(2, 1)?;
    chains.add_list();
    chains.add_list();
    chains.add_item();
    chains.push(0, 0);
    chains.pour(0, 1);
    Ok(chains.pop(1))
}

#[test]
fn a_number_is_a_member(rt: HostRuntime) -> Result<(), Fail> {
    let holds = member(rt.alloc())?;
    assert!(rt; holds);
    Ok(())
}

/// Whether a number is a member once it is put in, and not before or after the set is cleared.
fn member(alloc: Global) -> Result<bool, Memory> {
    let mut set = NumberSet::new(alloc);
    set.make_room(1)?;
    set.add_number();
    let before = set.contains(0);
    set.add(0);
    let between = set.contains(0);
    set.clear();
    Ok(!before && between && !set.contains(0))
}

#[test]
fn a_number_is_next(rt: HostRuntime) -> Result<(), Fail> {
    let found = next(rt.alloc())?;
    assert!(rt; found == [None, Some(0), None]);
    Ok(())
}

/// The next member before a number is put in, while it is in, and once it is taken out.
fn next(alloc: Global) -> Result<[Option<u32>; 3], Memory> {
    let mut tree = NumberTree::new(alloc);
    tree.make_room(1)?;
    tree.add_number();
    let before = tree.next(0);
    tree.insert(0);
    let between = tree.next(0);
    tree.remove(0);
    Ok([before, between, tree.next(0)])
}
