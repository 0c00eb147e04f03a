// Which objects of a node are logged by identity writes, and which one is kept.
use identity_writes::{ObjectList, plan};
use std::alloc::Global;
use std::test::Fail;

#[test]
fn the_longest_is_kept(rt: HostRuntime) -> Result<(), Fail> {
    for (objects, lengths, keep, log) in [
        ([].as_slice(), [].as_slice(), None, [].as_slice()),
        ([7].as_slice(), [0].as_slice(), Some(7), [].as_slice()),
        (
            [1, 4, 9].as_slice(),
            [2, 5, 3].as_slice(),
            Some(4),
            [1, 9].as_slice(),
        ),
        (
            [1, 4, 9].as_slice(),
            [5, 2, 5].as_slice(),
            Some(1),
            [4, 9].as_slice(),
        ),
        (
            [0, 2, 3, 4095].as_slice(),
            [0, 1, 1, 16384].as_slice(),
            Some(4095),
            [0, 2, 3].as_slice(),
        ),
    ] {
        let found = plan(rt.alloc(), objects, lengths, 0)?;
        assert_eq!(rt; found.keep, keep);
        assert_eq!(rt; found.log.as_slice(), log);
    }
    Ok(())
}

#[test]
fn one_that_is_not_copied_is_kept(rt: HostRuntime) -> Result<(), Fail> {
    for (objects, lengths, copied, keep, log) in [
        ([].as_slice(), [].as_slice(), 3, None, [].as_slice()),
        (
            [0, 1, 2].as_slice(),
            [5, 3, 3].as_slice(),
            1,
            Some(1),
            [0, 2].as_slice(),
        ),
        (
            [1, 4, 9].as_slice(),
            [9, 2, 5].as_slice(),
            2,
            Some(9),
            [1, 4].as_slice(),
        ),
        (
            [0, 1].as_slice(),
            [1, 1].as_slice(),
            2,
            None,
            [0, 1].as_slice(),
        ),
        ([3].as_slice(), [7].as_slice(), 4, None, [3].as_slice()),
    ] {
        let found = plan(rt.alloc(), objects, lengths, copied)?;
        assert_eq!(rt; found.keep, keep);
        assert_eq!(rt; found.log.as_slice(), log);
    }
    Ok(())
}

fn gives_back(alloc: Global) -> Result<bool, Fail> {
    let list = ObjectList::new([3, 1].to_vec(alloc)?);
    let read = list.as_slice() == [3, 1].as_slice();
    Ok(read && list.into_vec().as_slice() == [3, 1].as_slice())
}

#[test]
fn a_list_gives_its_objects_back(rt: HostRuntime) -> Result<(), Fail> {
    assert!(rt; gives_back(rt.alloc())?);
    Ok(())
}
