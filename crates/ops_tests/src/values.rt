// Lists of objects and of values, and the names of the refusals.
use oper_core::{ByteList, Objs, Refusal, Values};
use std::alloc::Global;
use std::test::Fail;

fn are(objects: &Objs, wanted: &[u32]) -> bool {
    objects.as_slice() == wanted
}

#[test]
fn objects_keep_their_order(rt: HostRuntime) {
    assert!(rt; are(&Objs::new(), &[]));
    let mut objects = Objs::one(7);
    objects.push(3);
    objects.push(7);
    objects.push(5);
    assert!(rt; are(&objects, &[7, 3, 7, 5]));
}

fn keeps_bytes(alloc: Global) -> Result<bool, Fail> {
    let mut values = Values::new(alloc);
    values.push(&[0xaa, 0xbb])?;
    values.push(&[])?;
    Ok(values.get(0) == [0xaa, 0xbb].as_slice() && values.get(1).is_empty())
}

#[test]
fn values_keep_their_bytes(rt: HostRuntime) -> Result<(), Fail> {
    assert!(rt; keeps_bytes(rt.alloc())?);
    Ok(())
}

fn gives_back(alloc: Global) -> Result<bool, Fail> {
    let list = ByteList::new([1, 2].to_vec(alloc)?);
    let read = list.as_slice() == [1, 2].as_slice();
    Ok(read && list.into_vec().as_slice() == [1, 2].as_slice())
}

#[test]
fn a_byte_list_gives_its_bytes_back(rt: HostRuntime) -> Result<(), Fail> {
    assert!(rt; gives_back(rt.alloc())?);
    Ok(())
}

const NAMES: [(Refusal, &str); 12] = [
    (Refusal::NoObject, "NoObject"),
    (Refusal::Same, "Same"),
    (Refusal::BadPlace, "BadPlace"),
    (Refusal::BadWidth, "BadWidth"),
    (Refusal::NotApp, "NotApp"),
    (Refusal::NotCode, "NotCode"),
    (Refusal::Halted, "Halted"),
    (Refusal::NoInput, "NoInput"),
    (Refusal::NotNode, "NotNode"),
    (Refusal::NoKey, "NoKey"),
    (Refusal::NodeFull, "NodeFull"),
    (Refusal::TooLarge, "TooLarge"),
];

fn is_named(alloc: Global, refusal: Refusal, name: &str) -> Result<bool, Fail> {
    Ok(refusal.to_string(alloc)?.as_str() == name)
}

#[test]
fn a_refusal_is_shown_by_its_name(rt: HostRuntime) -> Result<(), Fail> {
    for (refusal, name) in NAMES {
        assert!(rt; is_named(rt.alloc(), refusal, name)?);
    }
    Ok(())
}
