// The small operation type of the worked runs.
use explain_core::ByteOp;
use oper_core::{Bounds, Memory, Oper, Values};
use std::alloc::Global;
use std::test::Fail;

const BOUNDS: Bounds = Bounds {
    objects: 2,
    cap: 1,
    more: false,
};

/// Bytes, and how many of them are the code of an operation of the grammar.
const CODES: [([u8; 3], usize); 6] = [
    ([0, 1, 0xbb], 3),
    ([1, 0, 1], 3),
    ([0, 2, 0xbb], 0),
    ([1, 1, 1], 0),
    ([1, 0, 2], 0),
    ([2, 0, 1], 0),
];

/// How many bytes the code has that these bytes begin with.
fn length_taken(alloc: Global, bytes: &[u8]) -> usize {
    match ByteOp::decode(alloc, BOUNDS, bytes) {
        Ok(Some((_, length))) => length,
        Ok(None) | Err(_) => 0,
    }
}

/// Whether a put and a swap have the codes that they should.
fn are_encoded(alloc: Global) -> Result<bool, Memory> {
    let put = ByteOp::Put {
        object: 1,
        byte: 0xbb,
    };
    let mut log = Vec::new(alloc);
    put.encode(&mut log)?;
    ByteOp::Swap { left: 0, right: 1 }.encode(&mut log)?;
    Ok(log.as_slice() == [0, 1, 0xbb, 1, 0, 1].as_slice())
}

/// Whether a swap turns two values round.
fn are_swapped(alloc: Global) -> Result<bool, Memory> {
    let mut values = Values::new(alloc);
    values.push(&[0xaa])?;
    values.push(&[0xbb])?;
    let made = ByteOp::Swap { left: 0, right: 1 }.apply(alloc, BOUNDS, &values)?;
    Ok(made.get(0) == [0xbb].as_slice() && made.get(1) == [0xaa].as_slice())
}

#[test]
fn operations_are_encoded(rt: HostRuntime) -> Result<(), Fail> {
    assert!(rt; are_encoded(rt.alloc())?);
    Ok(())
}

#[test]
fn the_grammar_is_decoded(rt: HostRuntime) {
    let alloc = rt.alloc();
    let holds = CODES
        .iter()
        .all(|(bytes, length)| length_taken(alloc, bytes) == *length);
    assert!(rt; holds);
}

#[test]
fn values_are_swapped(rt: HostRuntime) -> Result<(), Fail> {
    assert!(rt; are_swapped(rt.alloc())?);
    Ok(())
}
