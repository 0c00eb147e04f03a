// The scripts of the demo.
use oper_core::Memory;
use script_lines::demo_script;
use std::alloc::Global;
use std::test::Fail;

/// A seed and a number of steps; the length of their script, and the sum over its bytes of place, from 1 on, times byte.
type Row = (u64, u32, usize, u64);

/// From a generator that was written in another language.
const ROWS: &[Row] = &[
    (0, 0, 114, 436019),
    (0, 1, 122, 503018),
    (7, 2000, 27847, 26859267093),
    (18446744073709551615, 300, 4390, 670678480),
];

#[test]
fn scripts_are_those_of_another_generator(rt: HostRuntime) -> Result<(), Fail> {
    for row in ROWS {
        assert!(rt; is_told(rt.alloc(), row)?);
    }
    Ok(())
}

/// Whether the script of the row is as long as it says, and has its sum.
fn is_told(alloc: Global, row: &Row) -> Result<bool, Memory> {
    let (seed, steps, length, sum) = *row;
    let script = demo_script(alloc, seed, steps)?;
    Ok((script.len(), sum_of(script.as_slice())) == (length, sum))
}

fn sum_of(script: &[u8]) -> u64 {
    let mut sum = 0u64;
    let mut place = 0u64;
    for byte in script {
        place = place.wrapping_add(1);
        sum = sum.wrapping_add(place.wrapping_mul(u64::from(*byte)));
    }
    sum
}
