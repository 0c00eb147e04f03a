// Each command on values of its own: its code, its first refusal, and what it makes.
ghost use Rattle.std.specs.Prelude.{◌≡◌, ◌≤◌, All, IfOk, length};

use crate::rows::{APPLICATIONS, ECHO, NODES, OBJECTS, PROGRAMS, Row, VALUES};
use app_program::ProgramOp;
use op_codec::AllOps;
use oper_core::{Bounds, Oper, Refusal, Values};
use std::alloc::Global;
use std::test::Fail;

// The command that the code is of, where another byte follows it.
fn decoded<O: Oper>(alloc: Global, b: Bounds, code: &[u8]) -> Result<O, Fail> {
    let mut bytes = code.to_vec(alloc)?;
    bytes.push(0xff)?;
    let (op, length): (O, usize) = O::decode(alloc, b, bytes.as_slice())?.ok_or("no code")?;
    if length == code.len() {
        Ok(op)
    } else {
        Err(Fail::new("another length"))
    }
}

// The code of a command of the grammar.
fn encoded<O: Oper>(alloc: Global, b: Bounds, op: &O) -> Result<Vec<u8>, Fail> {
    let mut out = Vec::new(alloc);
    if op.shape(b).is_err() {
        return Err(Fail::new("refused"));
    }
    op.encode(&mut out)?;
    Ok(out)
}

// A value for each of the objects, none longer than the cap.
fn values(alloc: Global, cap: u32, objects: &[u32], read: &[&[u8]]) -> Result<Values, Fail>
    requires { length objects.now ≤ 4 }
    ensures count { IfOk result (λ values. length values ≡ length objects.now) }
    ensures short { IfOk result (λ values. All (λ v. length v ≤ cap) values) }
{
    let mut values = Values::new(alloc);
    for i in 0..objects.len() {
        let value = read.get(i).ok_or("a value is missing")?;
        if value.len() > cap as usize {
            return Err(Fail::new("a value is too long"));
        }
        values.push(value)?;
    }
    Ok(values)
}

// The first refusal on these values, and the values that the command makes of them, by copies and in place.
fn outcome<O: Oper>(
    alloc: Global,
    b: Bounds,
    op: O,
    read: &[&[u8]],
) -> Result<(Result<(), Refusal>, Values, Values), Fail> {
    let objects = op.reads();
    let mut values = values(alloc, b.cap, objects.as_slice(), read)?;
    let refused = op.check(b, &values);
    let made = op.apply(alloc, b, &values)?;
    let changed = op.apply_in_place(alloc, b, &mut values)?;
    Ok((refused, made, changed))
}

fn are(values: &Values, want: &[&[u8]]) -> bool {
    if values.len() != want.len() {
        return false;
    }
    let mut good = true;
    for i in 0..want.len() {
        good = good && values.get(i) == want[i];
    }
    good
}

// The code is read and written again, and the command does what the row says, in a store that admits all families.
fn is_as_worked(alloc: Global, row: &Row) -> Result<bool, Fail> {
    let (code, cap, read, want, new) = *row;
    let b = Bounds {
        objects: OBJECTS,
        cap,
        more: true,
    };
    let op: AllOps = decoded(alloc, b, code)?;
    let again = encoded(alloc, b, &op)?;
    let length = op.code_length() == code.len() as u64;
    let (refused, made, changed) = outcome(alloc, b, op, read)?;
    let good = (again.as_slice() == code) & length & (refused == want);
    Ok(good & are(&made, new) & are(&changed, new))
}

/// The place of the first row that is not as it says; none where all are.
pub fn first_wrong(alloc: Global, rows: &[Row]) -> Result<Option<usize>, Fail> {
    for (i, row) in rows.iter().enumerate() {
        if !is_as_worked(alloc, row)? {
            return Ok(Some(i));
        }
    }
    Ok(None)
}

// The value that a command makes, if nothing refuses it.
fn made_by(alloc: Global, op: ProgramOp, read: &[&[u8]]) -> Result<Option<Vec<u8>>, Fail> {
    let b = Bounds {
        objects: OBJECTS,
        cap: 1024,
        more: false,
    };
    let (refused, made, _) = outcome(alloc, b, op, read)?;
    if refused.is_err() || made.len() == 0 {
        return Ok(None);
    }
    Ok(Some(made.get(0).to_vec(alloc)?))
}

// How many steps of the program are accepted from a state, at most so many, and the state after them.
fn steps(alloc: Global, state: Vec<u8>, code: &[u8], most: u64) -> Result<(u64, Vec<u8>), Fail> {
    let mut state = state;
    for done in 0..most {
        let op = ProgramOp::Step { app: 0, program: 1 };
        let Some(next) = made_by(alloc, op, &[state.as_slice(), code])? else {
            return Ok((done, state));
        };
        state = next;
    }
    Ok((most, state))
}

// Whether a program copies two bytes, where a run of at most so many steps does the first of these numbers, and a second run
// the other.
fn copies(alloc: Global, first: u64, want: [u64; 2]) -> Result<bool, Fail> {
    let feed = ProgramOp::Feed { app: 0, from: 2 };
    let fed = made_by(alloc, feed, &[b"", b"\x0a\x0b"])?.ok_or("not fed")?;
    let (begun, state) = steps(alloc, fed, ECHO, first)?;
    let (more, state) = steps(alloc, state, ECHO, 9)?;
    let drain = ProgramOp::Drain { app: 0, to: 3 };
    let output = made_by(alloc, drain, &[state.as_slice()])?.ok_or("not drained")?;
    Ok(([begun, more] == want) & (output.as_slice() == b"\x0a\x0b".as_slice()))
}

#[test]
fn values_go_from_object_to_object(rt: HostRuntime) -> Result<(), Fail> {
    assert_eq!(rt; first_wrong(rt.alloc(), VALUES)?, None);
    Ok(())
}

#[test]
fn applications_take_steps(rt: HostRuntime) -> Result<(), Fail> {
    assert_eq!(rt; first_wrong(rt.alloc(), APPLICATIONS)?, None);
    Ok(())
}

#[test]
fn programs_take_steps(rt: HostRuntime) -> Result<(), Fail> {
    assert_eq!(rt; first_wrong(rt.alloc(), PROGRAMS)?, None);
    Ok(())
}

#[test]
fn a_run_goes_on_where_it_ended(rt: HostRuntime) -> Result<(), Fail> {
    for (first, want) in [(0, [0, 6]), (2, [2, 4]), (9, [6, 0])] {
        assert!(rt; copies(rt.alloc(), first, want)?);
    }
    Ok(())
}

#[test]
fn nodes_change_and_split(rt: HostRuntime) -> Result<(), Fail> {
    assert_eq!(rt; first_wrong(rt.alloc(), NODES)?, None);
    Ok(())
}
