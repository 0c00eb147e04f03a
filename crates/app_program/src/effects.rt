// What the operations make of values, and when they are refused.
ghost use Rattle.std.specs.Prelude.{◌≡◌, ◌+◌, ◌≤◌, [], ◌∷◌, IfOk, length};
ghost use Rattle.std.specs.Result.{result_err};
ghost use Rattle.op_rows.specs.Rows.{if_applicable, listed_number};
ghost use Rattle.app_program.specs.State.{fed, machine_of, state_code, with_more};
ghost use Rattle.app_program.specs.Table.{feed_check, state_check, step_check, stepped};

use crate::{MachineState, Program};
use oper_core::{Bounds, ByteList, Memory, Refusal, Values};
use std::alloc::Global;

// One value, moved.
fn one(alloc: Global, value: Vec<u8>) -> Values
    ensures { result ≡ value.items ∷ [] }
{
    let mut made = Values::new(alloc);
    made.push_list(ByteList::new(value));
    made
}

// The state after a step of the program, but for the byte that joins its output, if one does.
fn next_state<'a>(
    b: Bounds,
    value: &'a [u8],
    code: &[u8],
) -> Result<(MachineState<'a>, Option<u8>), Refusal>
    requires value { length value.now ≤ b.cap }
    requires code { length code.now ≤ b.cap }
    ensures refusal { result_err result ≡ step_check b value.now code.now }
    ensures machine { IfOk result (λ next. with_more next.0 [] (listed_number next.1) ≡ stepped value.now code.now) }
    ensures fits { IfOk result (λ next. length next.0.input + length next.0.output + 77 ≤ b.cap) }
{
    let state = MachineState::of(value)?;
    let program = Program::of(code)?;
    if state.halted {
        return Err(Refusal::Halted);
    }
    let Some(instruction) = program.get(state.pc) else {
        return Err(Refusal::Halted);
    };
    let Some((next, put)) = state.step(instruction) else {
        return Err(Refusal::NoInput);
    };
    if next.len_with(usize::from(put.is_some())) > b.cap as usize {
        return Err(Refusal::TooLarge);
    }
    Ok((next, put))
}

/// Refuses what is no machine, what is no program, a machine that has halted, one that lacks input for its next instruction,
/// and one whose new state is too long.
pub(crate) fn require_step(b: Bounds, value: &[u8], code: &[u8]) -> Result<(), Refusal>
    requires value { length value.now ≤ b.cap }
    requires code { length code.now ≤ b.cap }
    ensures { result_err result ≡ step_check b value.now code.now }
{
    let _next = next_state(b, value, code)?;
    Ok(())
}

/// The state after a step of the program.
pub(crate) fn step(alloc: Global, b: Bounds, value: &[u8], code: &[u8]) -> Result<Values, Memory>
    requires value { length value.now ≤ b.cap }
    requires code { length code.now ≤ b.cap }
    ensures { IfOk result (λ made. made ≡ if_applicable (step_check b value.now code.now) (state_code (stepped value.now code.now) ∷ [])) }
{
    match next_state(b, value, code) {
        Ok((next, put)) => Ok(one(alloc, next.encode_with(alloc, &[], put)?)),
        Err(_) => Ok(one(alloc, Vec::new(alloc))),
    }
}

// The state that the value is, where the bytes can be added to its input.
fn fitting<'a>(b: Bounds, value: &'a [u8], bytes: &[u8]) -> Result<MachineState<'a>, Refusal>
    requires value { length value.now ≤ b.cap }
    requires bytes { length bytes.now ≤ b.cap }
    ensures refusal { result_err result ≡ feed_check b value.now bytes.now }
    ensures machine { IfOk result (λ m. m ≡ machine_of value.now) }
    ensures fits { IfOk result (λ m. length m.input + length m.output + length bytes.now + 77 ≤ b.cap) }
{
    let state = MachineState::of(value)?;
    if state.len_with(bytes.len()) > b.cap as usize {
        return Err(Refusal::TooLarge);
    }
    Ok(state)
}

/// Refuses what is no machine, and bytes for which it has no room.
pub(crate) fn require_fitting(b: Bounds, value: &[u8], bytes: &[u8]) -> Result<(), Refusal>
    requires value { length value.now ≤ b.cap }
    requires bytes { length bytes.now ≤ b.cap }
    ensures { result_err result ≡ feed_check b value.now bytes.now }
{
    let _state = fitting(b, value, bytes)?;
    Ok(())
}

/// The state with more input.
pub(crate) fn feed(alloc: Global, b: Bounds, value: &[u8], bytes: &[u8]) -> Result<Values, Memory>
    requires value { length value.now ≤ b.cap }
    requires bytes { length bytes.now ≤ b.cap }
    ensures { IfOk result (λ made. made ≡ if_applicable (feed_check b value.now bytes.now) (state_code (fed (machine_of value.now) bytes.now) ∷ [])) }
{
    match fitting(b, value, bytes) {
        Ok(state) => Ok(one(alloc, state.encode_with(alloc, bytes, None)?)),
        Err(_) => Ok(one(alloc, Vec::new(alloc))),
    }
}

/// Refuses what is no machine.
pub(crate) fn require_machine(value: &[u8]) -> Result<(), Refusal>
    ensures { result_err result ≡ state_check value.now }
{
    let _state = MachineState::of(value)?;
    Ok(())
}

/// The machine's output.
pub(crate) fn drain(alloc: Global, value: &[u8]) -> Result<Values, Memory>
    ensures { IfOk result (λ made. made ≡ if_applicable (state_check value.now) ((machine_of value.now).output ∷ [])) }
{
    match MachineState::of(value) {
        Ok(state) => Ok(one(alloc, state.output.to_vec(alloc)?)),
        Err(_) => Ok(one(alloc, Vec::new(alloc))),
    }
}
