// What the operations make of values, and when they are refused.
ghost use Rattle.std.specs.Prelude.{◌≡◌, ◌+◌, ◌<◌, ◌≤◌, ◌++◌, ◌^◌, [], ◌∷◌, IfOk, OnErr, length, take, drop};
ghost use Rattle.std.specs.List.{concat};
ghost use Rattle.std.specs.Result.{result_err};
ghost use Rattle.op_meaning.specs.AppState.{app_check, app_of, fed, state_code, stepped};
ghost use Rattle.op_meaning.specs.Order.{in_order, records};
ghost use Rattle.op_rows.specs.Rows.{first, if_applicable, second};
ghost use Rattle.op_meaning.specs.Table.{append_check, app_read_check, cut_check, exec_check, sort_check};

use crate::AppState;
use crate::order::sorted;
use oper_core::{Bounds, ByteList, Memory, Refusal, Values};
use std::alloc::Global;

/// One value, copied.
pub(crate) fn one(alloc: Global, value: &[u8]) -> Result<Values, Memory>
    ensures { IfOk result (λ made. made ≡ value.now ∷ []) }
{
    let mut made = Values::new(alloc);
    made.push(value)?;
    Ok(made)
}

/// Two values, copied.
pub(crate) fn two(alloc: Global, value: &[u8], other: &[u8]) -> Result<Values, Memory>
    ensures { IfOk result (λ made. made ≡ value.now ∷ other.now ∷ []) }
{
    let mut made = Values::new(alloc);
    made.push(value)?;
    made.push(other)?;
    Ok(made)
}

/// One value, moved.
pub(crate) fn moved(alloc: Global, value: ByteList) -> Values
    ensures { result ≡ value ∷ [] }
{
    let mut made = Values::new(alloc);
    made.push_list(value);
    made
}

/// Two values, taken out of their places, the second first.
pub(crate) fn swap_in_place(alloc: Global, values: &mut Values) -> Values
    requires { length values.old ≡ 2 }
    ensures made { result ≡ second values.old ∷ first values.old ∷ [] }
    ensures count { length values.new ≡ 2 }
{
    let front = values.replace(0, ByteList::new(Vec::new(alloc)));
    let last = values.replace(1, ByteList::new(Vec::new(alloc)));
    let mut made = moved(alloc, last);
    made.push_list(front);
    made
}

/// Refuses values that are too long together.
pub(crate) fn require_room(b: Bounds, from: &[u8], to: &[u8]) -> Result<(), Refusal>
    ensures { result_err result ≡ append_check b from.now to.now }
{
    if from.len() + to.len() > b.cap as usize {
        return Err(Refusal::TooLarge);
    }
    Ok(())
}

/// The second value and then the first.
pub(crate) fn append(alloc: Global, b: Bounds, from: &[u8], to: &[u8]) -> Result<Values, Memory>
    ensures { IfOk result (λ made. made ≡ if_applicable (append_check b from.now to.now) ((to.now ++ from.now) ∷ [])) }
{
    if require_room(b, from, to).is_err() {
        return one(alloc, &[]);
    }
    let mut joined = to.to_vec(alloc)?;
    joined.extend_from_slice(from)?;
    one(alloc, joined.as_slice())
}

/// The same, made of the second value where it is.
pub(crate) fn append_in_place(
    alloc: Global,
    b: Bounds,
    values: &mut Values,
) -> Result<Values, Memory>
    requires { length values.old ≡ 2 }
    ensures made { IfOk result (λ made. made ≡ if_applicable (append_check b (first values.old) (second values.old)) ((second values.old ++ first values.old) ∷ [])) }
    ensures kept { (length values.new ≡ 2) × (first values.new ≡ first values.old) }
    ensures err { OnErr result (values.new ≡ values.old) }
{
    if require_room(b, values.get(0), values.get(1)).is_err() {
        return one(alloc, &[]);
    }
    let mut joined = values.replace(1, ByteList::new(Vec::new(alloc))).into_vec();
    if joined.extend_from_slice(values.get(0)).is_err() {
        values.replace(1, ByteList::new(joined));
        return Err(Memory);
    }
    Ok(moved(alloc, ByteList::new(joined)))
}

/// Refuses a place past the value's end.
pub(crate) fn require_place(place: u32, value: &[u8]) -> Result<(), Refusal>
    ensures { result_err result ≡ cut_check place value.now }
{
    if place as usize > value.len() {
        return Err(Refusal::BadPlace);
    }
    Ok(())
}

/// The bytes before the place, and the rest.
pub(crate) fn cut(alloc: Global, place: u32, value: &[u8]) -> Result<Values, Memory>
    ensures { IfOk result (λ made. made ≡ if_applicable (cut_check place value.now) (take place value.now ∷ drop place value.now ∷ [])) }
{
    if require_place(place, value).is_err() {
        return two(alloc, &[], &[]);
    }
    two(alloc, &value[..place as usize], &value[place as usize..])
}

/// The same, where the bytes before the place stay where they are.
pub(crate) fn cut_in_place(alloc: Global, place: u32, values: &mut Values) -> Result<Values, Memory>
    requires { length values.old ≡ 1 }
    ensures made { IfOk result (λ made. made ≡ if_applicable (cut_check place (first values.old)) (take place (first values.old) ∷ drop place (first values.old) ∷ [])) }
    ensures count { length values.new ≡ 1 }
    ensures err { OnErr result (values.new ≡ values.old) }
{
    if require_place(place, values.get(0)).is_err() {
        return two(alloc, &[], &[]);
    }
    let rest = values.get(0)[place as usize..].to_vec(alloc)?;
    let mut front = values.replace(0, ByteList::new(Vec::new(alloc))).into_vec();
    front.truncate(place as usize);
    let mut made = moved(alloc, ByteList::new(front));
    made.push_list(ByteList::new(rest));
    Ok(made)
}

/// Refuses a value that is no records of this width.
pub(crate) fn require_records(width: u32, value: &[u8]) -> Result<(), Refusal>
    ensures { result_err result ≡ sort_check width value.now }
{
    if width == 0 || value.len() % width as usize != 0 {
        return Err(Refusal::BadWidth);
    }
    Ok(())
}

/// The records of this width, in byte order.
pub(crate) fn sort(alloc: Global, width: u32, value: &[u8]) -> Result<Values, Memory>
    ensures { IfOk result (λ made. made ≡ if_applicable (sort_check width value.now) (concat (in_order (records width value.now)) ∷ [])) }
{
    if require_records(width, value).is_err() {
        return one(alloc, &[]);
    }
    let made = sorted(alloc, value, width as usize)?;
    one(alloc, made.as_slice())
}

// The state that the value is, where a step can be done on it.
fn ready(value: &[u8]) -> Result<AppState<'_>, Refusal>
    ensures refusal { result_err result ≡ exec_check value.now }
    ensures app { IfOk result (λ s. s ≡ app_of value.now) }
    ensures input { IfOk result (λ s. 0 < length s.input) }
    ensures size { IfOk result (λ s. length s.input + length s.output ≤ length value.now) }
{
    let state = AppState::of(value)?;
    if state.input.is_empty() {
        return Err(Refusal::NoInput);
    }
    Ok(state)
}

/// Refuses what is no application with some input.
pub(crate) fn require_input(value: &[u8]) -> Result<(), Refusal>
    ensures { result_err result ≡ exec_check value.now }
{
    let _state = ready(value)?;
    Ok(())
}

/// The state after a step.
pub(crate) fn exec(alloc: Global, value: &[u8]) -> Result<Values, Memory>
    requires { length value.now < 2 ^ 32 }
    ensures { IfOk result (λ made. made ≡ if_applicable (exec_check value.now) (state_code (stepped (app_of value.now)) ∷ [])) }
{
    match ready(value) {
        Ok(state) => one(alloc, state.step(alloc)?.as_slice()),
        Err(_) => one(alloc, &[]),
    }
}

// The state that the value is, where the bytes can be added to its input.
fn fitting<'a>(b: Bounds, value: &'a [u8], bytes: &[u8]) -> Result<AppState<'a>, Refusal>
    requires value { length value.now ≤ b.cap }
    requires bytes { length bytes.now ≤ b.cap }
    ensures refusal { result_err result ≡ app_read_check b value.now bytes.now }
    ensures app { IfOk result (λ s. s ≡ app_of value.now) }
    ensures fits { IfOk result (λ s. length s.input + length s.output + length bytes.now ≤ b.cap) }
{
    let state = AppState::of(value)?;
    if state.len() + bytes.len() > b.cap as usize {
        return Err(Refusal::TooLarge);
    }
    Ok(state)
}

/// Refuses what is no application, and bytes for which it has no room.
pub(crate) fn require_fitting(b: Bounds, value: &[u8], bytes: &[u8]) -> Result<(), Refusal>
    requires value { length value.now ≤ b.cap }
    requires bytes { length bytes.now ≤ b.cap }
    ensures { result_err result ≡ app_read_check b value.now bytes.now }
{
    let _state = fitting(b, value, bytes)?;
    Ok(())
}

/// The state with more input.
pub(crate) fn app_read(
    alloc: Global,
    b: Bounds,
    value: &[u8],
    bytes: &[u8],
) -> Result<Values, Memory>
    requires value { length value.now ≤ b.cap }
    requires bytes { length bytes.now ≤ b.cap }
    ensures { IfOk result (λ made. made ≡ if_applicable (app_read_check b value.now bytes.now) (state_code (fed (app_of value.now) bytes.now) ∷ [])) }
{
    match fitting(b, value, bytes) {
        Ok(state) => one(alloc, state.feed(alloc, bytes)?.as_slice()),
        Err(_) => one(alloc, &[]),
    }
}

/// Refuses what is no application.
pub(crate) fn require_app(value: &[u8]) -> Result<(), Refusal>
    ensures { result_err result ≡ app_check value.now }
{
    let _state = AppState::of(value)?;
    Ok(())
}

/// The application's output.
pub(crate) fn app_write(alloc: Global, value: &[u8]) -> Result<Values, Memory>
    ensures { IfOk result (λ made. made ≡ if_applicable (app_check value.now) ((app_of value.now).output ∷ [])) }
{
    match AppState::of(value) {
        Ok(state) => one(alloc, state.output),
        Err(_) => one(alloc, &[]),
    }
}
