ghost use Rattle.std.specs.Prelude.{◌≡◌, ◌+◌, ◌<◌, ◌≤◌, ◌^◌, IfOk, IfSome, length};
ghost use Rattle.std.specs.Result.{result_err};
ghost use Rattle.op_meaning.specs.AppState.{Application, app_check, app_of, fed, state_code, state_in, stepped};

use byteorder::{ByteOrder, LittleEndian};
use oper_core::{Memory, Refusal};
use std::alloc::Global;
use std::marker::Model;

// Steps, sum, and the lengths of input and output.
const HEAD_BYTES: usize = 24;

/// What an application has done, and what it has before it and after it.
#[derive(Drop)]
pub struct AppState<'a> {
    /// How many steps it has done, modulo 2^64.
    pub steps: u64,
    /// What the bytes that it has read come to, modulo 2^64.
    pub sum: u64,
    /// The bytes that it has not read yet.
    pub input: &'a [u8],
    /// One byte for each step.
    pub output: &'a [u8],
}

impl<'a> Model for AppState<'a> {
    ghost Value = { Application };

    ghost view = { λ s. record { steps = s.steps; sum = s.sum; input = s.input.now; output = s.output.now } };
}

impl<'a> AppState<'a> {
    /// The state that the value is, exactly where it is one. The empty value is that of an application without input.
    pub fn decode(value: &'a [u8]) -> Option<Self>
        ensures state { result ≡ state_in value.now }
        ensures size { IfSome result (λ s. length s.input + length s.output ≤ length value.now) }
    {
        if value.is_empty() {
            return Some(AppState {
                steps: 0,
                sum: 0,
                input: value,
                output: value,
            });
        }
        if value.len() < HEAD_BYTES {
            return None;
        }
        let length = LittleEndian::read_u32(&value[16..]) as usize;
        let rest = &value[20..];
        if rest.len() < length + 4 {
            return None;
        }
        let (input, rest) = rest.split_at(length);
        let output = &rest[4..];
        if output.len() != LittleEndian::read_u32(rest) as usize {
            return None;
        }
        Some(AppState {
            steps: LittleEndian::read_u64(value),
            sum: LittleEndian::read_u64(&value[8..]),
            input,
            output,
        })
    }

    /// The same, or the refusal of an operation on an application.
    pub fn of(value: &'a [u8]) -> Result<Self, Refusal>
        ensures refusal { result_err result ≡ app_check value.now }
        ensures app { IfOk result (λ s. s ≡ app_of value.now) }
        ensures size { IfOk result (λ s. length s.input + length s.output ≤ length value.now) }
    {
        match AppState::decode(value) {
            Some(state) => Ok(state),
            None => Err(Refusal::NotApp),
        }
    }

    /// How many bytes its value has.
    pub fn len(&self) -> usize
        requires { length self.now.input + length self.now.output < 2 ^ 33 }
        ensures { result ≡ length (state_code self.now) }
    {
        HEAD_BYTES + self.input.len() + self.output.len()
    }

    /// Its value.
    pub fn encode(&self, alloc: Global) -> Result<Vec<u8>, Memory>
        requires { length self.now.input + length self.now.output < 2 ^ 32 }
        ensures { IfOk result (λ value. value.items ≡ state_code self.now) }
    {
        let mut value = Vec::with_capacity(
            alloc,
            HEAD_BYTES + self.input.len() + self.output.len(),
        )?;
        value.extend_from_slice(&self.steps.to_le_bytes())?;
        value.extend_from_slice(&self.sum.to_le_bytes())?;
        value.extend_from_slice(&(self.input.len() as u32).to_le_bytes())?;
        value.extend_from_slice(self.input)?;
        value.extend_from_slice(&(self.output.len() as u32).to_le_bytes())?;
        value.extend_from_slice(self.output)?;
        Ok(value)
    }

    /// The value after one step.
    pub fn step(&self, alloc: Global) -> Result<Vec<u8>, Memory>
        requires some { 0 < length self.now.input }
        requires short { length self.now.input + length self.now.output < 2 ^ 32 }
        ensures { IfOk result (λ value. value.items ≡ state_code (stepped self.now)) }
    {
        let sum = self
            .sum
            .wrapping_mul(31)
            .wrapping_add(u64::from(self.input[0]));
        let mut output = self.output.to_vec(alloc)?;
        output.push((sum % 256) as u8)?;
        let next = AppState {
            steps: self.steps.wrapping_add(1),
            sum,
            input: &self.input[1..],
            output: output.as_slice(),
        };
        next.encode(alloc)
    }

    /// The value with more input.
    pub fn feed(&self, alloc: Global, bytes: &[u8]) -> Result<Vec<u8>, Memory>
        requires { length self.now.input + length self.now.output + length bytes.now < 2 ^ 32 }
        ensures { IfOk result (λ value. value.items ≡ state_code (fed self.now bytes.now)) }
    {
        let mut input = self.input.to_vec(alloc)?;
        input.extend_from_slice(bytes)?;
        let next = AppState {
            steps: self.steps,
            sum: self.sum,
            input: input.as_slice(),
            output: self.output,
        };
        next.encode(alloc)
    }
}
