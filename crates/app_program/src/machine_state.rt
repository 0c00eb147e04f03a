ghost use Rattle.std.specs.Prelude.{◌≡◌, ◌+◌, ◌*◌, ◌<◌, ◌≤◌, ◌^◌, [], IfOk, IfSome, length, option_map};
ghost use Rattle.std.specs.Result.{result_err};
ghost use Rattle.app_program.specs.Program.{IsInstruction};
ghost use Rattle.app_program.specs.Machine.{Machine, done, going_to, halting, register, setting, taking};
ghost use Rattle.app_program.specs.State.{head_code, machine_of, numbers_in, state_code, state_in, with_more};
ghost use Rattle.app_program.specs.Table.{state_check};
ghost use Rattle.op_rows.specs.Rows.{listed_number};

use crate::Instruction;
use byteorder::{ByteOrder, LittleEndian};
use oper_core::{Memory, Refusal};
use std::alloc::Global;
use std::marker::Model;

// Place, halted, registers, and the lengths of input and output.
const HEAD_BYTES: usize = 77;

/// What a machine has done of its program, and what it has before it and after it.
#[derive(Drop)]
pub struct MachineState<'a> {
    /// The place of its next instruction.
    pub pc: u32,
    /// Whether it has halted.
    pub halted: bool,
    /// Its registers.
    pub registers: [u64; 8],
    /// The bytes that it has not taken yet.
    pub input: &'a [u8],
    /// The bytes that it has put out.
    pub output: &'a [u8],
}

impl<'a> Model for MachineState<'a> {
    ghost Value = { Machine };

    ghost view = { λ s. record { pc = s.pc; halted = s.halted; registers = s.registers; input = s.input.now; output = s.output.now } };

    ghost invariant = { λ s. length s.registers ≡ 8 };
}

impl<'a> MachineState<'a> {
    /// The state that the value is, exactly where it is one. The empty value is that of a machine before its first step,
    /// without input.
    pub fn decode(value: &'a [u8]) -> Option<Self>
        ensures state { result ≡ state_in value.now }
        ensures size { IfSome result (λ m. length m.input + length m.output ≤ length value.now) }
    {
        if value.is_empty() {
            return Some(MachineState {
                pc: 0,
                halted: false,
                registers: [0; 8],
                input: value,
                output: value,
            });
        }
        if value.len() < HEAD_BYTES || value[4] > 1 {
            return None;
        }
        let length = LittleEndian::read_u32(&value[69..]) as usize;
        let rest = &value[73..];
        if rest.len() < length + 4 {
            return None;
        }
        let (input, rest) = rest.split_at(length);
        let output = &rest[4..];
        if output.len() != LittleEndian::read_u32(rest) as usize {
            return None;
        }
        Some(MachineState {
            pc: LittleEndian::read_u32(value),
            halted: value[4] == 1,
            registers: eight_numbers(&value[5..]),
            input,
            output,
        })
    }

    /// The same, or the refusal of an operation on a machine.
    pub fn of(value: &'a [u8]) -> Result<Self, Refusal>
        ensures refusal { result_err result ≡ state_check value.now }
        ensures machine { IfOk result (λ m. m ≡ machine_of value.now) }
        ensures size { IfOk result (λ m. length m.input + length m.output ≤ length value.now) }
    {
        match MachineState::decode(value) {
            Some(state) => Ok(state),
            None => Err(Refusal::NotApp),
        }
    }

    /// How many bytes its value has, with so many more bytes of input or output.
    pub fn len_with(&self, more: usize) -> usize
        requires { length self.now.input + length self.now.output + more < 2 ^ 33 }
        ensures value { result ≡ length (state_code self.now) + more }
        ensures size { result ≡ 77 + length self.now.input + length self.now.output + more }
    {
        HEAD_BYTES + self.input.len() + self.output.len() + more
    }

    /// Its value, with these bytes behind its input, and this byte, if one, behind its output.
    pub fn encode_with(&self, alloc: Global, fed: &[u8], put: Option<u8>) -> Result<Vec<u8>, Memory>
        requires { length self.now.input + length self.now.output + length fed.now + 1 < 2 ^ 32 }
        ensures { IfOk result (λ value. value.items ≡ state_code (with_more self.now fed.now (listed_number put))) }
    {
        let mut value = self.head(alloc, fed.len() + usize::from(put.is_some()))?;
        value.extend_from_slice(&((self.input.len() + fed.len()) as u32).to_le_bytes())?;
        value.extend_from_slice(self.input)?;
        value.extend_from_slice(fed)?;
        let length = self.output.len() + usize::from(put.is_some());
        value.extend_from_slice(&(length as u32).to_le_bytes())?;
        value.extend_from_slice(self.output)?;
        if let Some(byte) = put {
            value.push(byte)?;
        }
        Ok(value)
    }

    // The front of its value, up to the registers, with room for the others and so many bytes more.
    fn head(&self, alloc: Global, more: usize) -> Result<Vec<u8>, Memory>
        requires { length self.now.input + length self.now.output + more < 2 ^ 33 }
        ensures { IfOk result (λ value. value.items ≡ head_code self.now) }
    {
        let mut value = Vec::with_capacity(alloc, self.len_with(more))?;
        value.extend_from_slice(&self.pc.to_le_bytes())?;
        value.push(u8::from(self.halted))?;
        for number in &self.registers {
            value.extend_from_slice(&number.to_le_bytes())?;
        }
        Ok(value)
    }

    /// The state after the instruction, but for the byte that joins its output, if one does; none where the instruction takes
    /// a byte of the input and there is none.
    pub fn step(&self, instruction: Instruction) -> Option<(MachineState<'a>, Option<u8>)>
        requires instruction { IsInstruction instruction }
        requires place { self.now.pc + 1 < 2 ^ 32 }
        ensures machine { done self.now instruction ≡ option_map (λ next. with_more next.0 [] (listed_number next.1)) result }
        ensures size { IfSome result (λ next. length next.0.input + length next.0.output ≤ length self.now.input + length self.now.output) }
    {
        let next = match instruction {
            Instruction::Halt => self.halt(),
            Instruction::Set { register, number } => self.set(register, u64::from(number)),
            Instruction::Add { register, other } => {
                self.set(
                    register,
                    self.number_in(register).wrapping_add(self.number_in(other)),
                )
            }
            Instruction::Multiply { register, other } => {
                self.set(
                    register,
                    self.number_in(register).wrapping_mul(self.number_in(other)),
                )
            }
            Instruction::Subtract { register, other } => {
                self.set(
                    register,
                    self.number_in(register).wrapping_sub(self.number_in(other)),
                )
            }
            Instruction::Input { register } => self.take(register)?,
            Instruction::Output { register } => {
                let byte = (self.number_in(register) % 256) as u8;
                return Some((self.go_to(self.pc + 1), Some(byte)));
            }
            Instruction::Jump { place } => self.go_to(place),
            Instruction::JumpIfZero { register, place } if self.number_in(register) == 0 => {
                self.go_to(place)
            }
            Instruction::JumpIfZero { .. } => self.go_to(self.pc + 1),
        };
        Some((next, None))
    }

    // What is in the register.
    fn number_in(&self, place: u8) -> u64
        requires { place < 8 }
        ensures { result ≡ register self.now place }
    {
        self.registers[place as usize]
    }

    // The state after the machine has halted.
    fn halt(&self) -> MachineState<'a>
        ensures { result ≡ halting self.now }
    {
        MachineState {
            pc: self.pc,
            halted: true,
            registers: self.registers,
            input: self.input,
            output: self.output,
        }
    }

    // The state that goes on at this place.
    fn go_to(&self, place: u32) -> MachineState<'a>
        ensures { result ≡ going_to self.now place }
    {
        MachineState {
            pc: place,
            halted: self.halted,
            registers: self.registers,
            input: self.input,
            output: self.output,
        }
    }

    // The state with this number in the register, which goes on.
    fn set(&self, register: u8, number: u64) -> MachineState<'a>
        requires register { register < 8 }
        requires place { self.now.pc + 1 < 2 ^ 32 }
        ensures { result ≡ setting self.now register number }
    {
        let mut next = self.go_to(self.pc + 1);
        next.registers[register as usize] = number;
        next
    }

    // The state whose first byte of the input has become the register, if there is one, which goes on.
    fn take(&self, register: u8) -> Option<MachineState<'a>>
        requires register { register < 8 }
        requires place { self.now.pc + 1 < 2 ^ 32 }
        ensures { result ≡ taking self.now register self.now.input }
    {
        let (byte, left) = self.input.split_first()?;
        let mut next = self.set(register, u64::from(*byte));
        next.input = left;
        Some(next)
    }
}

// Eight numbers of eight bytes each.
fn eight_numbers(bytes: &[u8]) -> [u64; 8]
    requires { 64 ≤ length bytes.now }
    ensures { result ≡ numbers_in 8 bytes.now }
{
    [
        LittleEndian::read_u64(bytes),
        LittleEndian::read_u64(&bytes[8..]),
        LittleEndian::read_u64(&bytes[16..]),
        LittleEndian::read_u64(&bytes[24..]),
        LittleEndian::read_u64(&bytes[32..]),
        LittleEndian::read_u64(&bytes[40..]),
        LittleEndian::read_u64(&bytes[48..]),
        LittleEndian::read_u64(&bytes[56..]),
    ]
}
