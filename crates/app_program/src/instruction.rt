ghost use Rattle.std.specs.Prelude.{◌≡◌, ◌≤◌, IfSome, Some, length};
ghost use Rattle.app_program.specs.Program.{IsInstruction, instruction_in, on};

use byteorder::{ByteOrder, LittleEndian};

/// How many registers a machine has.
const REGISTERS: u8 = 8;

/// One instruction of a program. Registers and instructions are numbered from 0.
#[derive(Clone, Copy, Debug, PartialEq, Eq)]
pub enum Instruction {
    /// The machine halts.
    Halt,
    /// The register becomes the number.
    Set { register: u8, number: u32 },
    /// The register becomes its sum with the other, modulo 2^64.
    Add { register: u8, other: u8 },
    /// The register becomes its product with the other, modulo 2^64.
    Multiply { register: u8, other: u8 },
    /// The register becomes what is left of it without the other, modulo 2^64.
    Subtract { register: u8, other: u8 },
    /// The first byte of the input leaves the input and becomes the register.
    Input { register: u8 },
    /// The low byte of the register joins the output.
    Output { register: u8 },
    /// The machine goes on at this instruction.
    Jump { place: u32 },
    /// It does so where the register is 0.
    JumpIfZero { register: u8, place: u32 },
}

impl Instruction {
    /// The instruction in the first eight bytes, exactly where there is one in them.
    pub fn decode(bytes: &[u8]) -> Option<Self>
        requires { 8 ≤ length bytes.now }
        ensures value { result ≡ instruction_in bytes.now }
        ensures registers { IfSome result IsInstruction }
    {
        if bytes[3] != 0 {
            return None;
        }
        let (register, other) = (bytes[1], bytes[2]);
        let number = LittleEndian::read_u32(&bytes[4..]);
        match bytes[0] {
            0 => Some(Instruction::Halt),
            1 => with_one(register, Instruction::Set { register, number }),
            2 => with_two(register, other, Instruction::Add { register, other }),
            3 => with_two(register, other, Instruction::Multiply { register, other }),
            4 => with_two(register, other, Instruction::Subtract { register, other }),
            5 => with_one(register, Instruction::Input { register }),
            6 => with_one(register, Instruction::Output { register }),
            7 => Some(Instruction::Jump { place: number }),
            8 => with_one(
                register,
                Instruction::JumpIfZero {
                    register,
                    place: number,
                },
            ),
            _ => None,
        }
    }
}

// The instruction, where the machine has this register.
fn with_one(register: u8, instruction: Instruction) -> Option<Instruction>
    ensures { result ≡ on register (Some instruction) }
{
    (register < REGISTERS).then_some(instruction)
}

// The instruction, where the machine has both registers.
fn with_two(register: u8, other: u8, instruction: Instruction) -> Option<Instruction>
    ensures { result ≡ on register (on other (Some instruction)) }
{
    (register < REGISTERS && other < REGISTERS).then_some(instruction)
}
