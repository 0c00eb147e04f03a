ghost use Rattle.std.specs.Prelude.{◌≡◌, ◌*◌, ◌≤◌, IfOk, IfSome, is_some, length, slice_get};
ghost use Rattle.std.specs.Result.{result_err};
ghost use Rattle.oper_core.specs.Meaning.{unless};
ghost use Rattle.oper_core.specs.declared.refusal.Refusal.TheVariants.{NotCode};
ghost use Rattle.app_program.specs.Program.{IsInstruction, program_in, program_of};

use crate::Instruction;
use oper_core::Refusal;
use std::marker::Model;

/// How many bytes an instruction has.
const INSTRUCTION_BYTES: usize = 8;

/// A program, each of whose instructions has been checked.
#[derive(Drop)]
pub struct Program<'a> {
    bytes: &'a [u8],
}

impl<'a> Model for Program<'a> {
    ghost use Rattle.std.specs.Prelude.{List};
    ghost use Rattle.app_program.specs.declared.instruction.Instruction.{Instruction};
    ghost use Rattle.app_program.specs.Program.{IsProgram, program_of};

    ghost Value = { List Instruction };

    ghost view = { λ s. program_of s.bytes.now };

    ghost invariant = { λ s. IsProgram s.bytes.now };
}

impl<'a> Program<'a> {
    /// The program that the value is, exactly where it is one.
    pub fn decode(value: &'a [u8]) -> Option<Self>
        ensures { result ≡ program_in value.now }
    {
        if !is_program(value) {
            return None;
        }
        Some(Program { bytes: value })
    }

    /// The same, or the refusal of a step.
    pub fn of(value: &'a [u8]) -> Result<Self, Refusal>
        ensures refusal { result_err result ≡ unless (is_some (program_in value.now)) NotCode }
        ensures program { IfOk result (λ program. program ≡ program_of value.now) }
        ensures size { IfOk result (λ program. 8 * length program ≤ length value.now) }
    {
        match Program::decode(value) {
            Some(program) => Ok(program),
            None => Err(Refusal::NotCode),
        }
    }

    /// The instruction at this place, if the program goes so far.
    pub fn get(&self, place: u32) -> Option<Instruction>
        ensures value { result ≡ slice_get self.now place }
        ensures registers { IfSome result IsInstruction }
    {
        let start = place as usize * INSTRUCTION_BYTES;
        if self.bytes.len() < start + INSTRUCTION_BYTES {
            return None;
        }
        Instruction::decode(&self.bytes[start..])
    }
}

// Whether the bytes are instructions, and no byte more.
fn is_program(bytes: &[u8]) -> bool
    ensures { result ≡ is_some (program_in bytes.now) }
{
    let mut rest = bytes;
    while rest.len() >= INSTRUCTION_BYTES {
        let (first, more) = rest.split_at(INSTRUCTION_BYTES);
        if Instruction::decode(first).is_none() {
            return false;
        }
        rest = more;
    }
    rest.is_empty()
}
