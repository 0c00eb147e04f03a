ghost use Rattle.std.specs.Prelude.{◌≡◌, ◌<◌, ◌^◌, ◌++◌, IfNone, IfSome, drop, length};
ghost use Rattle.std.specs.List.{AllByRecursion};
ghost use Rattle.oper_core.specs.Meaning.{StartsWithCode};
ghost use Rattle.oper_core.specs.declared.bounds.Bounds.{Bounds};
ghost use Rattle.op_rows.specs.Rows.{all_numbers, names_code};
ghost use Rattle.op_rows.specs.RowLaws.{rows_bounded, rows_lawful, rows_widen};
ghost use Rattle.app_program.specs.Table.{is_program_tag, program_meaning, program_row};
ghost use Rattle.app_program.specs.TableLaws.{are_program_rows, program_tagged};
ghost use Rattle.app_program.specs.declared.program_op.ProgramOp.{ProgramOp};

use crate::effects;
use op_rows::{Names, both, known_as_small, two_numbers};
use oper_core::{Bounds, Family, Memory, Objs, Oper, Refusal, Values};
use std::alloc::Global;

/// An operation on an interpreted application, whose state is the value of an object, and its program that of another.
#[derive(Drop)]
pub enum ProgramOp {
    /// One instruction of the program.
    Step { app: u32, program: u32 },
    /// Adds the value of an object to the application's input.
    Feed { app: u32, from: u32 },
    /// Gives an object the application's output.
    Drain { app: u32, to: u32 },
}

impl ProgramOp {
    /// What it names: the first half of its row.
    fn names(&self) -> Names<'_>
        ensures value { result ≡ (program_row self.now).names }
        ensures fit { AllByRecursion (λ x. x < 2 ^ 32) (all_numbers (program_row self.now).names) }
    {
        match self {
            ProgramOp::Step { app, program } => Names::of_objects(
                14,
                both(*app, *program),
                both(*app, *program),
                Objs::one(*app),
            ),
            ProgramOp::Feed { app, from } => Names::of_objects(
                15,
                both(*app, *from),
                both(*app, *from),
                Objs::one(*app),
            ),
            ProgramOp::Drain { app, to } => Names::of_objects(
                16,
                both(*app, *to),
                Objs::one(*app),
                Objs::one(*to),
            ),
        }
    }

    /// The operation whose code the bytes begin with; none where no operation does. (One that is read need not be in the
    /// grammar of some bounds.)
    fn read(bytes: &[u8]) -> Option<Self>
        ensures some { IfSome result (λ op. bytes.now ≡ names_code (program_row op).names ++ drop (length (names_code (program_row op).names)) bytes.now) }
        ensures none { IfNone result ((b : Bounds) (op : ProgramOp) → StartsWithCode (program_meaning b) bytes.now op → ⊥) }
    {
        match *bytes.first()? {
            14 => two_numbers(14, bytes).map(|(app, program)| ProgramOp::Step { app, program }),
            15 => two_numbers(15, bytes).map(|(app, from)| ProgramOp::Feed { app, from }),
            16 => two_numbers(16, bytes).map(|(app, to)| ProgramOp::Drain { app, to }),
            _ => None,
        }
    }
}

impl Oper for ProgramOp {
    ghost meaning = { program_meaning };

    fn reads(&self) -> Objs {
        self.names().reads
    }

    fn writes(&self) -> Objs {
        self.names().writes
    }

    fn shape(&self, b: Bounds) -> Result<(), Refusal> {
        self.names().shape(b)
    }

    fn check(&self, b: Bounds, values: &Values) -> Result<(), Refusal> {
        match self {
            ProgramOp::Step { .. } => effects::require_step(b, values.get(0), values.get(1)),
            ProgramOp::Feed { .. } => effects::require_fitting(b, values.get(0), values.get(1)),
            ProgramOp::Drain { .. } => effects::require_machine(values.get(0)),
        }
    }

    fn apply(&self, alloc: Global, b: Bounds, values: &Values) -> Result<Values, Memory> {
        match self {
            ProgramOp::Step { .. } => effects::step(alloc, b, values.get(0), values.get(1)),
            ProgramOp::Feed { .. } => effects::feed(alloc, b, values.get(0), values.get(1)),
            ProgramOp::Drain { .. } => effects::drain(alloc, values.get(0)),
        }
    }

    fn code_length(&self) -> u64 {
        self.names().code_length() as u64
    }

    fn encode(&self, out: &mut Vec<u8>) -> Result<(), Memory> {
        self.names().write(out)
    }

    fn decode(_alloc: Global, b: Bounds, bytes: &[u8]) -> Result<Option<(Self, usize)>, Memory> {
        let Some(op) = ProgramOp::read(bytes) else {
            return Ok(None);
        };
        known_as_small(b);
        if op.names().shape(b).is_err() {
            return Ok(None);
        }
        let length = op.names().code_length();
        Ok(Some((op, length)))
    }

    ghost bounded = { rows_bounded program_row };

    ghost lawful = { rows_lawful program_row are_program_rows };

    ghost widens = { rows_widen program_row are_program_rows };
}

impl Family for ProgramOp {
    ghost has_tag = { is_program_tag };

    fn owns(tag: u8) -> bool {
        14 <= tag && tag <= 16
    }

    ghost tagged = { program_tagged };
}
