//! The operations on interpreted applications, whose program is the value of an object too: what each reads, writes and makes,
//! when it is refused, and its code in the log.
//!
//! The one contract is that of the trait `Oper`, at the meaning that the table in specs/ gives. specs/Machine.antt says what a
//! program does with an input; and however feeds and steps alternate, the machine does what it does on all that was fed. It
//! depends on oper_core, on op_rows for the tables, and on byteorder for the numbers of a state.
#![tactic(auto)]

mod effects;
mod instruction;
mod machine_laws;
mod machine_state;
mod program;
mod program_op;

pub use instruction::Instruction;
pub use machine_laws::{
    a_value_follows_the_machine, machines_have_one_code, the_machine_runs_on_all_input,
};
pub use machine_state::MachineState;
pub use program::Program;
pub use program_op::ProgramOp;
