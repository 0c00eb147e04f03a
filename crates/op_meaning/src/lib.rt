//! The operations on plain values and on applications: what each reads, writes and makes, when it is refused, and its
//! code in the log.
//!
//! The one contract is that of the trait `Oper`, at the meaning that the table in specs/ gives; and the state of an
//! application and its bytes determine each other. It depends on oper_core, on op_rows for
//! the tables, and on byteorder for the numbers of a state.
#![tactic(auto)]

mod app_state;
mod effects;
mod order;
mod plain_op;
mod state_codes;

pub use app_state::AppState;
pub use order::in_order_is_the_sorted_permutation;
pub use plain_op::PlainOp;
pub use state_codes::states_have_one_code;
