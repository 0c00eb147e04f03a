//! What the calls on a range of a store's objects share, whatever the range holds: a B-tree (`tree_client`), a hash file
//! (`hash_client`), a map of wide pages (`map_client`). The store is an engine, or one under a transaction (the trait `Store` of
//! `store_calls`).
//!
//! A call finds at each moment what comes next, and there are two contracts of such calls. [`take_turns`] is that of calls whose
//! next is one command, which is accepted (the trait [`Turns`]): the call adds to the commands of the store those of its plan, the
//! definition `plan_from` of `call_plans`, or a beginning of them where the log, memory or the disk ends it, and answers as the
//! plan does. [`take_rounds`] is that of calls whose next is several commands, found on one state, of which the store may refuse
//! any (the trait [`Rounds`], at most three commands a round, [`Few`]): of its plan (`rounds_from`) it adds the commands as far as
//! each is accepted, and answers the refusal of the first that is not, or as the plan does (`tried`).
//!
//! Beside them stands what such a call is made of: [`see`] fetches an object, [`least_free`] finds the least object of a range whose
//! value is empty, [`make`] runs a command that is due, [`run`] one that may be refused. [`CallErr`] is why a call was not done. The
//! laws of specs/ say what calls make that come one after the other, and that a range which only its own calls have written is what
//! it was, whatever stop cut the last of them short (`OnlyCalls`).
#![tactic(auto)]

mod call_err;
mod few;
mod freeing;
mod making;
mod round;
mod running;
mod runs_of_calls;
mod seeing;
mod taking;
mod turn;
mod turning;

pub use call_err::CallErr;
pub use few::Few;
pub use freeing::least_free;
pub use making::make;
pub use round::Round;
pub use running::run;
pub use runs_of_calls::{files_stand_for_one_state, reads_go_on, reads_run_short};
pub use seeing::see;
pub use taking::{Rounds, take_rounds};
pub use turn::Turn;
pub use turning::{Turns, take_turns};
