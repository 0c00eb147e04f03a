//! What the store knows of an operation: the objects that it reads and writes, when it is refused, what it makes,
//! and its code in the log.
//!
//! The one contract is the trait [`Oper`] with its laws: an operation's effect is a function of the values that it
//! reads, and bytes in the log begin with the code of at most one operation. It also says that wider bounds change no
//! command. The crate depends on `arrayvec`, on `thiserror`, and on `byteorder`'s words for numbers as bytes.
#![tactic(auto)]

mod bounds;
mod byte_list;
mod family;
mod memory;
mod objs;
mod oper;
mod refusal;
mod values;
mod wider_bounds;

pub use bounds::Bounds;
pub use byte_list::ByteList;
pub use family::Family;
pub use memory::Memory;
pub use objs::Objs;
pub use oper::Oper;
pub use refusal::Refusal;
pub use values::Values;
pub use wider_bounds::wider_bounds_keep_commands;
