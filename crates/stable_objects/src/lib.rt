//! The objects file: a header, and two slots for each object.
//!
//! An object's LSN and value stand in one of its slots; a new pair goes into the other, whose gate is opened
//! last. So the one contract is that of `Slots::replace`: a crash at any moment of it leaves the old pair or the new one.
//! Of several objects the other slots can be closed, synced, filled and synced together first (`close_spare`,
//! `fill_spare`), which no reader sees; then `replace` has only to open a gate, or `open_gates` opens all of them with one sync
//! and `hold` takes each into the numbers in memory.
//! Opened, the heads of all slots are read once: the LSN and the length of each value are known from then on.
//! The crate depends on disk_model, whose machines it reads and writes, on formats, which says what the bytes of the file
//! are, on oper_core for bounds and errors, and on byteorder for the numbers in the bytes.
#![tactic(auto)]

mod admitting;
mod comparing;
mod creating;
mod damage;
mod gates;
mod growing;
mod heads;
mod larger;
mod layout;
mod loading;
mod objects_gate;
mod open_err;
mod preparing;
mod replacing;
mod slot_laws;
mod slots;
mod value;
mod window;

pub use open_err::OpenErr;
pub use slot_laws::{
    a_byte_is_written_later, a_file_is_filled, a_store_stays_while_it_grows,
    a_version_is_one_of_two, ready_gates_open_alone, spare_slots_are_not_seen,
};
pub use slots::Slots;
