//! Frames of clients that speak with one program through a pipe: a client's number and a length, four bytes each, the lowest first,
//! and so many bytes, at most 65,536. A frame without bytes says that the client is gone, or is to go; both sides say so once
//! before its number is used again. No program uses it yet: none of the repository is a server.
//!
//! [`next_frame`] tells what the bytes that have come begin with, and [`push_frames`] appends what a client is said. The contract is
//! that a stream is frames and an unfinished rest in one way, however reads cut it ([`client_frames_are_told_apart`]), and that
//! what is appended for a client is frames of that client with exactly these bytes. No length is believed before its bytes have come.
//!
//! It depends on `oper_core` alone, for the lack of memory and the laws of numbers in bytes.
#![tactic(auto)]

mod frame;
mod frame_laws;
mod reading;
mod writing;

pub use frame::{ClientFrame, LongFrame, MOST};
pub use frame_laws::client_frames_are_told_apart;
pub use reading::next_frame;
pub use writing::{push_end, push_frames};
