//! Frames in a stream: each is the length of its payload, in four bytes, and the payload, which has 1 to 2^30 bytes.
//!
//! A stream is told apart in one way, in whatever pieces it comes ([`frames_are_told_apart`]). [`FrameBuffer`] keeps what came
//! of it and was not passed yet, at most the pieces of one frame where each whole frame is passed at once: it grows with the
//! bytes that come, and never with the length that a frame says it has. [`push_frame`] is the way there.
#![tactic(auto)]

mod frame_buffer;
mod frame_laws;
mod writing;

pub use frame_buffer::{BadLength, FrameBuffer};
pub use frame_laws::frames_are_told_apart;
pub use writing::{frame_head, push_frame};
