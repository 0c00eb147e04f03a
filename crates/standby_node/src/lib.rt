//! A store that follows the log of another one: frames come in as a stream, in whatever pieces, and the standby's files stand at
//! every moment for the list that they stood for and the commands of some first whole frames of it.
//!
//! The one contract is [`Standby::feed`]. What a stream makes of a list is a function (`follows` of execution, over the records of
//! the stream's whole frames), and so is its first refusal: `IsFollowing` of specs/Standby.antt says that the standby shows just
//! that. A stream is followed in one way ([`a_stream_is_followed_in_one_way`]), and refused in one
//! ([`a_stream_is_refused_in_one_way`]); one in which the definition finds no fault is not refused
//! ([`a_stream_without_fault_is_not_refused`]). What a store ships are frames of its records
//! ([`what_is_shipped_is_followed`]), in which it finds none ([`a_primary_is_followed`]). So a standby that begins as a front of its
//! primary's history, new or as a backup, stays one, whatever comes of what this ships before and behind its trims
//! ([`one_primary_is_followed`]), and comes to have all ([`a_standby_catches_up`]).
//!
//! Between two frames the standby may install, take a checkpoint and trim its log, and goes on. It logs no identity write of its own, so
//! that its records keep their LSNs.
//!
//! A stream may be compared before it is followed: a [`Mirror`] has the records of the store's log in memory, and those that the
//! stream brings, and finds the first record that is another one than the store's ([`Mirror::take`], [`a_stream_is_compared`]).
//!
//! It depends on store_engine, whose engine it is made of, and on frame_stream for the frames.
#![tactic(auto)]

mod compare_err;
mod feeding;
mod follow_err;
mod mirror;
mod mirroring;
mod standby;
mod standby_laws;
mod upkeep;

pub use compare_err::CompareErr;
pub use follow_err::FollowErr;
pub use mirror::Mirror;
pub use mirroring::a_stream_is_compared;
pub use standby::Standby;
pub use standby_laws::{
    a_log_is_shipped, a_primary_is_followed, a_standby_catches_up, a_stream_is_followed_in_one_way,
    a_stream_is_refused_in_one_way, a_stream_without_fault_is_not_refused, one_primary_is_followed,
    standby_stands, what_is_shipped_is_followed, what_is_stable_stays,
};
