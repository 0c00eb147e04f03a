//! Sessions of the clients of a server, in RESP: what is kept of each between its commands, and what commands do as they come.
//! `client_turns` alone uses it; no program of the repository is a server.
//!
//! [`Sessions::hear`] takes the bytes of a client that no command has used yet, does the first command, if it is whole, and puts the
//! frames of its answer behind what is to be said; [`Sessions::part`] is told that a client is gone. The one contract is that of
//! `Happens` in specs/Events.antt: what a command does to the names that all clients share and to what is kept of its client, and to
//! whom its answer goes. Commands behind MULTI are queued, up to a limit, and done by EXEC with none of another client's between
//! them; EXEC is refused where one of them was refused as it came, and does nothing where a name that is watched was given a value
//! or taken away, by whomever. Bytes that no command begins with are answered so, and their client is let go.
//!
//! Names and values are those of a [`NamedStore`], a trait, whose laws say what a request does to them (`does` of `named_words`), what a
//! crash leaves of them, and what comes in and goes out. They hold from what stands (`Leads` in specs/Standing.antt): a call leads from
//! one standing of the store to the next, with all moments at which a crash might have come between; where it fails these moments are
//! all that is known. That a store has no room for a request is its choice, also for one within EXEC, and such a request changes
//! nothing; so is what a server tells of itself, in one reply.
//!
//! It depends on `client_frames`, `named_words` and `resp_words`.
#![tactic(auto)]

mod answering;
mod heard;
mod hearing;
mod named_store;
mod opening;
mod performing;
mod queueing;
mod session;
mod session_limits;
mod sessions;
mod sorted_word;
mod sorting;
mod stepping;
mod stop;
mod taken;
mod watching;

pub use heard::Heard;
pub use named_store::NamedStore;
pub use session::Session;
pub use session_limits::SessionLimits;
pub use sessions::Sessions;
pub use stop::Stop;
