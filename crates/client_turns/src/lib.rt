//! Turns of a server: a piece of the input is heard, the commands that it completes are done in one group, which is forced, and only
//! then are the answers said. Nothing uses this crate yet; no program of the repository is a server.
//!
//! The one contract is durable linearizability ([`serve`], `Serves` in specs/Serves.antt), as Izraelevitz, Mendes and Scott
//! define it (2016): there is one history of commands, in the order in which their last bytes were heard, each of which did what it
//! means to the names; whatever had been said at a moment is a front of what is said for the first of them, and a crash at that
//! moment leaves the names that these same first commands make. So what was answered is kept, a crash leaves all that an EXEC did
//! or nothing of it, and no answer goes to another client.
//!
//! A turn whose answers, or whose group, become large is ended between two commands, and another begun with what is left of the same
//! input; never within EXEC, which is one command.
//!
//! It is proved of any `NamedStore` that stands as it begins; where a call on the store fails, of all moments until then. It depends on
//! `client_sessions` and `client_frames`.
#![tactic(auto)]

mod desk;
mod hearing;
mod reading;
mod settling;
mod turning;

pub use desk::Desk;
pub use turning::serve;
