ghost use Rattle.std.specs.Prelude.{◌≡◌, ◌<◌, IfOk, List};
ghost use Rattle.client_sessions.specs.Events.{Tells};
ghost use Rattle.client_sessions.specs.Seen.{count_of};
ghost use Rattle.client_sessions.specs.Standing.{Leads};
ghost use Rattle.client_sessions.specs.Taking.{LeavesFewer, TellsNext};
ghost use Rattle.client_turns.specs.Serves.{Done, Service, ServesOn};
ghost use Rattle.client_turns.specs.Within.{GoesOn, IsHearing};

use crate::settling::relieve;
use client_sessions::{Heard, NamedStore, Sessions, Stop};

// The next command of a client's bytes, if it is whole.
fn hear_next<'a, S: NamedStore>(
    sessions: &mut Sessions,
    store: &mut S,
    client: u32,
    bytes: &'a [u8],
    out: &mut Vec<u8>,
) -> Result<Heard<'a>, Stop>
    requires { client < count_of sessions.old }
    ensures count { IfOk result (λ _. count_of sessions.new ≡ count_of sessions.old) }
    ensures fewer { IfOk result (λ heard. LeavesFewer bytes.now heard) }
    ensures hears { Leads S.view store.old store.new result (λ was now. (service : Service) (said all : List Done) → IsHearing service said all client bytes.now was sessions.old out.old.items → ServesOn service now said × IfOk result (λ heard. GoesOn service said all (λ events. TellsNext service.limits client bytes.now heard events) was now sessions.new out.new.items)) }
{
    relieve(store, out)?;
    sessions.hear(store, client, bytes, out)
}

/// All commands of a client's bytes that are whole. It answers what the client has left.
pub(crate) fn hear_all<'a, S: NamedStore>(
    sessions: &mut Sessions,
    store: &mut S,
    client: u32,
    bytes: &'a [u8],
    out: &mut Vec<u8>,
) -> Result<&'a [u8], Stop>
    requires { client < count_of sessions.old }
    ensures { Leads S.view store.old store.new result (λ was now. (service : Service) (said all : List Done) → IsHearing service said all client bytes.now was sessions.old out.old.items → ServesOn service now said × IfOk result (λ rest. GoesOn service said all (λ events. Tells service.limits client bytes.now events rest.now) was now sessions.new out.new.items)) }
{
    let mut rest = bytes;
    loop {
        match hear_next(sessions, store, client, rest, out)? {
            Heard::Command(behind) => rest = behind,
            Heard::Rest => return Ok(rest),
            Heard::Refused => return Ok(&[]),
        }
    }
}
