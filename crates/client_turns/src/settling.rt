ghost use Rattle.std.specs.Prelude.{◌≡◌, List, OnOk};
ghost use Rattle.client_sessions.specs.Standing.{Leads};
ghost use Rattle.client_sessions.specs.declared.sessions.Sessions.{Sessions};
ghost use Rattle.client_turns.specs.Serves.{Done, IsFront, Service, ServesOn};
ghost use Rattle.client_turns.specs.Within.{IsGoing};

use client_sessions::{NamedStore, Stop};

// Answers that take more than so many bytes end a turn.
const MANY: usize = 1 << 20;

/// What was done is forced, and then its answers are said.
pub(crate) fn settle<S: NamedStore>(store: &mut S, out: &mut Vec<u8>) -> Result<(), Stop>
    ensures { Leads S.view store.old store.new result (λ was now. (now.heard ≡ was.heard) × ((service : Service) (said all : List Done) (sessions : Sessions) → IsGoing service said all was sessions out.old.items → ServesOn service now said × OnOk result (IsGoing service all all now sessions out.new.items))) }
{
    store.commit()?;
    store.say(out)?;
    out.clear();
    Ok(())
}

// Tells whether the group or its answers are large.
fn is_enough<S: NamedStore>(store: &S, out: &[u8]) -> bool {
    out.len() > MANY || store.is_large()
}

/// The same where the group or its answers are large.
pub(crate) fn relieve<S: NamedStore>(store: &mut S, out: &mut Vec<u8>) -> Result<(), Stop>
    ensures { Leads S.view store.old store.new result (λ was now. (now.heard ≡ was.heard) × ((service : Service) (said all : List Done) (sessions : Sessions) → IsGoing service said all was sessions out.old.items → ServesOn service now said × OnOk result ((forced : List Done) × IsFront said forced × IsGoing service forced all now sessions out.new.items))) }
{
    if !is_enough(store, out) {
        return Ok(());
    }
    settle(store, out)
}
