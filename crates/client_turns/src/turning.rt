ghost use Rattle.std.specs.Prelude.{◌≡◌, [], IfOk, List, OnOk, map};
ghost use Rattle.client_sessions.specs.Standing.{Leads};
ghost use Rattle.client_turns.specs.Serves.{Done, IsFront, Serves, Service, ServesOn};
ghost use Rattle.client_turns.specs.Turning.{AllAnswered, IsBetween, IsFresh, IsNew, service_of};
ghost use Rattle.client_turns.specs.Within.{IsReading};

use crate::desk::Desk;
use crate::settling::settle;
use client_sessions::{NamedStore, SessionLimits, Sessions, Stop};
use oper_core::Memory;
use std::alloc::Global;

// So many clients have left nothing.
fn no_rests(alloc: Global, count: u32) -> Result<Vec<Vec<u8>>, Memory>
    ensures { IfOk result (λ rests. map (λ rest. rest.items) rests.items ≡ Rattle.client_turns.specs.Serves.no_rests count) }
{
    let mut rests = Vec::with_capacity(alloc, count as usize)?;
    for _ in 0..count {
        rests.push(Vec::new(alloc))?;
    }
    Ok(rests)
}

impl Desk {
    /// Nothing has come of any client, of so many at once.
    pub fn new(alloc: Global, limits: SessionLimits, count: u32) -> Result<Desk, Memory>
        ensures { IfOk result (λ it. IsNew limits count it) }
    {
        Ok(Desk {
            alloc,
            rest: Vec::new(alloc),
            rests: no_rests(alloc, count)?,
            sessions: Sessions::new(alloc, limits, count)?,
        })
    }

    // All whole frames of what has come are heard, what they ask is forced, and then the answers are said.
    fn answer<S: NamedStore>(&mut self, store: &mut S, heard: &[u8]) -> Result<(), Stop>
        ensures { Leads S.view store.old store.new result (λ was now. (service : Service) (history : List Done) → IsReading service history history heard.now was self.old [] → ServesOn service now history × OnOk result ((later : List Done) × IsFront history later × IsBetween service later now self.new)) }
    {
        let mut out = Vec::new(self.alloc);
        let rest = self.hear_frames(store, heard, &mut out)?;
        settle(store, &mut out)?;
        self.rest = rest;
        Ok(())
    }

    /// A piece of the input is heard, the commands that it completes are done, all is forced, and then the answers are said; where
    /// the group or its answers become large this is done between two commands, too. It answers `false` where the input has ended.
    pub fn turn<S: NamedStore>(&mut self, store: &mut S) -> Result<bool, Stop>
        // at each moment, also where the turn is broken off; and behind a turn all is answered that was heard
        ensures { Leads S.view store.old store.new result (λ was now. (service : Service) (history : List Done) → IsBetween service history was self.old → ServesOn service now history × OnOk result ((later : List Done) × IsFront history later × IsBetween service later now self.new)) }
    {
        let mut heard = Vec::from_slice(self.alloc, &self.rest)?;
        let more = store.hear(&mut heard)?;
        self.answer(store, &heard)?;
        Ok(more)
    }

    // Turns until the input ends.
    fn turns<S: NamedStore>(&mut self, store: &mut S) -> Result<(), Stop>
        ensures { Leads S.view store.old store.new result (λ was now. (service : Service) (history : List Done) → IsBetween service history was self.old → ServesOn service now history × OnOk result (AllAnswered service now)) }
    {
        for _ in 0..u64::MAX {
            let more = self.turn(store)?;
            if !more {
                return Ok(());
            }
        }
        Ok(())
    }
}

/// Serves so many clients at once, of whom none has come, until the input ends.
pub fn serve<S: NamedStore>(
    alloc: Global,
    store: &mut S,
    limits: SessionLimits,
    count: u32,
) -> Result<(), Stop>
    // at each moment, also where it stops; and behind the end of the input all is answered that was heard
    ensures { Leads S.view store.old store.new result (λ was now. IsFresh was → (history : List Done) × Serves (service_of limits count was) now history × OnOk result (AllAnswered (service_of limits count was) now)) }
{
    let mut desk = Desk::new(alloc, limits, count)?;
    desk.turns(store)
}
