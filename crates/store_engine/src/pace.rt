ghost use Rattle.std.specs.Prelude.{◌≡◌};
ghost use Rattle.store_engine.specs.Paces.{due_at, first_pace, is_heavy, is_long, is_urgent, pace_after, wants_trim, wants_turn};

use crate::load::Load;
use checkpointing::{Due, TaskOutcome, UpkeepReport};
use formats::ReadErr;

// So many calls take no turn after one that did.
const REST: u64 = 16;

// A trim leaves so many bytes at most.
const ROOM: u64 = 1 << 20;

// More records than these are not left to wait.
const MANY: u64 = 1 << 17;

impl Load {
    fn is_long(&self) -> bool
        ensures { result ≡ is_long self.now }
    {
        self.used > self.limit / 3
    }

    fn is_urgent(&self) -> bool
        ensures { result ≡ is_urgent self.now }
    {
        self.used / 2 > self.limit / 3 || self.dirty / 2 > self.allowed as u64
    }

    fn is_heavy(&self) -> bool
        ensures { result ≡ is_heavy self.now }
    {
        self.dirty > self.allowed as u64 || self.uninstalled > MANY
    }
}

/// When upkeep is worth what it costs: a value that a caller of [`keep_up`](crate::Engine::keep_up) keeps from call to call.
///
/// A turn costs a few syncs, and the later an object is installed, the fewer of its versions are. So it is due where what waits takes
/// much memory or could take much of the log: where more objects are dirty than have half as many bytes together as the log may have
/// (1 MiB at least, and 32 MiB at most), or more than 2^17 records are not installed; or where the log has more than a third of what
/// it may have; and then in one of some calls. It is due in each where twice as many objects are dirty, or the log has more than two
/// thirds.
///
/// A trim reads the log. So it is due where that has more than a third, and twice what the last trim left, or, where that was refused, a
/// quarter more of what was left up to the limit; and where all is installed. Unless it is urgent it waits until a round at most is
/// dirty, so that the new log is short, and a call in which a turn is due takes none.
#[derive(Clone, Copy, Debug)]
pub struct Pace {
    // No trim is tried of a shorter log in which something is not installed.
    from: u64,
    // So many calls take no turn.
    rest: u64,
}

impl Pace {
    /// That of a store of which no upkeep was made yet.
    pub fn new() -> Pace
        ensures { result ≡ first_pace }
    {
        Pace { from: 0, rest: 0 }
    }

    fn wants_turn(&self, at: &Load) -> bool
        ensures { result ≡ wants_turn self.now at.now }
    {
        let due = at.is_long() || at.is_heavy();
        at.uninstalled > 0 && (at.is_urgent() || self.rest == 0 && due)
    }

    fn wants_trim(&self, at: &Load) -> bool
        ensures { result ≡ wants_trim self.now at.now }
    {
        let worth = at.used >= self.from || at.uninstalled == 0;
        let few = at.dirty <= at.round as u64;
        at.is_long() && worth && (at.is_urgent() || few && !self.wants_turn(at))
    }

    // What is due.
    pub(crate) fn due(&self, at: &Load) -> Due
        ensures { result ≡ due_at self.now at.now }
    {
        Due {
            trim: if self.wants_trim(at) {
                Some(ROOM.min(at.used / 2))
            } else {
                None
            },
            turn: if self.wants_turn(at) {
                Some(at.round)
            } else {
                None
            },
        }
    }

    // What became of upkeep, and how long the log is after it.
    pub(crate) fn note(&mut self, answer: &Result<UpkeepReport, ReadErr>, used: u64, limit: u64)
        ensures { self.new ≡ pace_after self.old answer.now used limit }
    {
        let Ok(it) = answer else {
            return;
        };
        self.rest = match it.turn {
            TaskOutcome::NotDue => self.rest.saturating_sub(1),
            _ => REST,
        };
        self.from = match it.trim {
            TaskOutcome::NotDue => self.from,
            TaskOutcome::Done => used.saturating_add(used),
            _ => used.saturating_add(limit.saturating_sub(used) / 4),
        };
    }
}
