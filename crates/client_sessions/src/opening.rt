ghost use Rattle.std.specs.Prelude.{◌≡◌, ◌<◌, ◌^◌, IfOk, OnOk, length, map, replicate};
ghost use Rattle.client_sessions.specs.Seen.{client_of, count_of, server_of};
ghost use Rattle.client_sessions.specs.Sessions.{absent, came_in, empty, opened};
ghost use Rattle.named_words.specs.Effects.{Names};

use crate::session::Session;
use crate::session_limits::SessionLimits;
use crate::sessions::Sessions;
use crate::stop::Stop;
use oper_core::Memory;
use std::alloc::Global;

impl Session {
    // What is kept of a client that is not there.
    fn absent(alloc: Global) -> Session
        ensures { client_of result ≡ absent }
    {
        Session {
            here: false,
            leaving: false,
            number: 0,
            title: Vec::new(alloc),
            multi: false,
            queue: Vec::new(alloc),
            held: 0,
            spoilt: false,
            watched: Vec::new(alloc),
            stale: false,
        }
    }

    // A client comes, and so many came before it.
    fn come(&mut self, alloc: Global, number: u64)
        requires { number < 2 ^ 63 }
        ensures { client_of self.new ≡ came_in number }
    {
        self.go(alloc);
        self.here = true;
        self.number = number;
    }

    /// The client is gone.
    pub(crate) fn go(&mut self, alloc: Global)
        ensures { client_of self.new ≡ absent }
    {
        self.end(alloc);
        self.here = false;
        self.leaving = false;
        self.number = 0;
        self.title = Vec::new(alloc);
    }
}

// So many clients that are not there.
fn absent_clients(alloc: Global, count: u32) -> Result<Vec<Session>, Memory>
    ensures { IfOk result (λ sessions. map client_of sessions.items ≡ replicate count absent) }
{
    let mut sessions = Vec::with_capacity(alloc, count as usize)?;
    for _ in 0..count {
        sessions.push(Session::absent(alloc))?;
    }
    Ok(sessions)
}

impl Sessions {
    /// No client has come yet, of so many at once.
    pub fn new(alloc: Global, limits: SessionLimits, count: u32) -> Result<Sessions, Memory>
        ensures is { IfOk result (λ it. (names : Names) → server_of names it ≡ empty count names) }
        ensures limits { IfOk result (λ it. it.limits ≡ limits) }
    {
        Ok(Sessions {
            alloc,
            limits,
            sessions: absent_clients(alloc, count)?,
            came: 0,
        })
    }

    /// How many clients there may be at once.
    pub fn count(&self) -> usize
        ensures { result ≡ count_of self.now }
    {
        self.sessions.len()
    }

    /// A client that was not there comes with its first words.
    pub(crate) fn open(&mut self, client: u32) -> Result<(), Stop>
        requires { client < length self.old.sessions.items }
        ensures is { OnOk result ((names : Names) → server_of names self.new ≡ opened client (server_of names self.old)) }
        ensures limits { self.new.limits ≡ self.old.limits }
        ensures count { length self.new.sessions.items ≡ length self.old.sessions.items }
    {
        if self.sessions[client as usize].here {
            return Ok(());
        }
        if self.came >= 1 << 63 {
            return Err(Stop::Memory);
        }
        let alloc = self.alloc;
        let came = self.came;
        let session = &mut self.sessions[client as usize];
        session.come(alloc, came);
        self.came += 1;
        Ok(())
    }
}
