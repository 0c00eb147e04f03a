ghost use Rattle.std.specs.Prelude.{◌≡◌, IfOk, map};
ghost use Rattle.named_words.specs.Forms.{texts};
ghost use Rattle.client_sessions.specs.Seen.{client_of};
ghost use Rattle.client_sessions.specs.Sessions;
ghost use Rattle.client_sessions.specs.Steps.{exec_of, guarded, inside, outside, queued, step_of};
ghost use Rattle.client_sessions.specs.Words.{bracket_seen, sorted_seen, step_seen};

use crate::queueing::{append, kept, with_command};
use crate::session::Session;
use crate::session_limits::SessionLimits;
use crate::sorted_word::{BracketWord, NextStep, SortedWord};
use crate::sorting::is_early;
use oper_core::Memory;
use resp_words::Reply;
use std::alloc::Global;
use std::mem;

impl Session {
    // Names more are watched, up to a limit.
    fn guard(
        &mut self,
        alloc: Global,
        limits: &SessionLimits,
        names: &[&[u8]],
    ) -> Result<NextStep, Memory>
        ensures { IfOk result (λ step. (client_of self.new, step_seen step) ≡ guarded limits.now (client_of self.old) (texts names.now)) }
    {
        if self.watched.len() > limits.watched
            || limits.watched - self.watched.len() < names.len()
        {
            return Ok(NextStep::Says(Reply::Error(b"ERR too many watched names")));
        }
        append(alloc, &mut self.watched, names)?;
        Ok(NextStep::Says(Reply::Simple(b"OK")))
    }

    // A bracket where nothing is queued.
    fn step_outside(
        &mut self,
        alloc: Global,
        limits: &SessionLimits,
        word: BracketWord<'_>,
    ) -> Result<NextStep, Memory>
        ensures { IfOk result (λ step. (client_of self.new, step_seen step) ≡ outside limits.now (client_of self.old) (bracket_seen word.entry)) }
    {
        match word {
            BracketWord::Opens => {
                self.multi = true;
                Ok(NextStep::Says(Reply::Simple(b"OK")))
            }
            BracketWord::Does => Ok(NextStep::Says(Reply::Error(b"ERR EXEC without MULTI"))),
            BracketWord::Drops => Ok(NextStep::Says(Reply::Error(b"ERR DISCARD without MULTI"))),
            BracketWord::Guards(names) => self.guard(alloc, limits, names),
            BracketWord::Leaves => {
                self.leaving = true;
                Ok(NextStep::Says(Reply::Simple(b"OK")))
            }
        }
    }

    /// Nothing is queued any more, and no name is watched.
    pub(crate) fn end(&mut self, alloc: Global)
        ensures { client_of self.new ≡ Sessions.ended (client_of self.old) }
    {
        self.multi = false;
        self.queue = Vec::new(alloc);
        self.held = 0;
        self.spoilt = false;
        self.watched = Vec::new(alloc);
        self.stale = false;
    }

    /// What is queued is taken out.
    pub(crate) fn take_queue(&mut self, alloc: Global) -> Vec<Vec<Vec<u8>>>
        ensures queue { map (λ words. map (λ word. word.items) words.items) result.items ≡ (client_of self.old).queue }
        ensures is { client_of self.new ≡ Sessions.ended (client_of self.old) }
    {
        let queue = mem::replace(&mut self.queue, Vec::new(alloc));
        self.end(alloc);
        queue
    }

    // An EXEC behind MULTI.
    fn step_exec(&mut self, alloc: Global) -> NextStep
        ensures { (client_of self.new, step_seen result) ≡ exec_of (client_of self.old) }
    {
        if self.spoilt {
            self.end(alloc);
            return NextStep::Says(Reply::Error(
                b"EXECABORT Transaction discarded because of previous errors.",
            ));
        }
        if self.stale {
            self.end(alloc);
            return NextStep::Says(Reply::NullArray);
        }
        NextStep::All
    }

    // A bracket behind MULTI.
    fn step_inside(&mut self, alloc: Global, word: BracketWord<'_>) -> NextStep
        ensures { (client_of self.new, step_seen result) ≡ inside (client_of self.old) (bracket_seen word.entry) }
    {
        match word {
            BracketWord::Opens => NextStep::Says(Reply::Error(
                b"ERR MULTI calls can not be nested",
            )),
            BracketWord::Does => self.step_exec(alloc),
            BracketWord::Drops => {
                self.end(alloc);
                NextStep::Says(Reply::Simple(b"OK"))
            }
            BracketWord::Guards(_) => NextStep::Says(Reply::Error(
                b"ERR WATCH inside MULTI is not allowed",
            )),
            BracketWord::Leaves => {
                self.leaving = true;
                NextStep::Says(Reply::Simple(b"OK"))
            }
        }
    }

    // A command is queued, up to a limit.
    fn enqueue(
        &mut self,
        alloc: Global,
        limits: &SessionLimits,
        words: &[&[u8]],
    ) -> Result<NextStep, Memory>
        ensures { IfOk result (λ step. (client_of self.new, step_seen step) ≡ queued limits.now (client_of self.old) (texts words.now)) }
    {
        let Some(held) = with_command(self.held, words, limits.queue) else {
            self.spoilt = true;
            return Ok(NextStep::Says(Reply::Error(b"ERR too many commands are queued")));
        };
        self.queue.push(kept(alloc, words)?)?;
        self.held = held;
        Ok(NextStep::Says(Reply::Simple(b"QUEUED")))
    }

    // A command that is no bracket, behind MULTI.
    fn keep(
        &mut self,
        alloc: Global,
        limits: &SessionLimits,
        words: &[&[u8]],
        sorted: SortedWord<'_>,
    ) -> Result<NextStep, Memory>
        ensures { IfOk result (λ step. (client_of self.new, step_seen step) ≡ Rattle.client_sessions.specs.Steps.kept limits.now (client_of self.old) (texts words.now) (sorted_seen sorted.entry)) }
    {
        if let SortedWord::Refused(refusal) = sorted {
            if is_early(refusal) {
                self.spoilt = true;
                return Ok(NextStep::Now);
            }
        }
        self.enqueue(alloc, limits, words)
    }

    /// What a command does to the session as it comes, and what is still to be done then.
    pub(crate) fn step(
        &mut self,
        alloc: Global,
        limits: &SessionLimits,
        words: &[&[u8]],
        sorted: SortedWord<'_>,
    ) -> Result<NextStep, Memory>
        ensures { IfOk result (λ step. (client_of self.new, step_seen step) ≡ step_of limits.now (client_of self.old) (texts words.now) (sorted_seen sorted.entry)) }
    {
        match (self.multi, sorted) {
            (true, SortedWord::Bracket(word)) => Ok(self.step_inside(alloc, word)),
            (true, _) => self.keep(alloc, limits, words, sorted),
            (false, SortedWord::Bracket(word)) => self.step_outside(alloc, limits, word),
            (false, _) => Ok(NextStep::Now),
        }
    }
}
