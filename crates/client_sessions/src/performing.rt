ghost use Rattle.std.specs.Prelude.{◌≡◌, ◌<◌, ◌++◌, IfOk, OnOk, length, map};
ghost use Rattle.named_words.specs.Effects.{Names};
ghost use Rattle.named_words.specs.Forms.{texts};
ghost use Rattle.named_words.specs.Refusals.{text_of};
ghost use Rattle.named_words.specs.Requests.{asked_of_names};
ghost use Rattle.resp_words.specs.Replies.{error, reply_bytes};
ghost use Rattle.client_sessions.specs.Answers.{DoneInTurn, DoneNow, QueueDone, sort_of};
ghost use Rattle.client_sessions.specs.Calls.{IsAsLarge, IsDone, IsNamed, IsStep};
ghost use Rattle.client_sessions.specs.Events.{CommandDone};
ghost use Rattle.client_sessions.specs.Seen.{client_of, server_of};
ghost use Rattle.client_sessions.specs.Sessions.{client_at, ended, with_client};
ghost use Rattle.client_sessions.specs.Standing.{Keeps, Leads};
ghost use Rattle.client_sessions.specs.Steps.{step_of};
ghost use Rattle.client_sessions.specs.Words.{sorted_seen, step_seen};

use crate::named_store::NamedStore;
use crate::queueing::lent;
use crate::sessions::Sessions;
use crate::sorted_word::{NextStep, SortedWord};
use crate::sorting::sort;
use crate::stop::Stop;
use named_words::{NameRequest, Refusal};
use oper_core::Memory;
use resp_words::Reply;
use std::alloc::Global;

// Appends the text of a refusal, as an answer.
fn push_refusal(
    alloc: Global,
    refusal: Refusal,
    words: &[&[u8]],
    into: &mut Vec<u8>,
) -> Result<(), Memory>
    ensures { OnOk result (into.new.items ≡ into.old.items ++ reply_bytes (error (text_of refusal (texts words.now)))) }
{
    let text = refusal.text(alloc, words)?;
    Reply::Error(&text).push(alloc, into)
}

impl Sessions {
    // A request on names.
    fn perform<S: NamedStore>(
        &mut self,
        store: &mut S,
        request: NameRequest<'_>,
        into: &mut Vec<u8>,
    ) -> Result<(), Stop>
        ensures large { OnOk result (IsAsLarge self.old self.new) }
        ensures done { Leads S.view store.old store.new result (λ was now. Keeps was now × OnOk result (IsDone (IsNamed was.sizes (asked_of_names request.entry)) was now self.old self.new into.old.items into.new.items)) }
    {
        let touched = store.perform(request, into)?;
        self.note(touched.as_slice());
        Ok(())
    }

    // A command that is done at once.
    fn now<S: NamedStore>(
        &mut self,
        store: &mut S,
        client: u32,
        words: &[&[u8]],
        sorted: SortedWord<'_>,
        into: &mut Vec<u8>,
    ) -> Result<(), Stop>
        requires { client < length self.old.sessions.items }
        ensures large { OnOk result (IsAsLarge self.old self.new) }
        ensures done { Leads S.view store.old store.new result (λ was now. Keeps was now × OnOk result (IsDone (DoneNow was.sizes client (texts words.now) (sorted_seen sorted.entry)) was now self.old self.new into.old.items into.new.items)) }
    {
        match sorted {
            SortedWord::Bracket(_) => Ok(()),
            SortedWord::Own(word) => Ok(self.own(client, word, into)?),
            SortedWord::OfServer(request) => store.describe(request, into),
            SortedWord::OnNames(request) => self.perform(store, request, into),
            SortedWord::Refused(refusal) => Ok(push_refusal(self.alloc, refusal, words, into)?),
        }
    }

    // A command that was queued.
    fn next<S: NamedStore>(
        &mut self,
        store: &mut S,
        client: u32,
        words: &[Vec<u8>],
        into: &mut Vec<u8>,
    ) -> Result<(), Stop>
        requires { client < length self.old.sessions.items }
        ensures large { OnOk result (IsAsLarge self.old self.new) }
        ensures done { Leads S.view store.old store.new result (λ was now. Keeps was now × OnOk result (IsDone (DoneNow was.sizes client (map (λ word. word.items) words.now) (sort_of (map (λ word. word.items) words.now))) was now self.old self.new into.old.items into.new.items)) }
    {
        let words = lent(self.alloc, words)?;
        let Some((name, rest)) = words.split_first() else {
            return Ok(());
        };
        let sorted = sort(name, rest);
        self.now(store, client, &words, sorted, into)
    }

    // Commands that were queued, one after the other.
    fn in_turn<S: NamedStore>(
        &mut self,
        store: &mut S,
        client: u32,
        queue: &[Vec<Vec<u8>>],
        into: &mut Vec<u8>,
    ) -> Result<(), Stop>
        requires { client < length self.old.sessions.items }
        ensures large { OnOk result (IsAsLarge self.old self.new) }
        ensures done { Leads S.view store.old store.new result (λ was now. Keeps was now × OnOk result (IsDone (DoneInTurn was.sizes client (map (λ words. map (λ word. word.items) words.items) queue.now)) was now self.old self.new into.old.items into.new.items)) }
    {
        for words in queue {
            self.next(store, client, words.as_slice(), into)?;
        }
        Ok(())
    }

    // What is queued is taken out.
    fn take_queue(&mut self, client: u32) -> Vec<Vec<Vec<u8>>>
        requires { client < length self.old.sessions.items }
        ensures queue { map (λ words. map (λ word. word.items) words.items) result.items ≡ (client_at (map client_of self.old.sessions.items) client).queue }
        ensures is { (names : Names) → server_of names self.new ≡ with_client client (ended (client_at (map client_of self.old.sessions.items) client)) (server_of names self.old) }
        ensures large { IsAsLarge self.old self.new }
    {
        let alloc = self.alloc;
        let session = &mut self.sessions[client as usize];
        session.take_queue(alloc)
    }

    // All that is queued.
    fn all<S: NamedStore>(
        &mut self,
        store: &mut S,
        client: u32,
        into: &mut Vec<u8>,
    ) -> Result<(), Stop>
        requires { client < length self.old.sessions.items }
        ensures large { OnOk result (IsAsLarge self.old self.new) }
        ensures done { Leads S.view store.old store.new result (λ was now. Keeps was now × OnOk result (IsDone (QueueDone was.sizes client) was now self.old self.new into.old.items into.new.items)) }
    {
        let queue = self.take_queue(client);
        if queue.len() > u32::MAX as usize {
            return Err(Stop::Memory);
        }
        Reply::Array(queue.len() as u32).push(self.alloc, into)?;
        self.in_turn(store, client, &queue, into)
    }

    // What a command does to its session as it comes, and what is still to be done then.
    fn step(
        &mut self,
        client: u32,
        words: &[&[u8]],
        sorted: SortedWord<'_>,
    ) -> Result<NextStep, Memory>
        requires { client < length self.old.sessions.items }
        ensures is { IfOk result (λ step. IsStep client (step_of self.old.limits (client_at (map client_of self.old.sessions.items) client) (texts words.now) (sorted_seen sorted.entry)) (step_seen step) self.old self.new) }
        ensures large { IsAsLarge self.old self.new }
    {
        let limits = self.limits;
        let alloc = self.alloc;
        let session = &mut self.sessions[client as usize];
        let step = session.step(alloc, &limits, words, sorted)?;
        Ok(step)
    }

    /// A command of a client that is there.
    pub(crate) fn command<S: NamedStore>(
        &mut self,
        store: &mut S,
        client: u32,
        words: &[&[u8]],
        into: &mut Vec<u8>,
    ) -> Result<(), Stop>
        requires { client < length self.old.sessions.items }
        ensures large { OnOk result (IsAsLarge self.old self.new) }
        ensures done { Leads S.view store.old store.new result (λ was now. Keeps was now × OnOk result (IsDone (CommandDone was.sizes self.old.limits client (texts words.now)) was now self.old self.new into.old.items into.new.items)) }
    {
        let Some((name, rest)) = words.split_first() else {
            return Ok(());
        };
        let sorted = sort(name, rest);
        match self.step(client, words, sorted)? {
            NextStep::Says(reply) => Ok(reply.push(self.alloc, into)?),
            NextStep::Now => self.now(store, client, words, sorted, into),
            NextStep::All => self.all(store, client, into),
        }
    }
}
