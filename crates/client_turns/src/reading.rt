ghost use Rattle.std.specs.Prelude.{◌≡◌, ◌<◌, ◌≤◌, ◌++◌, [], IfOk, List, Ok, OnOk, drop, length, slice_set, true, ℕ};
ghost use Rattle.client_frames.specs.Frames.{IsFrame, frame_bytes, seen};
ghost use Rattle.client_frames.specs.Reading.{BeginsWith, IsUnfinished};
ghost use Rattle.client_sessions.specs.Events.{rest_at};
ghost use Rattle.client_sessions.specs.Seen.{count_of};
ghost use Rattle.client_sessions.specs.Standing.{Leads};
ghost use Rattle.client_turns.specs.Serves.{Done, Service, ServesOn};
ghost use Rattle.client_turns.specs.Within.{IsReading, ReadsOn, rests_of};

use crate::desk::Desk;
use crate::hearing::hear_all;
use client_frames::{ClientFrame, next_frame};
use client_sessions::{NamedStore, Stop};
use oper_core::Memory;

// The frame that the bytes begin with, once it is whole.
fn first(bytes: &[u8]) -> Result<Option<ClientFrame<'_>>, Stop>
    ensures { IfOk result (λ found. BeginsWith bytes.now (Ok found)) }
{
    match next_frame(bytes) {
        Ok(found) => Ok(found),
        Err(_) => Err(Stop::Input),
    }
}

// What follows so many bytes.
fn behind(bytes: &[u8], size: usize) -> &[u8]
    requires { size ≤ length bytes.now }
    ensures { result.now ≡ drop size bytes.now }
{
    let (_, behind) = bytes.split_at(size);
    behind
}

impl Desk {
    // What a client has left, and a piece more.
    fn joined(&self, client: u32, piece: &[u8]) -> Result<Vec<u8>, Memory>
        requires { client < length self.now.rests.items }
        ensures { IfOk result (λ bytes. bytes.items ≡ rest_at (rests_of self.now) client ++ piece.now) }
    {
        let mut bytes = Vec::from_slice(self.alloc, &self.rests[client as usize])?;
        bytes.extend_from_slice(piece)?;
        Ok(bytes)
    }

    // Tells whether there may be such a client.
    fn has(&self, client: u32) -> bool
        ensures { result ≡ true → (client < length self.now.rests.items) × (client < count_of self.now.sessions) }
    {
        (client as usize) < self.rests.len() && (client as usize) < self.sessions.count()
    }

    // A client has left this.
    fn keep(&mut self, client: u32, left: Vec<u8>)
        requires { client < length self.old.rests.items }
        ensures rests { rests_of self.new ≡ slice_set (rests_of self.old) client left.items }
        ensures sessions { self.new.sessions ≡ self.old.sessions }
    {
        self.rests[client as usize] = left;
    }

    // A frame with bytes.
    fn hear_bytes<S: NamedStore>(
        &mut self,
        store: &mut S,
        frame: ClientFrame<'_>,
        out: &mut Vec<u8>,
    ) -> Result<(), Stop>
        requires is { IsFrame (seen frame) }
        requires rest { frame.client < length self.old.rests.items }
        requires here { frame.client < count_of self.old.sessions }
        requires some { 0 < length frame.bytes.now }
        ensures { Leads S.view store.old store.new result (λ was now. (service : Service) (said all : List Done) (ahead : List ℕ) → IsReading service said all (frame_bytes (seen frame.entry) ++ ahead) was self.old out.old.items → ServesOn service now said × OnOk result (ReadsOn service said ahead now self.new out.new.items)) }
    {
        let bytes = self.joined(frame.client, frame.bytes)?;
        let left = hear_all(&mut self.sessions, store, frame.client, &bytes, out)?;
        let kept = Vec::from_slice(self.alloc, left)?;
        self.keep(frame.client, kept);
        Ok(())
    }

    // A client is gone.
    fn hear_end<S: NamedStore>(
        &mut self,
        store: &mut S,
        frame: ClientFrame<'_>,
        out: &mut Vec<u8>,
    ) -> Result<(), Stop>
        requires is { IsFrame (seen frame) }
        requires rest { frame.client < length self.old.rests.items }
        requires here { frame.client < count_of self.old.sessions }
        requires none { frame.bytes.now ≡ [] }
        ensures { Leads S.view store.old store.new result (λ was now. (service : Service) (said all : List Done) (ahead : List ℕ) → IsReading service said all (frame_bytes (seen frame.entry) ++ ahead) was self.old out.old.items → ServesOn service now said × OnOk result (ReadsOn service said ahead now self.new out.new.items)) }
    {
        self.sessions.part(frame.client, out)?;
        self.keep(frame.client, Vec::new(self.alloc));
        Ok(())
    }

    // A frame.
    fn hear_frame<S: NamedStore>(
        &mut self,
        store: &mut S,
        frame: ClientFrame<'_>,
        out: &mut Vec<u8>,
    ) -> Result<(), Stop>
        requires { IsFrame (seen frame) }
        ensures { Leads S.view store.old store.new result (λ was now. (service : Service) (said all : List Done) (ahead : List ℕ) → IsReading service said all (frame_bytes (seen frame.entry) ++ ahead) was self.old out.old.items → ServesOn service now said × OnOk result (ReadsOn service said ahead now self.new out.new.items)) }
    {
        if !self.has(frame.client) {
            return Err(Stop::Input);
        }
        if frame.bytes.is_empty() {
            return self.hear_end(store, frame, out);
        }
        self.hear_bytes(store, frame, out)
    }

    /// All whole frames that the bytes begin with. It answers the rest.
    pub(crate) fn hear_frames<S: NamedStore>(
        &mut self,
        store: &mut S,
        bytes: &[u8],
        out: &mut Vec<u8>,
    ) -> Result<Vec<u8>, Stop>
        ensures reads { Leads S.view store.old store.new result (λ was now. (service : Service) (said all : List Done) → IsReading service said all bytes.now was self.old out.old.items → ServesOn service now said × IfOk result (λ rest. ReadsOn service said rest.items now self.new out.new.items)) }
        ensures unfinished { IfOk result (λ rest. IsUnfinished rest.items) }
    {
        let mut rest = bytes;
        while let Some(frame) = first(rest)? {
            self.hear_frame(store, frame, out)?;
            rest = behind(rest, frame.size());
        }
        Ok(Vec::from_slice(self.alloc, rest)?)
    }
}
