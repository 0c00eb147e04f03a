ghost use Rattle.std.specs.Prelude.{◌≡◌, ◌<◌, ◌++◌, IfOk, OnOk, length, map, true};
ghost use Rattle.client_frames.specs.Frames.{frames_bytes};
ghost use Rattle.named_words.specs.Effects.{Sizes};
ghost use Rattle.named_words.specs.Forms.{texts};
ghost use Rattle.resp_words.specs.Commands.{IsCommand, IsFound, words_of};
ghost use Rattle.resp_words.specs.Reading.{IsFront};
ghost use Rattle.client_sessions.specs.Calls.{IsAnswered, IsAsLarge, IsHeard, IsSettled};
ghost use Rattle.client_sessions.specs.Events;
ghost use Rattle.client_sessions.specs.Events.{Happen, Happens, bad, command, gone};
ghost use Rattle.client_sessions.specs.Seen.{client_of, count_of};
ghost use Rattle.client_sessions.specs.Sessions.{client_at};
ghost use Rattle.client_sessions.specs.Standing.{Keeps, Leads};
ghost use Rattle.client_sessions.specs.Taking.{LeavesFewer, Takes, TellsError, TellsLength, TellsNext};

use crate::heard::Heard;
use crate::named_store::NamedStore;
use crate::queueing::copied;
use crate::session::Session;
use crate::session_limits::SessionLimits;
use crate::sessions::Sessions;
use crate::stop::Stop;
use crate::taken::Taken;
use client_frames::{push_end, push_frames};
use oper_core::Memory;
use resp_words::{Command, Found, ProtocolError, Reply, next_command};
use std::alloc::Global;

// Why bytes are no command, in Redis's words.
fn told_of(alloc: Global, error: ProtocolError) -> Result<Vec<u8>, Memory>
    ensures { IfOk result (λ text. text.items ≡ Events.told_of error) }
{
    match error {
        ProtocolError::BadCount => copied(alloc, b"ERR Protocol error: invalid multibulk length"),
        ProtocolError::NoDollar(got) => {
            let mut text = copied(alloc, b"ERR Protocol error: expected '$', got '")?;
            text.push((got as u32 % 256) as u8)?;
            text.push(b'\'')?;
            Ok(text)
        }
        ProtocolError::BadLength => copied(alloc, b"ERR Protocol error: invalid bulk length"),
        ProtocolError::LongLine => copied(alloc, b"ERR Protocol error: too big inline request"),
        ProtocolError::BadByte => {
            copied(
                alloc,
                b"ERR Protocol error: a quote or a control byte in an inline request",
            )
        },
    }
}

// Why bytes that begin with no command are refused.
fn refused<'a>(alloc: Global, error: ProtocolError) -> Result<Taken<'a>, Memory>
    ensures { IfOk result (λ taken. TellsError error taken) }
{
    Ok(Taken::Refused(told_of(alloc, error)?))
}

// Bytes that are too many for one command.
fn too_long<'a>(alloc: Global) -> Result<Taken<'a>, Memory>
    ensures { IfOk result (λ taken. TellsLength taken) }
{
    Ok(Taken::Refused(copied(alloc, b"ERR Protocol error: too big a command")?))
}

// A command that was found.
fn command_taken<'a>(
    alloc: Global,
    bytes: &'a [u8],
    command: Command<'a>,
    limits: &SessionLimits,
) -> Result<Taken<'a>, Memory>
    requires { IsFound limits.now.commands bytes.now (words_of command) command.used }
    ensures { IfOk result (λ taken. Takes limits.now bytes.now taken) }
{
    let Command { words, used } = command;
    if used > limits.command {
        return too_long(alloc);
    }
    let (_, behind) = bytes.split_at(used);
    Ok(Taken::Command(words, behind))
}

// Bytes that may still become a command.
fn rest_taken<'a>(
    alloc: Global,
    bytes: &'a [u8],
    limits: &SessionLimits,
) -> Result<Taken<'a>, Memory>
    requires { IsFront (IsCommand limits.now.commands) bytes.now }
    ensures { IfOk result (λ taken. Takes limits.now bytes.now taken) }
{
    if bytes.len() > limits.command {
        return too_long(alloc);
    }
    Ok(Taken::Rest)
}

// The command that the bytes of a client begin with, or what else they are.
fn taken<'a>(alloc: Global, bytes: &'a [u8], limits: &SessionLimits) -> Result<Taken<'a>, Memory>
    ensures { IfOk result (λ taken. Takes limits.now bytes.now taken) }
{
    match next_command(alloc, bytes, limits.commands)? {
        Found::Whole(command) => command_taken(alloc, bytes, command, limits),
        Found::More => rest_taken(alloc, bytes, limits),
        Found::Bad(error) => refused(alloc, error),
    }
}

impl Session {
    // The client is let go.
    fn dismiss(&mut self)
        ensures { client_of self.new ≡ record (client_of self.old) { leaving = true } }
    {
        self.leaving = true;
    }
}

impl Sessions {
    // The last frame to a client that is leaving.
    fn farewell(&self, client: u32, out: &mut Vec<u8>) -> Result<(), Memory>
        requires { client < length self.now.sessions.items }
        ensures { OnOk result (out.new.items ≡ out.old.items ++ frames_bytes (Events.farewell client (client_at (map client_of self.now.sessions.items) client))) }
    {
        if !self.sessions[client as usize].leaving {
            return Ok(());
        }
        push_end(client, out)
    }

    // A command of a client, unless it is leaving.
    fn obey<S: NamedStore>(
        &mut self,
        store: &mut S,
        client: u32,
        words: &[&[u8]],
        out: &mut Vec<u8>,
    ) -> Result<(), Stop>
        requires { client < length self.old.sessions.items }
        ensures large { OnOk result (IsAsLarge self.old self.new) }
        ensures done { Leads S.view store.old store.new result (λ was now. Keeps was now × OnOk result (IsAnswered (Happens was.sizes self.old.limits (command client (texts words.now))) was now self.old self.new out.old.items out.new.items)) }
    {
        if self.sessions[client as usize].leaving {
            return Ok(());
        }
        self.open(client)?;
        let mut said = Vec::new(self.alloc);
        self.command(store, client, words, &mut said)?;
        push_frames(client, &said, out)?;
        Ok(self.farewell(client, out)?)
    }

    // A client is told that its bytes are no command, and let go, unless it is leaving.
    fn dismiss(&mut self, client: u32, told: &[u8], out: &mut Vec<u8>) -> Result<(), Stop>
        requires { client < length self.old.sessions.items }
        ensures { OnOk result (IsSettled (λ server frames new. (sizes : Sizes) → Happens sizes self.old.limits (bad client told.now) server frames new) self.old self.new out.old.items out.new.items) }
    {
        if self.sessions[client as usize].leaving {
            return Ok(());
        }
        self.open(client)?;
        let session = &mut self.sessions[client as usize];
        session.dismiss();
        let mut said = Vec::new(self.alloc);
        Reply::Error(told).push(self.alloc, &mut said)?;
        push_frames(client, &said, out)?;
        Ok(push_end(client, out)?)
    }

    // The last frame to a client that is gone.
    fn last_frame(&self, client: u32, out: &mut Vec<u8>) -> Result<(), Memory>
        requires { client < length self.now.sessions.items }
        ensures { OnOk result (out.new.items ≡ out.old.items ++ frames_bytes (Events.last_frame client (client_at (map client_of self.now.sessions.items) client))) }
    {
        if self.sessions[client as usize].leaving {
            return Ok(());
        }
        push_end(client, out)
    }

    /// A client is gone.
    pub fn part(&mut self, client: u32, out: &mut Vec<u8>) -> Result<(), Stop>
        requires { client < count_of self.old }
        ensures { OnOk result (IsSettled (λ server frames new. (sizes : Sizes) → Happens sizes self.old.limits (gone client) server frames new) self.old self.new out.old.items out.new.items) }
    {
        self.last_frame(client, out)?;
        let alloc = self.alloc;
        let session = &mut self.sessions[client as usize];
        session.go(alloc);
        Ok(())
    }

    /// The bytes of a client that no command has used yet: the first command is done, if it is whole.
    pub fn hear<'a, S: NamedStore>(
        &mut self,
        store: &mut S,
        client: u32,
        bytes: &'a [u8],
        out: &mut Vec<u8>,
    ) -> Result<Heard<'a>, Stop>
        requires { client < count_of self.old }
        ensures large { OnOk result (IsAsLarge self.old self.new) }
        ensures fewer { IfOk result (λ heard. LeavesFewer bytes.now heard) }
        ensures heard { Leads S.view store.old store.new result (λ was now. Keeps was now × IfOk result (λ heard. IsHeard (λ events. TellsNext self.old.limits client bytes.now heard events) (Happen was.sizes self.old.limits) was now self.old self.new out.old.items out.new.items)) }
    {
        match taken(self.alloc, bytes, &self.limits)? {
            Taken::Command(words, behind) => {
                self.obey(store, client, &words, out)?;
                Ok(Heard::Command(behind))
            }
            Taken::Rest => Ok(Heard::Rest),
            Taken::Refused(told) => {
                self.dismiss(client, &told, out)?;
                Ok(Heard::Refused)
            }
        }
    }
}
