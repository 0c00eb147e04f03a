ghost use Rattle.std.specs.Prelude.{◌≡◌, ◌<◌, ◌++◌, [], IfOk, false, OnOk, length, map, pos};
ghost use Rattle.std.specs.List.{flat_map, list_all};
ghost use Rattle.resp_words.specs.Replies.{integer, reply_bytes};
ghost use Rattle.client_sessions.specs.Answers;
ghost use Rattle.client_sessions.specs.Answers.{is_graphic, line_of, own_done};
ghost use Rattle.client_sessions.specs.Calls.{IsOwn};
ghost use Rattle.client_sessions.specs.Seen.{client_of};
ghost use Rattle.client_sessions.specs.Sessions.{client_at};
ghost use Rattle.client_sessions.specs.Words.{own_seen};

use crate::queueing::copied;
use crate::session::Session;
use crate::sessions::Sessions;
use crate::sorted_word::OwnWord;
use oper_core::Memory;
use resp_words::Reply;
use std::alloc::Global;

// Tells whether a client may call itself so.
fn are_graphic(title: &[u8]) -> bool
    ensures { result ≡ list_all is_graphic title.now }
{
    for byte in title {
        if *byte < 33 || *byte > 126 {
            return false;
        }
    }
    true
}

// Appends the line of CLIENT LIST for a client that is there.
fn push_line(alloc: Global, session: &Session, into: &mut Vec<u8>) -> Result<(), Memory>
    ensures { OnOk result (into.new.items ≡ into.old.items ++ line_of (client_of session.now)) }
{
    if !session.here {
        return Ok(());
    }
    let number = session.number.to_string(alloc)?;
    into.extend_from_slice(b"id=")?;
    into.extend_from_slice(number.as_bytes())?;
    into.extend_from_slice(b" name=")?;
    into.extend_from_slice(&session.title)?;
    into.push(b'\n')?;
    Ok(())
}

// The lines of CLIENT LIST.
fn lines(alloc: Global, sessions: &[Session]) -> Result<Vec<u8>, Memory>
    ensures { IfOk result (λ lines. lines.items ≡ flat_map line_of (map client_of sessions.now)) }
{
    let mut lines = Vec::new(alloc);
    for session in sessions {
        push_line(alloc, session, &mut lines)?;
    }
    Ok(lines)
}

impl Session {
    // The client calls itself something.
    fn call_it(&mut self, title: Vec<u8>)
        ensures { client_of self.new ≡ record (client_of self.old) { title = title.items } }
    {
        self.title = title;
    }

    // No name is watched any more.
    fn unguard(&mut self, alloc: Global)
        ensures { client_of self.new ≡ record (client_of self.old) { watched = []; stale = false } }
    {
        self.watched = Vec::new(alloc);
        self.stale = false;
    }

    // What it calls itself, as an answer.
    fn push_title(&self, alloc: Global, into: &mut Vec<u8>) -> Result<(), Memory>
        ensures { OnOk result (into.new.items ≡ into.old.items ++ reply_bytes (Answers.title_said (client_of self.now).title)) }
    {
        if self.title.is_empty() {
            return Reply::Null.push(alloc, into);
        }
        Reply::Bulk(&self.title).push(alloc, into)
    }
}

impl Sessions {
    // A client calls itself something.
    fn call(&mut self, client: u32, title: &[u8], into: &mut Vec<u8>) -> Result<(), Memory>
        requires { client < length self.old.sessions.items }
        ensures { OnOk result (IsOwn (Answers.called client title.now) self.old self.new into.old.items into.new.items) }
    {
        if !are_graphic(title) {
            let text = b"ERR Client names cannot contain spaces, newlines or special characters.";
            return Reply::Error(text).push(self.alloc, into);
        }
        let kept = copied(self.alloc, title)?;
        let session = &mut self.sessions[client as usize];
        session.call_it(kept);
        Reply::Simple(b"OK").push(self.alloc, into)
    }

    // No name is watched any more.
    fn unguard(&mut self, client: u32, into: &mut Vec<u8>) -> Result<(), Memory>
        requires { client < length self.old.sessions.items }
        ensures { OnOk result (IsOwn (Answers.unguarded client) self.old self.new into.old.items into.new.items) }
    {
        let alloc = self.alloc;
        let session = &mut self.sessions[client as usize];
        session.unguard(alloc);
        Reply::Simple(b"OK").push(self.alloc, into)
    }

    // The client's number.
    fn push_number(&self, client: u32, into: &mut Vec<u8>) -> Result<(), Memory>
        requires { client < length self.now.sessions.items }
        ensures { OnOk result (into.new.items ≡ into.old.items ++ reply_bytes (integer (pos (client_at (map client_of self.now.sessions.items) client).number))) }
    {
        let number = self.sessions[client as usize].number as i64;
        Reply::Integer(number).push(self.alloc, into)
    }

    /// A word on the session itself.
    pub(crate) fn own(
        &mut self,
        client: u32,
        word: OwnWord<'_>,
        into: &mut Vec<u8>,
    ) -> Result<(), Memory>
        requires { client < length self.old.sessions.items }
        ensures { OnOk result (IsOwn (own_done client (own_seen word.entry)) self.old self.new into.old.items into.new.items) }
    {
        match word {
            OwnWord::Pong => Reply::Simple(b"PONG").push(self.alloc, into),
            OwnWord::Text(text) => Reply::Bulk(text).push(self.alloc, into),
            OwnWord::Granted => Reply::Simple(b"OK").push(self.alloc, into),
            OwnWord::Unguards => self.unguard(client, into),
            OwnWord::CallIt(title) => self.call(client, title, into),
            OwnWord::ItsTitle => self.sessions[client as usize].push_title(self.alloc, into),
            OwnWord::ItsNumber => self.push_number(client, into),
            OwnWord::AllClients => {
                let lines = lines(self.alloc, &self.sessions)?;
                Reply::Bulk(&lines).push(self.alloc, into)
            }
        }
    }
}
