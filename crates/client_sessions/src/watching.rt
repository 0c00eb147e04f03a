ghost use Rattle.std.specs.Prelude.{◌≡◌, map};
ghost use Rattle.std.specs.List.{list_any};
ghost use Rattle.std.specs.Str.{bytes_eq};
ghost use Rattle.client_sessions.specs.Sessions.{aware};
ghost use Rattle.client_sessions.specs.Seen.{client_of};

use crate::session::Session;
use crate::sessions::Sessions;

// Tells whether a name is one of these.
fn has(names: &[Vec<u8>], name: &[u8]) -> bool
    ensures { result ≡ list_any (bytes_eq name.now) (map (λ name. name.items) names.now) }
{
    for other in names {
        if name == other.as_slice() {
            return true;
        }
    }
    false
}

// Tells whether one of the names is watched.
fn watches(watched: &[Vec<u8>], names: &[Vec<u8>]) -> bool
    ensures { result ≡ Rattle.client_sessions.specs.Sessions.watches (map (λ name. name.items) watched.now) (map (λ name. name.items) names.now) }
{
    for name in names {
        if has(watched, name.as_slice()) {
            return true;
        }
    }
    false
}

impl Session {
    // These names were given values or taken away.
    fn note(&mut self, names: &[Vec<u8>])
        ensures { client_of self.new ≡ aware (map (λ name. name.items) names.now) (client_of self.old) }
    {
        if watches(&self.watched, names) {
            self.stale = true;
        }
    }
}

// Each client is told of names that were given values or taken away.
fn note_all(sessions: &mut [Session], names: &[Vec<u8>])
    ensures { map client_of sessions.new ≡ map (aware (map (λ name. name.items) names.now)) (map client_of sessions.old) }
{
    for session in sessions.iter_mut() {
        session.note(names);
    }
}

impl Sessions {
    /// Names were given values or taken away.
    pub(crate) fn note(&mut self, names: &[Vec<u8>])
        ensures clients { map client_of self.new.sessions.items ≡ map (aware (map (λ name. name.items) names.now)) (map client_of self.old.sessions.items) }
        ensures came { self.new.came ≡ self.old.came }
        ensures limits { self.new.limits ≡ self.old.limits }
    {
        if names.is_empty() {
            return;
        }
        note_all(&mut self.sessions, names);
    }
}
