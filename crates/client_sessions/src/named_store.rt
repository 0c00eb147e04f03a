ghost use Rattle.std.specs.Prelude.{◌≡◌, ◌++◌, IfOk, IsOk, List, OnOk, map, ℕ};
ghost use Rattle.named_words.specs.Requests.{asked_of_names};
ghost use Rattle.client_sessions.specs.Standing.{Commits, Describes, Hears, IsView, Keeps, Leads, Performs, Says, View};

use crate::stop::Stop;
use named_words::{NameRequest, SessionRequest};

/// Names and their values in a store, and the pipes to those who ask for them.
pub trait NamedStore {
    /// What contracts know of it.
    ghost view: { View Self };

    /// Waits for a piece of the input, and puts it behind the bytes. It answers `false` where the input has ended.
    fn hear(&mut self, into: &mut Vec<u8>) -> Result<bool, Stop>
        ensures { Leads view self.old self.new result (λ was now. (piece : List ℕ) × Hears was now piece × OnOk result (into.new.items ≡ into.old.items ++ piece)) };

    /// Does a request, as the first of a group or in the one that is open, and puts its replies behind the bytes. It answers which
    /// names were given a value or taken away.
    fn perform(
        &mut self,
        request: NameRequest<'_>,
        into: &mut Vec<u8>,
    ) -> Result<Vec<Vec<u8>>, Stop>
        ensures { Leads view self.old self.new result (λ was now. Keeps was now × IfOk result (λ touched. Performs (asked_of_names request.entry) was now (map (λ name. name.items) touched.items) into.old.items into.new.items)) };

    /// Tells something of the server, and puts the reply behind the bytes.
    fn describe(&mut self, request: SessionRequest<'_>, into: &mut Vec<u8>) -> Result<(), Stop>
        ensures { Leads view self.old self.new result (λ was now. Keeps was now × OnOk result (Describes was now into.old.items into.new.items)) };

    /// Tells whether the group is so large that it is better forced before the next request.
    fn is_large(&self) -> bool;

    /// Ends the group, if one is open, and forces it.
    fn commit(&mut self) -> Result<(), Stop>
        ensures { Leads view self.old self.new result (λ was now. Commits (IsOk result) was now) };

    /// Says bytes.
    fn say(&mut self, bytes: &[u8]) -> Result<(), Stop>
        ensures { Leads view self.old self.new result (λ was now. Says (IsOk result) bytes.now was now) };

    /// What holds of each of them.
    ghost lawful: { IsView view };
}
