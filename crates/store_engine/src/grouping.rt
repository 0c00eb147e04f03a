// Groups of commands.
ghost use Rattle.std.specs.Prelude.{◌≡◌, ◌≤◌, false, None, Ok, IfSome, IsErr};
ghost use Rattle.store_engine.specs.Engine.{commands_since, group_size};

use crate::Engine;
use oper_core::Oper;
use thiserror::Error;

/// No group is open.
#[derive(Debug, Drop, Error)]
#[error("no group is open")]
pub struct NoGroup;

// So many commands has a group that began with this LSN, where the next LSN is the other.
fn size(group: Option<u64>, next: u64) -> Option<u64>
    requires { IfSome group (λ begun. begun ≤ next) }
    ensures { result ≡ commands_since next group }
{
    match group {
        Some(begun) => Some(next - begun),
        None => None,
    }
}

impl<O: Oper> Engine<O> {
    /// How many commands the open group has; none where none is open.
    pub fn group(&self) -> Option<u64>
        requires unbroken { self.now.broken ≡ false }
        ensures { result ≡ group_size self.now }
    {
        size(self.group, self.store.log().next())
    }

    /// Closes the open group. It answers how many commands the group has.
    pub fn end(&mut self) -> Result<u64, NoGroup>
        requires unbroken { self.old.broken ≡ false }
        ensures none { self.old.group ≡ None → IsErr result × (self.new ≡ self.old) }
        ensures some { IfSome (group_size self.old) (λ size. (result ≡ Ok size) × (self.new ≡ record self.old { group = None })) }
    {
        let size = self.group();
        self.group = None;
        match size {
            Some(commands) => Ok(commands),
            None => Err(NoGroup),
        }
    }
}
