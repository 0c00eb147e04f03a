// The code of a command's record, made before it is certain that the record is added.
ghost use Rattle.std.specs.Prelude.{◌≡◌, ◌≤◌, ◌<◌, ◌+◌, ◌^◌, ◌++◌, List, ℕ, length, IfOk};
ghost use Rattle.oper_core.specs.Meaning.{IsInGrammar};
ghost use Rattle.formats.specs.Records.{record_code};
ghost use Rattle.formats.specs.declared.record.Record.TheVariants.{Command};

use crate::RecordLog;
use crate::codec::push_command;
use oper_core::{Memory, Oper};
use std::marker::Model;
use std::mem;

/// The code of a log's next record, which is a command.
#[derive(Drop)]
pub struct EncodedCommand {
    bytes: Vec<u8>,
}

impl Model for EncodedCommand {
    ghost Value = { List ℕ };

    ghost view = { λ s. s.bytes.items };
}

impl<O: Oper> RecordLog<O> {
    /// The code of the next record, where that is this command, and room for it. Either way nothing but the room changes.
    pub fn encode_command(&mut self, op: &O) -> Result<EncodedCommand, Memory>
        requires { IsInGrammar (O.meaning self.old.bounds) op.now }
        ensures code { IfOk result (λ code. code ≡ record_code (O.meaning self.old.bounds) (Command self.old.next op.now)) }
        ensures room { IfOk result (λ code. length code ≤ self.new.log.room) }
        ensures kept { self.new ≡ record self.old { log = record self.old.log { room = self.new.log.room } } }
    {
        let mut bytes = mem::replace(&mut self.code, Vec::new(self.alloc));
        bytes.clear();
        push_command(self.next, op, &mut bytes)?;
        self.log.make_room(bytes.len() as u64)?;
        Ok(EncodedCommand { bytes })
    }

    /// Adds the code of the next record after those that wait, and counts its command. Room was made for it. No memory.
    pub fn append_encoded(&mut self, command: EncodedCommand)
        requires lsn { self.old.next < 2 ^ 62 }
        requires room { length command ≤ self.old.log.room }
        requires short { length self.old.log.pending + length command ≤ 2 ^ 30 }
        requires place { self.old.log.end + 5 + length self.old.log.pending + length command < 2 ^ 49 }
        ensures { self.new ≡ record self.old {
          log = record self.old.log { pending = self.old.log.pending ++ command; room = self.new.log.room };
          next = self.old.next + 1;
          accepted = self.old.accepted + 1;
        } }
    {
        self.log.push(&command.bytes);
        self.next += 1;
        self.accepted += 1;

        // Its memory serves the next command.
        self.code = command.bytes;
    }
}
