ghost use Rattle.std.specs.Prelude.{◌≡◌, ◌<◌, ◌≤◌, ◌+◌, ◌^◌, ◌++◌, length, OnOk};
ghost use Rattle.log_blocks.specs.LogView.{used_of, growth_of};

use crate::header::Header;
use crate::layout::LENGTH_BYTES;
use disk_model::FileNo;
use formats::BLOCK_HEAD;
use oper_core::Memory;
use std::marker::Model;

/// The log in force: where it ends, and what waits to be forced.
///
/// The buffer always has room for a block's length in front and for a closed gate after, so a force takes no memory.
#[derive(Drop)]
pub struct LogFile {
    pub(crate) active: FileNo,
    pub(crate) header: Header,
    pub(crate) end: u64,
    pub(crate) buffer: Vec<u8>,
    // No zeros are written before this place is reached: the file has bytes up to it, or refused them.
    pub(crate) filled: u64,
    // How many forces have passed that place.
    pub(crate) growths: u32,
}

impl Model for LogFile {
    ghost use Rattle.std.specs.Prelude.{◌-◌, length, drop, vec_capacity};
    ghost use Rattle.log_blocks.specs.LogView.{LogView, IsInUse};

    ghost Value = { LogView };

    ghost view = { λ a. record {
      active = a.active;
      header = record { epoch = a.header.epoch; base = a.header.base; commands = a.header.commands };
      end = a.end;
      pending = drop 4 a.buffer.items;
      room = vec_capacity a.buffer - 1 - length a.buffer.items;
    } };

    ghost invariant = { λ a. IsInUse a.active a.header.epoch a.end a.buffer.items (vec_capacity a.buffer) };
}

impl LogFile {
    /// The file that the log stands in.
    pub fn active(&self) -> FileNo
        ensures { result ≡ self.now.active }
    {
        self.active
    }

    /// How many logs there were, this one counted. At 2^62 there is no other.
    pub fn epoch(&self) -> u64
        ensures { result ≡ self.now.header.epoch }
    {
        self.header.epoch
    }

    /// The number of the log's first numbered record, or of the next one where it has none.
    pub fn base(&self) -> u64
        ensures { result ≡ self.now.header.base }
    {
        self.header.base
    }

    /// How many commands were accepted before the base.
    pub fn commands(&self) -> u64
        ensures { result ≡ self.now.header.commands }
    {
        self.header.commands
    }

    /// The log's length, with the block that a force would add.
    pub fn used(&self) -> u64
        ensures { result ≡ used_of self.now }
    {
        if self.buffer.len() == LENGTH_BYTES {
            return self.end;
        }
        self.end + 1 + self.buffer.len() as u64
    }

    /// How many bytes wait for a force.
    pub fn buffered(&self) -> u64
        ensures { result ≡ length self.now.pending }
    {
        (self.buffer.len() - LENGTH_BYTES) as u64
    }

    /// By how much a payload of n bytes lets the log grow.
    pub fn growth(&self, n: u64) -> u64
        requires { n ≤ 2 ^ 62 }
        ensures { result ≡ growth_of self.now.pending n }
    {
        if self.buffer.len() == LENGTH_BYTES {
            return n + BLOCK_HEAD as u64;
        }
        n
    }

    /// Makes room for n bytes. Either way nothing else changes.
    pub fn make_room(&mut self, n: u64) -> Result<(), Memory>
        ensures ok { OnOk result (n ≤ self.new.room) }
        ensures kept { self.new ≡ record self.old { room = self.new.room } }
        ensures no_less { self.old.room ≤ self.new.room }
    {
        let Some(wanted) = n.checked_add(1) else {
            return Err(Memory);
        };
        self.buffer.reserve(wanted as usize)?;
        Ok(())
    }

    /// Adds bytes to what waits. Room was made for them.
    pub fn push(&mut self, payload: &[u8])
        requires room { length payload.now ≤ self.old.room }
        requires short { length self.old.pending + length payload.now ≤ 2 ^ 30 }
        requires place { self.old.end + 5 + length self.old.pending + length payload.now < 2 ^ 49 }
        ensures pushed { self.new ≡ record self.old { pending = self.old.pending ++ payload.now; room = self.new.room } }
        ensures room { self.old.room ≤ self.new.room + length payload.now }
    {
        let _ = self.buffer.extend_from_slice(payload);
    }
}
