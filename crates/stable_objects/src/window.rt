// A window on the objects file, so that one read gives the heads of many slots.
ghost use Rattle.std.specs.Prelude.{◌≡◌, ◌<◌, ◌≤◌, ◌+◌, ◌^◌, length, IfOk, IfErr, IfSome, IsSome, OnOk, IsErr};
ghost use Rattle.disk_model.specs.Disk.{Files, Rises, Stays};
ghost use Rattle.disk_model.specs.Padded.{padded};
ghost use Rattle.disk_model.specs.declared.machine.FileNo.TheVariants.{Objects};
ghost use Rattle.formats.specs.Reading.{FailsBy};
ghost use Rattle.stable_objects.specs.Heads.{ShowsFile};
ghost use Rattle.stable_objects.specs.Reading.{FailsAt};

use crate::layout::SLOT_HEAD_BYTES;
use disk_model::{Failed, FileNo, Machine, read_padded};
use formats::{Layout, ReadErr};
use std::alloc::Global;

// So many bytes are read at once.
const MOST_BYTES: u64 = 1 << 16;

// With a greater CAP each head is read by itself: to read what stands between two of them takes longer than a call.
const NEAR_CAP: u32 = 4096;

/// The bytes of the objects file from a place on. One past the file's end counts as 0.
#[derive(Drop)]
pub struct Window {
    place: u64,
    bytes: Vec<u8>,
}

// How many bytes of a file of this size are read at once.
fn window_bytes(cap: u32, size: u64) -> usize
    ensures head { 13 ≤ result }
    ensures few { result ≤ 65536 }
{
    if cap > NEAR_CAP {
        return SLOT_HEAD_BYTES as usize;
    }
    size.clamp(SLOT_HEAD_BYTES, MOST_BYTES) as usize
}

impl Window {
    /// A window that begins at the first slot of a file of this size.
    pub fn open<M: Machine>(
        alloc: Global,
        machine: &mut M,
        layout: Layout,
        size: u64,
    ) -> Result<Window, ReadErr>
        ensures kept { Stays (M.disk machine.old) (M.disk machine.new) }
        ensures shows { IfOk result (λ w. ShowsFile (M.disk machine.new) w.place w.bytes.items) }
        ensures cause { IfErr result (FailsBy (Rises (M.disk machine.old).disk_faults (M.disk machine.new).disk_faults) (FailsAt (λ at. ⊥))) }
    {
        let mut bytes = vec![in alloc; 0; window_bytes(layout.params.cap, size)]?;
        read_padded(machine, FileNo::Objects, layout.first, &mut bytes)?;
        Ok(Window {
            place: layout.first,
            bytes,
        })
    }

    /// The head of the slot at a place. The window moves there where the head is not in it.
    pub fn head_at<M: Machine>(
        &mut self,
        machine: &mut M,
        place: u64,
    ) -> Result<[u8; SLOT_HEAD_BYTES as usize], Failed>
        requires shows { ShowsFile (M.disk machine.old) self.old.place self.old.bytes.items }
        requires small { place < 2 ^ 40 }
        ensures kept { Stays (M.disk machine.old) (M.disk machine.new) }
        ensures shows { OnOk result (ShowsFile (M.disk machine.new) self.new.place self.new.bytes.items) }
        ensures head { (files : Files) → (M.disk machine.new).agrees files → IfOk result (λ head. head ≡ padded (files Objects) place 13) }
        ensures cause { IsErr result → Rises (M.disk machine.old).disk_faults (M.disk machine.new).disk_faults }
    {
        let from = self.reach(machine, place)?;
        let mut head = [0; SLOT_HEAD_BYTES as usize];
        head.copy_from_slice(&self.bytes[from..from + SLOT_HEAD_BYTES as usize]);
        Ok(head)
    }

    // Sees to it that the head at a place is in the window, and answers how far after its start.
    fn reach<M: Machine>(&mut self, machine: &mut M, place: u64) -> Result<usize, Failed>
        requires shows { ShowsFile (M.disk machine.old) self.old.place self.old.bytes.items }
        requires small { place < 2 ^ 40 }
        ensures kept { Stays (M.disk machine.old) (M.disk machine.new) }
        ensures shows { OnOk result (ShowsFile (M.disk machine.new) self.new.place self.new.bytes.items) }
        ensures within { IfOk result (λ from. (self.new.place + from ≡ place) × (from + 13 ≤ length self.new.bytes.items)) }
        ensures cause { IsErr result → Rises (M.disk machine.old).disk_faults (M.disk machine.new).disk_faults }
    {
        if let Some(from) = self.find(place) {
            return Ok(from);
        }
        read_padded(machine, FileNo::Objects, place, &mut self.bytes)?;
        self.place = place;
        Ok(0)
    }

    // How far after the window's start the head at a place is, if the window has all of it.
    fn find(&self, place: u64) -> Option<usize>
        requires { place < 2 ^ 40 }
        ensures some { IfSome result (λ from. (self.now.place + from ≡ place) × (from + 13 ≤ length self.now.bytes.items)) }
        ensures exact { self.now.place ≤ place → place + 13 ≤ self.now.place + length self.now.bytes.items → IsSome result }
    {
        let from = place.checked_sub(self.place)?;
        let end = from + SLOT_HEAD_BYTES;
        (end <= self.bytes.len() as u64).then_some(from as usize)
    }
}
