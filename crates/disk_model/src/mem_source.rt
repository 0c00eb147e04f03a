// Input in memory, whose reads fail as was planned.
ghost use Rattle.std.specs.Prelude.{◌≡◌, ◌↔◌, ◌<◌, ◌≤◌, ◌+◌, ◌-◌, ◌^◌, ◌++◌, length, min, take, vec_len, IfOk, OnOk, OnErr, IsErr, IsOkAnd, IsTrue};

use crate::copying::copy_from;
use crate::count::{count_call, is_among};
use crate::{Failed, Source};
use std::alloc::AllocError;

/// Input that is all there at first. Read number `c`, from 1 on, fails exactly where `fails` holds `c`.
#[derive(Drop)]
pub struct MemSource {
    bytes: Vec<u8>,
    taken: usize,
    fails: Vec<u64>,
    reads: u64,
    faults: u64,
    ghost within: { taken ≤ vec_len bytes },
}

impl MemSource {
    ghost use Rattle.disk_model.specs.Input.{left_of, reads_made, failing_reads, faults_of, NextReadFails};

    /// It takes no memory, since it keeps what it is given.
    pub fn new(bytes: Vec<u8>, fails: Vec<u64>) -> Result<MemSource, AllocError>
        ensures left { IsOkAnd result (λ s. left_of s ≡ bytes.items) }
        ensures reads { IfOk result (λ s. reads_made s ≡ 0) }
        ensures failing { IfOk result (λ s. failing_reads s ≡ fails.items) }
        ensures faults { IfOk result (λ s. faults_of s ≡ 0) }
    {
        Ok(MemSource {
            bytes,
            taken: 0,
            fails,
            reads: 0,
            faults: 0,
        })
    }

    /// How many reads failed.
    pub fn read_faults(&self) -> u64
        ensures { result ≡ faults_of self.now }
    {
        self.faults
    }

    fn next_fails(&self) -> bool
        ensures { IsTrue result ↔ NextReadFails self.now }
    {
        self.reads < u64::MAX && is_among(&self.fails, self.reads + 1)
    }
}

impl Source for MemSource {
    ghost use Rattle.disk_model.specs.Disk.{Rises};
    ghost use Rattle.disk_model.specs.Input.{left_of, reads_made, failing_reads, faults_of, NextReadFails, CountsRead};

    ghost tells = { λ s. Unit {0} };

    ghost left = { left_of };

    ghost faults = { faults_of };

    fn read(&mut self, into: &mut [u8]) -> Result<usize, Failed>
        ensures told { Unit {0} }
        ensures fits { IfOk result (λ n. n ≤ length into.old) }
        ensures bytes { IfOk result (λ n. left_of self.old ≡ take n into.new ++ left_of self.new) }
        ensures some { IfOk result (λ n. 0 < min (length into.old) (length (left_of self.old)) → 0 < n) }
        ensures kept { IsErr result → left_of self.new ≡ left_of self.old }
        ensures later { faults_of self.old ≤ faults_of self.new }
        ensures cause { IsErr result → Rises (faults_of self.old) (faults_of self.new) }

        ensures fails { IsErr result ↔ NextReadFails self.old }
        ensures counts { CountsRead self.old self.new }
        ensures ok { OnOk result (faults_of self.new ≡ faults_of self.old) }
        ensures err { OnErr result (faults_of self.new ≡ min (faults_of self.old + 1) (2 ^ 64 - 1)) }
    {
        let fails = self.next_fails();
        count_call(&mut self.reads, &mut self.faults, fails)?;
        let count = copy_from(&self.bytes, self.taken, into);
        self.taken += count;
        Ok(count)
    }
}
