ghost use Rattle.std.specs.Prelude.{◌≡◌, ◌≢◌, ◌≤◌, ◌<◌, ◌+◌, ◌^◌, ◌++◌, ◌==◌, [], length, take, min, nat_le, position, true, false, if◌then◌else◌, IfOk, IsErr, OnOk, OnErr, IsErrOf, Ok, Err};
ghost use Rattle.disk_model.specs.Disk.{Rises};
ghost use Rattle.script_lines.specs.Reading.{IsNext, ReadsOn, TakesRun, still_to_give};

use crate::next::Next;
use crate::parse::MAX_LINE;
use crate::read_error::ReadError;
use disk_model::Source;
use oper_core::Memory;
use std::alloc::Global;
use std::marker::Model;

/// So many bytes are taken at most.
const MAX_INPUT: u64 = 1 << 40;

/// So many bytes are asked for at once.
const PIECE: usize = 1 << 16;

/// A line's bytes are stored up to this many: one more than a line may have, to know a long one.
const MAX_STORED: usize = MAX_LINE + 1;

/// Reads into the front of a piece.
fn read_front<S: Source>(input: &mut S, piece: &mut [u8], room: usize) -> Result<usize, ReadError>
    requires some { 0 < room }
    requires fits { room ≤ length piece.old }
    ensures count { IfOk result (λ n. n ≤ room) }
    ensures told { S.tells input.old → S.tells input.new }
    ensures bytes { S.tells input.old → IfOk result (λ n. S.left input.old ≡ take n piece.new ++ S.left input.new) }
    ensures end { S.tells input.old → result ≡ Ok 0 → S.left input.new ≡ [] }
    ensures kept { OnErr result (S.left input.new ≡ S.left input.old) }
    ensures later { S.faults input.old ≤ S.faults input.new }
    ensures cause { IsErr result → Rises (S.faults input.old) (S.faults input.new) }
    ensures error { OnErr result (result ≡ Err ReadError.ReadFault) }
{
    match input.read(&mut piece[..room]) {
        Ok(count) => Ok(count),
        Err(_) => Err(ReadError::ReadFault),
    }
}

/// The place of the first newline.
fn newline_in(bytes: &[u8]) -> Option<usize>
    ensures { result ≡ position (λ byte. byte == 10) bytes.now }
{
    bytes.iter().position(|byte| *byte == b'\n')
}

/// Adds a run of bytes to a line, as far as they are stored.
fn push_run(line: &mut Vec<u8>, run: &[u8]) -> Result<(), Memory>
    requires { length line.old.items ≤ 40001 }
    ensures line { OnOk result (line.new.items ≡ take 40001 (line.old.items ++ run.now)) }
    ensures short { length line.new.items ≤ 40001 }
{
    let count = run.len().min(MAX_STORED - line.len());
    line.extend_from_slice(&run[..count])?;
    Ok(())
}

/// Takes lines off a source, in pieces.
#[derive(Drop)]
pub struct LineReader {
    piece: Vec<u8>,
    start: usize,
    stop: usize,
    stored: Vec<u8>,
    count: u64,
}

impl Model for LineReader {
    ghost use Rattle.script_lines.specs.Reader.{Reader, IsReader, unread};

    ghost Value = { Reader };

    ghost view = { λ r. record { ahead = unread r.piece.items r.start r.stop; line = r.stored.items; taken = r.count } };

    ghost invariant = { λ r. IsReader r.piece.items r.start r.stop r.stored.items r.count };
}

impl LineReader {
    /// A reader that has taken nothing.
    pub fn new(alloc: Global) -> Result<LineReader, Memory>
        ensures { IfOk result (λ r. (r.ahead ≡ []) × (r.taken ≡ 0)) }
    {
        Ok(LineReader {
            piece: vec![in alloc; 0; PIECE]?,
            start: 0,
            stop: 0,
            stored: Vec::new(alloc),
            count: 0,
        })
    }

    /// The line that was found last.
    pub fn line(&self) -> &[u8]
        ensures { result.now ≡ self.now.line }
    {
        self.stored.as_slice()
    }

    /// Sees to it that a byte is ahead. `false` at the end of the input.
    fn fill<S: Source>(&mut self, input: &mut S) -> Result<bool, ReadError>
        ensures told { S.tells input.old → S.tells input.new }
        ensures there { result ≡ Ok true → self.new.ahead ≢ [] }
        ensures same { S.tells input.old → self.new.ahead ++ S.left input.new ≡ self.old.ahead ++ S.left input.old }
        ensures end { S.tells input.old → result ≡ Ok false → self.new.ahead ++ S.left input.new ≡ [] }
        ensures before { result ≡ Ok false → self.new.taken < 2 ^ 40 }
        ensures line { self.new.line ≡ self.old.line }
        ensures measure { still_to_give self.new ≡ still_to_give self.old }
        ensures takes { S.tells input.old → ReadsOn (S.left input.old) (S.left input.new) self.old.taken self.new.taken }
        ensures later { S.faults input.old ≤ S.faults input.new }
        ensures fault { IsErrOf result ReadError.ReadFault → Rises (S.faults input.old) (S.faults input.new) }
        ensures long { IsErrOf result ReadError.TooLong → self.new.taken ≡ 2 ^ 40 }
        ensures memory { result ≢ Err ReadError.Memory }
    {
        if self.start < self.stop {
            return Ok(true);
        }
        if self.count >= MAX_INPUT {
            return Err(ReadError::TooLong);
        }
        let room = (MAX_INPUT - self.count).min(PIECE as u64) as usize;
        let count = read_front(input, self.piece.as_mut_slice(), room)?;
        self.start = 0;
        self.stop = count;
        self.count += count as u64;
        Ok(count > 0)
    }

    /// Moves what is ahead into the line, up to the newline. `true`: a newline ended the line.
    fn take_run(&mut self) -> Result<bool, Memory>
        ensures run { IfOk result (λ ended. TakesRun self.old self.new ended) }
        ensures less { self.old.ahead ≢ [] → IfOk result (λ _. still_to_give self.new < still_to_give self.old) }
        ensures taken { self.new.taken ≡ self.old.taken }
    {
        let ahead = &self.piece[self.start..self.stop];
        match newline_in(ahead) {
            Some(place) => {
                push_run(&mut self.stored, &ahead[..place])?;
                self.start += place + 1;
                Ok(true)
            }
            None => {
                push_run(&mut self.stored, ahead)?;
                self.start = self.stop;
                Ok(false)
            }
        }
    }

    /// Whether the line that was found is short enough.
    fn found(&self) -> Next
        ensures { result ≡ (if nat_le (length self.now.line) 40000 then Next.Line else Next.Long) }
    {
        if self.stored.len() <= MAX_LINE {
            Next::Line
        } else {
            Next::Long
        }
    }

    /// Takes the next line off the source, to its newline or to the end of the input. Fails where the source does,
    /// where 2^40 bytes were taken and the end of the input was not read, and where it is out of memory.
    #[tactic(auto, using(crate::proofs::LineLemmas::takes_on))]
    pub fn next<S: Source>(&mut self, input: &mut S) -> Result<Next, ReadError>
        ensures told { S.tells input.old → S.tells input.new }
        ensures next { S.tells input.old → IfOk result (λ next. IsNext next self.new.line
            (self.old.ahead ++ S.left input.old) (self.new.ahead ++ S.left input.new)) }
        ensures before { result ≡ Ok Next.End → self.new.taken < 2 ^ 40 }
        ensures takes { S.tells input.old → ReadsOn (S.left input.old) (S.left input.new) self.old.taken self.new.taken }
        ensures less { IfOk result (λ next. next ≢ Next.End → still_to_give self.new < still_to_give self.old) }
        ensures later { S.faults input.old ≤ S.faults input.new }
        ensures fault { IsErrOf result ReadError.ReadFault → Rises (S.faults input.old) (S.faults input.new) }
        ensures long { IsErrOf result ReadError.TooLong → self.new.taken ≡ 2 ^ 40 }
    {
        self.stored.clear();
        loop {
            if !self.fill(input)? {
                return Ok(if self.line().is_empty() {
                    Next::End
                } else {
                    self.found()
                });
            }
            if self.take_run()? {
                return Ok(self.found());
            }
        }
    }
}
