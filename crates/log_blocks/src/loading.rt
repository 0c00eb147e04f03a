// Finds the log in its files.
ghost use Rattle.std.specs.Prelude.{◌≡◌, ◌≢◌, ◌⊎◌, Some, IfSome, ◌<◌, ◌↔◌, take, drop, codes, [], List, ℕ, IsTrue, IfErr, IfOk};
ghost use Rattle.disk_model.specs.Disk.{Rises, Stays, Files};
ghost use Rattle.disk_model.specs.declared.machine.FileNo.TheVariants.{Objects, LogA, LogB};
ghost use Rattle.formats.specs.Log.{Header as Fields, header_bytes, IsHeader, end_of};
ghost use Rattle.disk_model.specs.declared.machine.FileNo.{FileNo};
ghost use Rattle.formats.specs.InForce.{HoldsLog};
ghost use Rattle.log_blocks.specs.Choosing.{SeenIn, IsChosen};
ghost use Rattle.formats.specs.Bytes.{IsOpenAt};
ghost use Rattle.formats.specs.FirstFault.{NoMore, LogChecks, IsFirstHeaderFault, IsFirstLogFault};
ghost use Rattle.formats.specs.Reading.{FailsBy, TellsDamage};
ghost use Rattle.log_blocks.specs.Reading.{header_of};

use crate::LogFile;
use crate::header::Header;
use crate::layout::{
    BASE_PLACE, COMMANDS_PLACE, EPOCH_PLACE, FIRST_BLOCK, HEADER_BYTES, LENGTH_BYTES, MAGIC,
    MAGIC_PLACE, OPEN,
};
use crate::reading::first_closed;
use crate::seen::Seen;
use byteorder::{ByteOrder, LittleEndian};
use disk_model::{FileNo, Machine, read_padded};
use formats::{BLOCK_HEAD, LSN_END, ReadErr};
use std::alloc::Global;

fn has_magic(head: &[u8; HEADER_BYTES]) -> bool
    ensures { IsTrue result ↔ (take 8 (drop 1 head.now) ≡ codes "RDOLOG01") }
{
    head[1..9] == MAGIC[..]
}

// What the bytes of a header say.
fn parse_header(file: FileNo, head: &[u8; HEADER_BYTES]) -> Result<Header, ReadErr>
    requires { IsOpenAt 0 head.now }
    ensures ok { IfOk result (λ h. IsHeader (header_of h) × (head.now ≡ header_bytes (header_of h))) }
    ensures cause { IfErr result (FailsBy ⊥ (λ f place. (f ≡ file) × LogChecks head.now NoMore place)) }
{
    let damaged_at = |place: u64| -> Result<Header, ReadErr>
        ensures { result ≡ Err (ReadErr.Damaged file place) }
    { Err(ReadErr::Damaged { file, place }) };
    if !has_magic(head) {
        return damaged_at(MAGIC_PLACE);
    }
    let epoch = LittleEndian::read_u64(&head[9..]);
    if epoch == 0 || epoch > LSN_END {
        return damaged_at(EPOCH_PLACE);
    }
    let base = LittleEndian::read_u64(&head[17..]);
    if base == 0 || base > LSN_END {
        return damaged_at(BASE_PLACE);
    }
    let commands = LittleEndian::read_u64(&head[25..]);
    if commands >= base {
        return damaged_at(COMMANDS_PLACE);
    }
    Ok(Header {
        epoch,
        base,
        commands,
    })
}

// The header and the length of a log file, or none where its header gate is closed. The header is read once.
fn read_header<M: Machine>(machine: &mut M, file: FileNo) -> Result<Option<Seen>, ReadErr>
    requires { file ≢ Objects }
    ensures kept { Stays (M.disk machine.old) (M.disk machine.new) }
    ensures inside { IfOk result (λ found. IfSome found (λ seen. (33 < seen.size) × IsHeader (header_of seen.header) × (seen.file ≡ file))) }
    ensures seen { (files : Files) → (M.disk machine.new).agrees files → IfOk result (SeenIn (files file)) }
    ensures cause { IfErr result (FailsBy (Rises (M.disk machine.old).disk_faults (M.disk machine.new).disk_faults)
        (λ f place. (f ≡ file) × ((files : Files) → (M.disk machine.new).agrees files → IsFirstHeaderFault (files file) place))) }
{
    let size = machine.size(file)?;
    if size == 0 {
        return Err(ReadErr::Damaged { file, place: 0 });
    }
    let mut head = [0; HEADER_BYTES];
    read_padded(machine, file, 0, &mut head)?;
    if head[0] != OPEN {
        return Ok(None);
    }
    let header = parse_header(file, &head)?;
    if size <= FIRST_BLOCK {
        return Err(ReadErr::Damaged {
            file,
            place: FIRST_BLOCK,
        });
    }
    Ok(Some(Seen { file, header, size }))
}

// The log in force: the one that is open, of two the one with the greater epoch.
fn choose(a: Option<Seen>, b: Option<Seen>) -> Result<Seen, ReadErr>
    ensures one { IfOk result (λ seen. (a ≡ Some seen) ⊎ (b ≡ Some seen)) }
    ensures chosen { (files : Files) → IfSome a (λ seen. seen.file ≡ LogA) → IfSome b (λ seen. seen.file ≡ LogB) → SeenIn (files LogA) a → SeenIn (files LogB) b → IfOk result (IsChosen files) }
    ensures cause { IfErr result (FailsBy ⊥ (λ f place. (files : Files) → SeenIn (files LogA) a → SeenIn (files LogB) b → IsFirstLogFault files f place)) }
{
    match a {
        None => match b {
            None => Err(ReadErr::Damaged {
                file: FileNo::LogA,
                place: 0,
            }),
            Some(second) => Ok(second),
        },
        Some(first) => match b {
            None => Ok(first),
            Some(second) => {
                if first.header.epoch == second.header.epoch {
                    return Err(ReadErr::Damaged {
                        file: FileNo::LogB,
                        place: EPOCH_PLACE,
                    });
                }
                if first.header.epoch > second.header.epoch {
                    return Ok(first);
                }
                Ok(second)
            }
        },
    }
}

impl LogFile {
    /// The log in force.
    pub fn load<M: Machine>(alloc: Global, machine: &mut M) -> Result<LogFile, ReadErr>
        ensures kept { Stays (M.disk machine.old) (M.disk machine.new) }
        ensures read { (files : Files) → (M.disk machine.new).agrees files → IfOk result (λ log. (payloads : List (List ℕ))
            × HoldsLog log.active log.header payloads files × (log.end ≡ end_of payloads) × (log.pending ≡ [])) }
        ensures header { IfOk result (λ log. IsHeader log.header) }
        ensures undamaged { (files : Files) → (M.disk machine.new).agrees files → (active : FileNo) (header : Fields) (payloads : List (List ℕ))
            → HoldsLog active header payloads files → IfErr result (λ e. TellsDamage e → ⊥) }
        ensures cause { IfErr result (FailsBy (Rises (M.disk machine.old).disk_faults (M.disk machine.new).disk_faults)
            (λ file place. (files : Files) → (M.disk machine.new).agrees files → IsFirstLogFault files file place)) }
    {
        let a = read_header(machine, FileNo::LogA)?;
        let b = read_header(machine, FileNo::LogB)?;
        let seen = choose(a, b)?;
        let end = first_closed(machine, seen.file, seen.size)?;
        let mut buffer = Vec::with_capacity(alloc, BLOCK_HEAD)?;
        buffer.extend_from_slice(&[0; LENGTH_BYTES])?;
        Ok(LogFile {
            active: seen.file,
            header: seen.header,
            end,
            buffer,
            filled: seen.size,
            growths: 0,
        })
    }
}
