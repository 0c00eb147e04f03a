// Files whose bytes are another's.
ghost use Rattle.std.specs.Prelude.{◌≡◌};
ghost use Rattle.disk_model.specs.declared.machine.FileNo.{FileNo as File};
ghost use Rattle.write_queue.specs.Handed.{handed};
ghost use Rattle.write_queue.specs.Lent.{AreShort, lent_files};

use disk_model::FileNo;

/// The bytes of three files, which are lent.
#[derive(Drop)]
pub struct Lent<'a> {
    objects: &'a [u8],
    log_a: &'a [u8],
    log_b: &'a [u8],
}

impl<'a> Lent<'a> {
    /// Files that hold these bytes.
    pub fn new(objects: &'a [u8], log_a: &'a [u8], log_b: &'a [u8]) -> Lent<'a>
        ensures files { (file : File) → lent_files result file ≡ handed objects.now log_a.now log_b.now file }
        ensures short { AreShort (lent_files result) }
    {
        // The lengths are read for what they say: each is a number of 64 bits.
        let _lengths = [objects.len(), log_a.len(), log_b.len()];
        Lent {
            objects,
            log_a,
            log_b,
        }
    }

    /// What a file holds.
    pub fn bytes(&self, file: FileNo) -> &[u8]
        ensures { result.now ≡ lent_files self.now file }
    {
        match file {
            FileNo::Objects => self.objects,
            FileNo::LogA => self.log_a,
            FileNo::LogB => self.log_b,
        }
    }
}
