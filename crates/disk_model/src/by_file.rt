// A part for each of the three files.
ghost use Rattle.std.specs.Prelude.{◌≡◌};
ghost use Rattle.std.specs.Borrow.{sem};
ghost use Rattle.disk_model.specs.ByFile.{part_of, lends_part};

use crate::FileNo;

/// What a machine keeps of each of its files, found by the number of the file.
#[derive(Drop)]
pub struct ByFile<T> {
    pub objects: T,
    pub log_a: T,
    pub log_b: T,
}

impl<T> ByFile<T> {
    pub fn get(&self, file: FileNo) -> &T
        ensures { result.now ≡ part_of self.now file }
    {
        match file {
            FileNo::Objects => &self.objects,
            FileNo::LogA => &self.log_a,
            FileNo::LogB => &self.log_b,
        }
    }

    pub fn get_mut(&mut self, file: FileNo) -> &mut T
        ensures* writes_back { sem 𝓛 (lends_part T.row self.entry file result) }
        ensures value { result.now ≡ part_of self.old file }
    {
        match file {
            FileNo::Objects => &mut self.objects,
            FileNo::LogA => &mut self.log_a,
            FileNo::LogB => &mut self.log_b,
        }
    }
}
