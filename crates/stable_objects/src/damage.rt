// Reports damage of the objects file.
ghost use Rattle.std.specs.Prelude.{◌≡◌};
ghost use Rattle.disk_model.specs.declared.machine.FileNo.TheVariants.{Objects};
ghost use Rattle.formats.specs.declared.read_err.ReadErr.TheVariants.{Damaged as BrokenAt};

use disk_model::FileNo;
use formats::ReadErr;

/// The objects file breaks its format at this place.
pub fn damaged_at(place: u64) -> ReadErr
    ensures { result ≡ BrokenAt Objects place }
{
    ReadErr::Damaged {
        file: FileNo::Objects,
        place,
    }
}
