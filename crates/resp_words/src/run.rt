ghost use Rattle.resp_words.specs.Runs.{IsCut, is_kind};

use crate::kind::Kind;

/// The bytes of a kind in front, and what follows them.
pub(crate) fn split_run(kind: Kind, bytes: &[u8]) -> (&[u8], &[u8])
    ensures { IsCut (is_kind kind) bytes.now result.0.now result.1.now }
{
    for place in 0..bytes.len() {
        if !kind.has(bytes[place]) {
            return bytes.split_at(place);
        }
    }
    bytes.split_at(bytes.len())
}
