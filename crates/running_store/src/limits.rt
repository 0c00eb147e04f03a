// How many objects may be in memory at a time.
ghost use Rattle.std.specs.Prelude.{◌≡◌, ◌<◌};
ghost use Rattle.formats.specs.Objects.{IsInRange};
ghost use Rattle.running_store.specs.Laid.Limits.{objects_within as within, clean_limit as clean};

use formats::Params;

/// How many objects of a store with these numbers have at most so many bytes together, however long their values are; at
/// least `least`.
pub fn objects_within(least: usize, bytes: usize, params: Params) -> usize
    requires { IsInRange params }
    ensures { result ≡ within least bytes params }
{
    least.max(bytes / params.cap as usize)
}

/// How many clean objects are cached of a store with these numbers: as many as have at most so many bytes together, at
/// least `least`, and at most all.
pub(crate) fn clean_limit(least: usize, bytes: usize, params: Params) -> usize
    requires some { 0 < least }
    requires range { IsInRange params }
    ensures is { result ≡ clean least bytes params }
    ensures some { 0 < result }
{
    objects_within(least, bytes, params).min(params.objects as usize)
}
