// Whether maps of a store can be changed.
ghost use Rattle.std.specs.Prelude.{◌≡◌, option_map};
ghost use Rattle.std.specs.Result.{result_err};
ghost use Rattle.formats.specs.Objects.{bounds_of};
ghost use Rattle.range_calls.specs.declared.call_err.CallErr.TheVariants.{Refused};
ghost use Rattle.map_client.specs.Changing.{closed_by};

use crate::call_refusal::CallRefusal;
use crate::map_err::MapErr;
use op_codec::AllOps;
use page_map::Map;
use range_calls::CallErr;
use store_calls::Store;

/// Values of maps may hold so many bytes at least.
const LEAST_CAP: u32 = 1_024;

/// That the store has the range, and admits changes of maps.
pub(crate) fn require_open<S: Store<AllOps>>(map: &Map, store: &S) -> Result<(), MapErr>
    ensures { result_err result ≡ option_map Refused (closed_by (bounds_of (S.view.params store.now)) map.now.hi) }
{
    let params = store.params();
    if map.last() >= params.objects {
        return Err(CallErr::Refused(CallRefusal::NoObject));
    }
    if !params.more || params.cap < LEAST_CAP {
        return Err(CallErr::Refused(CallRefusal::NoPages));
    }
    Ok(())
}
