// All that is not forced is given up.
ghost use Rattle.std.specs.Prelude.{IfNone, IfSome};
ghost use Rattle.embed_c.specs.GivenUp.{IsReopened, LosesUnforced};

use crate::answer::Answer;
use crate::giving_up::{boxed, brought_back};
use crate::session::Session;

impl Session {
    // Gives up all that is not forced. Where the files are not opened again there is no session any more.
    pub(crate) fn reopen(self) -> Option<Box<Session>>
        ensures some { IfSome result (λ session. IsReopened self session.value) }
        ensures none { IfNone result (LosesUnforced self.store) }
    {
        let Session {
            alloc,
            store,
            taken,
            detail: _,
            pairs,
            staging,
            snapshot,
            pace,
        } = self;
        match store.reopen() {
            Ok(store) => {
                let snapshot = brought_back(&store, snapshot);
                boxed(Session {
                    alloc,
                    store,
                    taken,
                    detail: Answer::done().detail,
                    pairs,
                    staging,
                    snapshot,
                    pace,
                })
            }
            Err((_, machine)) => {
                drop(machine);
                None
            }
        }
    }
}
