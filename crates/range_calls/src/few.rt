ghost use Rattle.std.specs.Prelude.{◌≡◌, ◌==◌, ◌++◌, length};
ghost use Rattle.range_calls.specs.Few.{if_any};

use op_codec::AllOps;
use std::marker::Model;

/// At most three commands, in their order.
#[derive(Drop)]
pub struct Few {
    first: Option<AllOps>,
    second: Option<AllOps>,
    third: Option<AllOps>,
}

impl Model for Few {
    ghost use Rattle.std.specs.Prelude.{List, ◌++◌};
    ghost use Rattle.range_calls.specs.Few.{if_any};
    ghost use Rattle.range_calls.specs.Store.{Command};

    ghost Value = { List Command };

    ghost view = { λ f. if_any f.first ++ (if_any f.second ++ if_any f.third) };
}

impl Few {
    /// The commands that there are.
    pub fn new(first: Option<AllOps>, second: Option<AllOps>, third: Option<AllOps>) -> Self
        ensures { result ≡ if_any first ++ (if_any second ++ if_any third) }
    {
        Few {
            first,
            second,
            third,
        }
    }

    /// Whether there is none.
    pub fn is_empty(&self) -> bool
        ensures { result ≡ (length self.now == 0) }
    {
        self.first.is_none() && self.second.is_none() && self.third.is_none()
    }

    /// The commands one by one.
    pub(crate) fn into_parts(self) -> (Option<AllOps>, Option<AllOps>, Option<AllOps>)
        ensures { if_any result.0 ++ (if_any result.1 ++ if_any result.2) ≡ self }
    {
        (self.first, self.second, self.third)
    }
}
