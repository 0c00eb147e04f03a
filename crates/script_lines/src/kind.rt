ghost use Rattle.std.specs.Prelude.{◌≡◌, ◌<◌};
ghost use Rattle.script_lines.specs.DemoScript.{kind_of};

/// What a line of the demo's script asks.
#[derive(Clone, Copy)]
pub enum Kind {
    Put,
    Copy,
    Append,
    Cut,
    Sort,
    Swap,
    AppRead,
    Exec,
    AppWrite,
    Get,
    /// One of `install`, `drain`, `checkpoint` and `force`.
    Upkeep,
}

/// A sixteenth of the lines for each of these.
const KINDS: [Kind; 16] = [
    Kind::Put,
    Kind::Put,
    Kind::Put,
    Kind::Put,
    Kind::Put,
    Kind::Copy,
    Kind::Copy,
    Kind::Append,
    Kind::Cut,
    Kind::Sort,
    Kind::Swap,
    Kind::AppRead,
    Kind::Exec,
    Kind::AppWrite,
    Kind::Get,
    Kind::Upkeep,
];

/// The kind of the number.
pub fn kind_of(k: u64) -> Kind
    requires { k < 16 }
    ensures { result ≡ kind_of k }
{
    KINDS[k as usize]
}
