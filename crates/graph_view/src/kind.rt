ghost use Rattle.std.specs.Prelude.{Some};
ghost use Rattle.graph_view.specs.Edges.{kind_text};

use std::fmt;

/// Why one operation has to be installed no later than another.
#[derive(Clone, Copy)]
pub enum Kind {
    /// The first reads what the second, a later one, writes.
    ReadWrite,
    /// Both write one object, the second after the first.
    WriteWrite,
    /// The first reads the version that the second wrote, and which is overwritten.
    LostVersion,
}

impl fmt::Display for Kind {
    ghost output = { λ kind. Some (kind_text kind) };

    fn fmt<W: fmt::Write>(&self, f: &mut fmt::Formatter<W>) -> fmt::Result {
        f.write_str(match self {
            Kind::ReadWrite => "label=\"read-write\"",
            Kind::WriteWrite => "label=\"write-write\", style=dashed",
            Kind::LostVersion => "label=\"lost version\", style=dotted",
        })
    }
}
