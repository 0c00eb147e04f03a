ghost use Rattle.std.specs.Prelude.{◌≡◌};
ghost use Rattle.resp_words.specs.Runs.{is_kind};

/// The kinds of bytes that are looked for side by side.
#[derive(Clone, Copy)]
pub(crate) enum Kind {
    /// A digit.
    Digit,
    /// What parts the words of a line: a space, a tab, a carriage return.
    Blank,
    /// Each other byte.
    Solid,
    /// What may stand in a line: a blank, or a byte that is no control byte and no quotation mark.
    Plain,
}

// Tells whether a byte parts words.
fn is_blank(byte: u8) -> bool
    ensures { result ≡ Rattle.resp_words.specs.Runs.is_blank byte }
{
    byte == b' ' || byte == b'\t' || byte == b'\r'
}

impl Kind {
    /// Tells whether a byte is of this kind.
    pub(crate) fn has(self, byte: u8) -> bool
        ensures { result ≡ is_kind self byte }
    {
        match self {
            Kind::Digit => byte >= b'0' && byte <= b'9',
            Kind::Blank => is_blank(byte),
            Kind::Solid => !is_blank(byte),
            Kind::Plain => is_blank(byte) || (byte > b' ' && byte != b'"' && byte != b'\''),
        }
    }
}
