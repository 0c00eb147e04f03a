ghost use Rattle.std.specs.Prelude.{◌≡◌, length};
ghost use Rattle.named_words.specs.Patterns;
ghost use Rattle.named_words.specs.Patterns.{fits_pieces, pieces_of, some_end};
ghost use Rattle.named_words.specs.Tokens.{IsFront, IsLess};

use crate::token::next_token;

/// How far a pattern and a text go together up to a star.
pub(crate) enum Front<'a> {
    /// To the end of both.
    Fits,
    /// Not so far.
    Fails,
    /// To a star: the pattern behind it, and the text that it is tried on.
    Open(&'a [u8], &'a [u8]),
}

// How far a pattern and a text go together.
fn go_together<'a>(pattern: &'a [u8], text: &'a [u8]) -> Front<'a>
    ensures front { IsFront (pieces_of pattern.entry.now) text.entry.now result }
    ensures less { IsLess (length pattern.entry.now) (length text.entry.now) result }
{
    let mut pattern = pattern;
    let mut text = text;
    while let Some((token, behind)) = next_token(pattern) {
        if token.is_star() {
            return Front::Open(behind, text);
        }
        match token.behind_byte(text) {
            Some(rest) => {
                pattern = behind;
                text = rest;
            }
            None => return Front::Fails,
        }
    }
    if text.is_empty() {
        return Front::Fits;
    }
    Front::Fails
}

// Tells whether an end of a text is as a pattern says. Behind a further star only the first place counts at which the pattern
// up to it goes with the text: what a later one leaves, it leaves too.
fn some_end_fits(pattern: &[u8], text: &[u8]) -> bool
    ensures { result ≡ some_end (fits_pieces (pieces_of pattern.entry.now)) text.entry.now }
{
    let mut pattern = pattern;
    let mut text = text;
    loop {
        match go_together(pattern, text) {
            Front::Fits => return true,
            Front::Open(behind, rest) => {
                pattern = behind;
                text = rest;
            }
            Front::Fails => {
                let Some((_, rest)) = text.split_first() else {
                    return false;
                };
                text = rest;
            }
        }
    }
}

/// Tells whether a name is as a pattern says: `*` stands for any bytes, `?` for one byte, `[a-cx]` for one of these and `[^a-cx]`
/// for any other, and `\` takes the next byte as it is. It takes at most as many steps as the name has bytes times those of the
/// pattern.
pub fn matches(pattern: &[u8], name: &[u8]) -> bool
    ensures { result ≡ Patterns.matches pattern.now name.now }
{
    match go_together(pattern, name) {
        Front::Fits => true,
        Front::Fails => false,
        Front::Open(behind, rest) => some_end_fits(behind, rest),
    }
}
