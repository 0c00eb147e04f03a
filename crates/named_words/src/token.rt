ghost use Rattle.std.specs.Prelude.{◌≡◌, ◌<◌, ◌≤◌, List, IfNone, IfSome, [], ◌∷◌, drop, false, length, true, ℕ};
ghost use Rattle.named_words.specs.Patterns;
ghost use Rattle.named_words.specs.Patterns.{Piece, class_at, fits_pieces, is_in, pieces_of, with_span};
ghost use Rattle.named_words.specs.Tokens;
ghost use Rattle.named_words.specs.Tokens.{cut_of, fits_one, piece_of};

/// A piece of a pattern.
#[derive(Clone, Copy)]
pub(crate) enum Token<'a> {
    /// Any bytes.
    Star,
    /// Any byte.
    Any,
    /// This byte.
    Byte(u8),
    /// A byte of the class that begins here.
    Inside(&'a [u8]),
    /// A byte outside it.
    Outside(&'a [u8]),
}

// The first bytes of a class, from one to another, and what follows them; `None` behind the last.
fn next_span(class: &[u8]) -> Option<(u8, u8, &[u8])>
    ensures some { IfSome result (λ x. class_at class.now ≡ with_span x.0 x.1 (class_at x.2.now)) }
    ensures none { IfNone result (class_at class.now ≡ ([], drop 1 class.now)) }
    ensures less { IfSome result (λ x. length x.2.now < length class.now) }
{
    let (first, rest) = class.split_first()?;
    if *first == b']' {
        return None;
    }
    let Some((second, behind)) = rest.split_first() else {
        return Some((*first, *first, rest));
    };
    if *first == b'\\' {
        return Some((*second, *second, behind));
    }
    if *second != b'-' {
        return Some((*first, *first, rest));
    }
    let Some((last, end)) = behind.split_first() else {
        return Some((*first, *first, rest));
    };
    Some(((*first).min(*last), (*first).max(*last), end))
}

// Tells whether a byte is in a class.
fn has(class: &[u8], byte: u8) -> bool
    ensures { result ≡ is_in (class_at class.now).0 byte }
{
    let mut class = class;
    while let Some((low, high, rest)) = next_span(class) {
        if low <= byte && byte <= high {
            return true;
        }
        class = rest;
    }
    false
}

// What follows a class.
fn behind_class(class: &[u8]) -> &[u8]
    ensures value { result.now ≡ (class_at class.now).1 }
    ensures less { length result.now ≤ length class.now }
{
    let mut class = class;
    while let Some((_, _, rest)) = next_span(class) {
        class = rest;
    }
    match class.split_first() {
        Some((_, rest)) => rest,
        None => class,
    }
}

// The piece behind a bracket that opens a class, and what follows it.
fn class_token(text: &[u8]) -> (Token<'_>, &[u8])
    ensures value { cut_of result ≡ Patterns.class_piece text.now }
    ensures less { length result.1.now ≤ length text.now }
{
    let Some((first, rest)) = text.split_first() else {
        return (Token::Inside(text), text);
    };
    if *first == b'^' {
        return (Token::Outside(rest), behind_class(rest));
    }
    (Token::Inside(text), behind_class(text))
}

// The piece behind a backslash, and what follows it.
fn escaped(text: &[u8]) -> (Token<'_>, &[u8])
    ensures value { cut_of result ≡ Patterns.escaped text.now }
    ensures less { length result.1.now ≤ length text.now }
{
    match text.split_first() {
        Some((byte, rest)) => (Token::Byte(*byte), rest),
        None => (Token::Byte(b'\\'), text),
    }
}

// The piece that begins with a byte, and what follows it.
fn token_at(first: u8, rest: &[u8]) -> (Token<'_>, &[u8])
    ensures value { cut_of result ≡ Patterns.piece_at first rest.now }
    ensures less { length result.1.now ≤ length rest.now }
{
    match first {
        b'*' => (Token::Star, rest),
        b'?' => (Token::Any, rest),
        b'[' => class_token(rest),
        b'\\' => escaped(rest),
        _ => (Token::Byte(first), rest),
    }
}

/// The first piece of a pattern, and what follows it; `None` at its end.
pub(crate) fn next_token(pattern: &[u8]) -> Option<(Token<'_>, &[u8])>
    ensures some { IfSome result (λ x. pieces_of pattern.now ≡ piece_of x.0 ∷ pieces_of x.1.now) }
    ensures none { IfNone result (pattern.now ≡ []) }
    ensures less { IfSome result (λ x. length x.1.now < length pattern.now) }
{
    let (first, rest) = pattern.split_first()?;
    Some(token_at(*first, rest))
}

impl Token<'_> {
    /// Tells whether it stands for any bytes.
    pub(crate) fn is_star(&self) -> bool
        ensures { result ≡ Tokens.is_star (piece_of self.now) }
    {
        match self {
            Token::Star => true,
            _ => false,
        }
    }

    // Tells whether one byte is as the piece says.
    fn fits(&self, byte: u8) -> bool
        ensures { result ≡ fits_one (piece_of self.now) byte }
    {
        match self {
            Token::Star => false,
            Token::Any => true,
            Token::Byte(only) => byte == *only,
            Token::Inside(class) => has(class, byte),
            Token::Outside(class) => !has(class, byte),
        }
    }

    /// What follows the first byte of a text, where the piece is one byte, and this one is as it says.
    pub(crate) fn behind_byte<'t>(&self, text: &'t [u8]) -> Option<&'t [u8]>
        requires { Tokens.is_star (piece_of self.now) ≡ false }
        ensures some { IfSome result (λ rest. (byte : ℕ) × (text.now ≡ byte ∷ rest.now) × (fits_one (piece_of self.now) byte ≡ true)) }
        ensures none { IfNone result ((pieces : List Piece) → fits_pieces (piece_of self.now ∷ pieces) text.now ≡ false) }
    {
        let Some((byte, rest)) = text.split_first() else {
            return None;
        };
        if !self.fits(*byte) {
            return None;
        }
        Some(rest)
    }
}
