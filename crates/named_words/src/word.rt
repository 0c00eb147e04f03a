ghost use Rattle.std.specs.Prelude.{◌≡◌};
ghost use Rattle.named_words.specs.Verbs;

/// Tells whether a text is a word, whatever the case of its letters.
pub(crate) fn is_word(text: &[u8], word: &[u8]) -> bool
    ensures { result ≡ Verbs.is_word text.now word.now }
{
    text.eq_ignore_ascii_case(word)
}
