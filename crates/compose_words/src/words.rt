//! The word of a composition.
ghost use Rattle.std.specs.Prelude.{◌≡◌};
ghost use Rattle.compose_words.specs.Words.{is_compose};

use exact_ratio::Words;

/// Whether words are `compose` alone.
pub(crate) fn is_compose(words: &[Words]) -> bool
    ensures { result ≡ is_compose words.now }
{
    match words {
        [word] => word.bytes() == b"compose".as_slice(),
        _ => false,
    }
}
