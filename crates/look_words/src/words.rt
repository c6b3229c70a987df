//! The words of a look.
ghost use Rattle.std.specs.Prelude.{◌≡◌};
ghost use Rattle.look_words.specs.Words.{is_check, is_dry_job, is_dry_run, listed_by, listed_in, name_in};

use exact_ratio::Words;

/// What the words of a list ask for.
#[derive(Clone, Copy, PartialEq, Eq)]
pub enum Listed {
    /// All that is kept.
    All,
    /// What is kept of the layer that the second word names.
    OfLayer,
    /// They are no words of a list.
    Nothing,
}

/// Whether words are `check` alone.
pub(crate) fn is_check(words: &[Words]) -> bool
    ensures { result ≡ is_check words.now }
{
    match words {
        [word] => word.bytes() == b"check".as_slice(),
        _ => false,
    }
}

/// Whether a word and a flag are `job --dry-run`.
fn is_dry_job(word: &[u8], flag: &[u8]) -> bool
    ensures { result ≡ is_dry_job word.now flag.now }
{
    if word == b"job".as_slice() {
        flag == b"--dry-run".as_slice()
    } else {
        false
    }
}

/// Whether words are `job --dry-run`.
pub(crate) fn is_dry_run(words: &[Words]) -> bool
    ensures { result ≡ is_dry_run words.now }
{
    match words {
        [word, flag] => is_dry_job(word.bytes(), flag.bytes()),
        _ => false,
    }
}

/// What a word asks for that stands alone, or with a name behind it.
fn listed_by(word: &[u8], listed: Listed) -> Listed
    ensures { result ≡ listed_by word.now listed }
{
    if word == b"list".as_slice() {
        listed
    } else {
        Listed::Nothing
    }
}

/// What words ask to be listed.
pub(crate) fn listed_in(words: &[Words]) -> Listed
    ensures { result ≡ listed_in words.now }
{
    match words {
        [word] => listed_by(word.bytes(), Listed::All),
        [word, _] => listed_by(word.bytes(), Listed::OfLayer),
        _ => Listed::Nothing,
    }
}

/// The name of the layer, which is the second word; no bytes where there aren't two.
pub(crate) fn name_in(words: &[Words]) -> &[u8]
    ensures { result.now ≡ name_in words.now }
{
    match words {
        [_, name] => name.bytes(),
        _ => b"",
    }
}
