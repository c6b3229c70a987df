//! The words of a twin.
ghost use Rattle.std.specs.Prelude.{◌≡◌};
ghost use Rattle.twin_words.specs.Words.{one_word, twin_word, two_words};

use exact_ratio::Words;

/// What the words of a twin ask for.
#[derive(Clone, Copy, PartialEq, Eq)]
pub enum TwinWord {
    /// An empty cache, an empty file of marks and an empty outbox are made, whatever stood there.
    Make,
    /// The lines of the input are run on the three.
    Run,
}

/// What one word asks for.
fn one_word(word: &[u8]) -> Option<TwinWord>
    ensures { result ≡ one_word word.now }
{
    if word == b"twin".as_slice() {
        Some(TwinWord::Run)
    } else {
        None
    }
}

/// What two words ask for.
fn two_words(word: &[u8], after: &[u8]) -> Option<TwinWord>
    ensures { result ≡ two_words word.now after.now }
{
    if word == b"twin".as_slice() {
        if after == b"make".as_slice() {
            Some(TwinWord::Make)
        } else {
            None
        }
    } else {
        None
    }
}

/// What words ask for; `None` exactly where they are neither `twin` nor `twin make`.
pub fn twin_word(words: &[Words]) -> Option<TwinWord>
    ensures { result ≡ twin_word words.now }
{
    match words {
        [word] => one_word(word.bytes()),
        [word, after] => two_words(word.bytes(), after.bytes()),
        _ => None,
    }
}
