//! The words of a feed.
ghost use Rattle.std.specs.Prelude.{◌≡◌};
ghost use Rattle.feed_words.specs.Words.{feed_word, one_word, two_words};

use exact_ratio::Words;

/// What the words of a feed ask for.
#[derive(Clone, Copy, PartialEq, Eq)]
pub enum FeedWord {
    /// An empty file of marks is made, whatever stood there.
    Make,
    /// The changes of the input are made.
    Run,
}

/// What one word asks for.
fn one_word(word: &[u8]) -> Option<FeedWord>
    ensures { result ≡ one_word word.now }
{
    if word == b"feed".as_slice() {
        Some(FeedWord::Run)
    } else {
        None
    }
}

/// What two words ask for.
fn two_words(word: &[u8], after: &[u8]) -> Option<FeedWord>
    ensures { result ≡ two_words word.now after.now }
{
    if word == b"feed".as_slice() {
        if after == b"make".as_slice() {
            Some(FeedWord::Make)
        } else {
            None
        }
    } else {
        None
    }
}

/// What words ask for; `None` exactly where they are neither `feed` nor `feed make`.
pub fn feed_word(words: &[Words]) -> Option<FeedWord>
    ensures { result ≡ feed_word words.now }
{
    match words {
        [word] => one_word(word.bytes()),
        [word, after] => two_words(word.bytes(), after.bytes()),
        _ => None,
    }
}
